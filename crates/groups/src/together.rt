//! The lists that a division for each group goes by.
ghost use Rattle.groups.specs.Groups.{Together};

/// A pot for each group's number, and a weight and a group for each member: at most 64 groups and 64 members.
/// The lists stay side by side, since `division::divide` takes the weights as one slice.
#[derive(Clone, Copy)]
pub struct GroupPots<'a> {
    pub pots: &'a [u64],
    pub numbers: &'a [u64],
    pub weights: &'a [u64],
    pub groups: &'a [u64],
    pub ghost together: { Together pots.now numbers.now weights.now groups.now },
}
