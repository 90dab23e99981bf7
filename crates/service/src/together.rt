//! The lists that a service is charged by.
ghost use Rattle.service.specs.Turn.{ServiceTogether};

/// The pot and the number of each zone, at most 64; the two parts of use, each with a sum that fits a word, and the zone of each
/// account, at most 64. The lists stay side by side, since `division::divide` takes the weights as one slice.
#[derive(Clone, Copy)]
pub struct ServiceLists<'a> {
    pub pots: &'a [u64],
    pub numbers: &'a [u64],
    pub zoneparts: &'a [u64],
    pub nonzoneparts: &'a [u64],
    pub zones: &'a [u64],
    pub ghost together: { ServiceTogether pots.now numbers.now zoneparts.now nonzoneparts.now zones.now },
}
