//! Dividing a pot among the members of a group, a zone's owners or a zone's accounts, and adding the amounts to a column of words;
//! and one such division for each group in turn. A group is the whole list of members with weight 0 for all others, so that an
//! amount goes straight to its member's word. `specs/` says what each member has, `proofs/Laws.antt` what follows from it.
#![tactic(auto)]

ghost use Rattle.std.specs.Prelude.{◌≡◌, ◌+◌, ◌≤◌, ◌<◌, ◌^◌, length};
ghost use Rattle.lists.specs.Sums.{at};
ghost use Rattle.answer.specs.Results.{result_number, result_answer};
ghost use Rattle.groups.specs.Columns.{Addable, Added};
ghost use Rattle.groups.specs.Groups.{among, Grouped};
ghost use Rattle.groups.specs.Lists.{pots_in};
ghost use Rattle.groups.specs.Steps.{Summed, GoneThrough};

use answer::{Part, Refusal, Refused, placed};
pub use together::GroupPots;

pub mod columns;
mod together;

/// How many members there can be.
pub const MOST_MEMBERS: usize = 64;

/// Divides a pot among all by weight and adds each share to its word of the column. Refuses with BIG, then BASE; a refusal leaves
/// the column as it was.
pub fn divide_all(pot: u64, weights: &[u64], column: &mut [u64]) -> Result<(), Refusal>
    requires { Addable (length weights.now) column.old }
    ensures { Added pot weights.now column.old column.new (result_number result) }
{
    let count = weights.len();
    // No heap here: an array of the most there can be, and the front of it.
    let mut shares = [0u64; MOST_MEMBERS];
    division::divide(pot, weights, &mut shares)?;
    columns::add(&shares[..count], column);
    Ok(())
}

/// The same among the members of one group.
pub fn divide_among(
    pot: u64,
    weights: &[u64],
    groups: &[u64],
    group: u64,
    column: &mut [u64],
) -> Result<(), Refusal>
    requires addable { Addable (length weights.now) column.old }
    requires groups_len { length groups.now ≡ length weights.now }
    ensures { Added pot (among (length weights.now) (at groups.now) (at weights.now) group) column.old column.new (result_number result) }
{
    let count = weights.len();
    let mut members = [0u64; MOST_MEMBERS];
    columns::keep(weights, groups, group, &mut members);
    divide_all(pot, &members[..count], column)
}

// Each group's pot in turn, added to a column of zeros, until the first refusal.
fn go_through(lists: GroupPots, column: &mut [u64], place: u64) -> Result<(), Refused>
    requires summed { Summed (pots_in lists) 0 column.old }
    requires numbers_bound { place + length lists.numbers.now < 2 ^ 64 }
    ensures { GoneThrough (pots_in lists.entry) place column.new (result_answer result) }
{
    // Each fact of this loop goes by the index `z`, which a zip with the pots would not have at hand.
    for (z, &number) in lists.numbers.iter().enumerate() {
        let divided = divide_among(lists.pots[z], lists.weights, lists.groups, number, column);
        placed(divided, Part::Divisions, place + z as u64)?;
    }
    Ok(())
}

/// One division for each group in turn: each pot among the members of its group, by weight. Writes what each member has from all
/// groups to the first words of the column. Refuses with BIG, then BASE, at the first division that is refused; the divisions'
/// places count up from `place`. A refusal writes nothing.
pub fn each_group(lists: GroupPots, column: &mut [u64], place: u64) -> Result<(), Refused>
    requires weights_in_bounds { length lists.weights.now ≤ length column.old }
    requires numbers_bound { place + length lists.numbers.now < 2 ^ 64 }
    ensures { Grouped (pots_in lists.entry) place column.old column.new (result_answer result) }
{
    let count = lists.weights.len();
    let mut sums = [0u64; MOST_MEMBERS];
    go_through(lists, &mut sums, place)?;
    columns::store(&sums[..count], column);
    Ok(())
}
