//! One service, black start or reactive, over plain arrays: each zone's pot is split by all zone use and all non-zone use, the zone
//! side is shared among the zone's accounts by their zone parts, and the non-zone sides of all zones are one pot, shared among all
//! accounts by their non-zone parts. It knows no month: whoever calls it fills the parts. `specs/` says what each account is
//! charged, `proofs/Promises.antt` what follows from it.
#![tactic(auto)]

ghost use Rattle.std.specs.Prelude.{◌≡◌, [], ◌∷◌, ◌+◌, ◌*◌, ◌≤◌, ◌<◌, ◌^◌, length};
ghost use Rattle.answer.specs.Results.{result_answer};
ghost use Rattle.groups.specs.Groups.{weights_in};
ghost use Rattle.groups.specs.Columns.{Addable};
ghost use Rattle.groups.specs.Steps.{Summed};
ghost use Rattle.service.specs.Lists.{service_in};
ghost use Rattle.service.specs.Service.{zone_sides};
ghost use Rattle.service.specs.Turn.{Served};
ghost use Rattle.service.specs.Steps.{Split, OneZone, AllZones, AllCharged};

use answer::{Part, Refusal, Refused, placed};
use groups::columns;
pub use together::ServiceLists;

mod together;

// The two sides of a zone's pot.
#[derive(Drop)]
struct Sides {
    zone: u64,
    nonzone: u64,
}

// A pot in two by two uses, zone side first.
fn split(pot: u64, zone: u64, nonzone: u64) -> Result<Sides, Refusal>
    ensures { Split pot (zone ∷ nonzone ∷ []) result }
{
    let uses = [zone, nonzone];
    let mut sides = [0u64; 2];
    division::divide(pot, &uses, &mut sides)?;
    Ok(Sides {
        zone: sides[0],
        nonzone: sides[1],
    })
}

// Zone `z`: its pot is split by two uses, and its zone side shared among its accounts. The split stands at `place`, the share
// behind it. Answers the non-zone side.
fn charge_zone(
    lists: ServiceLists,
    z: usize,
    zone: u64,
    nonzone: u64,
    column: &mut [u64],
    place: u64,
) -> Result<u64, Refused>
    requires addable { Addable (length lists.zoneparts.now) column.old }
    requires z_in_bounds { z < length lists.numbers.now }
    requires place_bound { place + 1 < 2 ^ 64 }
    ensures { OneZone ((service_in lists.entry).pot z) (zone ∷ nonzone ∷ []) (weights_in (zone_sides (service_in lists.entry)) z) place column.old column.new result }
{
    let sides = placed(split(lists.pots[z], zone, nonzone), Part::Divisions, place)?;
    let number = lists.numbers[z];
    let shared = groups::divide_among(sides.zone, lists.zoneparts, lists.zones, number, column);
    placed(shared, Part::Divisions, place + 1)?;
    Ok(sides.nonzone)
}

// Each zone in turn, charged to a column of zeros, until the first refusal. Answers the non-zone sides, added up.
fn charge_zones(lists: ServiceLists, column: &mut [u64], place: u64) -> Result<u64, Refused>
    requires summed { Summed (zone_sides (service_in lists)) 0 column.old }
    requires numbers_bound { place + 2 * length lists.numbers.now < 2 ^ 64 }
    ensures { AllZones (service_in lists.entry) place column.new result }
{
    let zone = lists::sum_capped(lists.zoneparts, u64::MAX);
    let nonzone = lists::sum_capped(lists.nonzoneparts, u64::MAX);
    let mut sides = 0;
    for z in 0..lists.numbers.len() {
        sides += charge_zone(lists, z, zone, nonzone, column, place + 2 * z as u64)?;
    }
    Ok(sides)
}

// The zones and then the non-zone pot, charged to a column of zeros, until the first refusal.
fn charge_all(lists: ServiceLists, column: &mut [u64], place: u64) -> Result<(), Refused>
    requires summed { Summed (zone_sides (service_in lists)) 0 column.old }
    requires numbers_bound { place + 2 * length lists.numbers.now < 2 ^ 64 }
    ensures { AllCharged (service_in lists.entry) place column.new (result_answer result) }
{
    let nonzone = charge_zones(lists, column, place)?;
    let divided = groups::divide_all(nonzone, lists.nonzoneparts, column);
    placed(
        divided,
        Part::Divisions,
        place + 2 * lists.numbers.len() as u64,
    )
}

/// Charges a service's pots to the accounts, and writes each account's charge to the first words of the column. Refuses with BIG,
/// then BASE, at the first division that is refused; from `place` on stand each zone's split and share, zone by zone, and last the
/// non-zone pot's division. A refusal writes nothing.
pub fn charge(lists: ServiceLists, column: &mut [u64], place: u64) -> Result<(), Refused>
    requires zoneparts_in_bounds { length lists.zoneparts.now ≤ length column.old }
    requires numbers_bound { place + 2 * length lists.numbers.now < 2 ^ 64 }
    ensures { Served (service_in lists.entry) place column.old column.new (result_answer result) }
{
    let count = lists.zoneparts.len();
    // no heap here: an array of the most there can be
    let mut charges = [0u64; groups::MOST_MEMBERS];
    charge_all(lists, &mut charges, place)?;
    columns::store(&charges[..count], column);
    Ok(())
}
