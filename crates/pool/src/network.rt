//! Network credits: each zone's charges among its owners, and zone 0's among all, by requirement.
ghost use Rattle.answer.specs.Results.{result_answer};
ghost use Rattle.tables.specs.Shape.{tables_now};
ghost use Rattle.pool.specs.Divided.{Divisible, CreditColumns, NetworkCredited};

use answer::{Part, Refused};
use groups::GroupPots;
use tables::columns::{ACCOUNT_ZONE, OWNER_REQUIREMENT, OWNER_ZONE, ZONE_NUMBER};
use tables::{MOST_OWNERS, MOST_ZONES, TABLES, Table};

// How many words the two columns of credits have.
const CREDITS: usize = 2 * MOST_OWNERS;

/// The network divisions of a column of charges, one for each account, in turn: each zone's pot among its owners, and the non-zone
/// pot among all. Writes each owner's network credit and its non-zone network credit to the first words of two columns of
/// MOST_OWNERS words, lent one behind the other, the second of zeros. A division that is refused leaves its column as it was.
#[tactic(auto, using(lists::proofs::Entries::put_long))]
pub fn credit<'a>(
    tables: [&'a [u64]; TABLES],
    network: &[u64],
    credits: &mut [u64],
) -> Result<(), Refused>
    requires { Divisible (tables_now tables) network.now × CreditColumns credits.old }
    ensures { NetworkCredited (tables_now tables.entry) network.now credits.old credits.new (result_answer result) }
{
    let zonecount = columns::rows_of(tables, Table::Zones);
    let ownercount = columns::rows_of(tables, Table::Owners);
    // No heap here: arrays of the most there can be, and the front of each.
    let mut numbers = [0u64; MOST_ZONES];
    let mut pots = [0u64; MOST_ZONES];
    let mut requirements = [0u64; MOST_OWNERS];
    let mut ownerzones = [0u64; MOST_OWNERS];
    columns::copy(tables, ZONE_NUMBER, &mut numbers);
    columns::sums_in(tables, ACCOUNT_ZONE, network, Table::Zones, &mut pots);
    columns::copy(tables, OWNER_REQUIREMENT, &mut requirements);
    columns::copy(tables, OWNER_ZONE, &mut ownerzones);
    let lists = GroupPots {
        pots: &pots[..zonecount],
        numbers: &numbers[..zonecount],
        weights: &requirements[..ownercount],
        groups: &ownerzones[..ownercount],
    };
    let zones = groups::each_group(lists, &mut credits[..MOST_OWNERS], 0);
    let pot = columns::sum_in(tables, ACCOUNT_ZONE, network, 0);
    let divided = groups::divide_all(
        pot,
        &requirements[..ownercount],
        &mut credits[MOST_OWNERS..CREDITS],
    );
    let nonzone = answer::placed(divided, Part::Divisions, zonecount as u64);
    zones.and(nonzone)
}
