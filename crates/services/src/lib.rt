//! One service of a month, black start or reactive, by its number: the owners' credits for its units, and its charges to the
//! accounts, in columns with a word for each owner or account. The units' credits make the zones' pots here, and decide what of an
//! account's use is zone use; `service` divides the pots. `pool`'s `specs/Services.antt` says each credit and charge in the paper's words.
#![tactic(auto, using(lists::proofs::Entries::put_none, lists::proofs::Entries::put_suc, lists::proofs::Entries::put_long))]

ghost use Rattle.std.specs.Prelude.{◌≡◌, ◌+◌, ◌*◌, ◌≤◌, ◌<◌, ◌^◌, length};
ghost use Rattle.lists.specs.Sums.{at};
ghost use Rattle.lists.specs.Entries.{put};
ghost use Rattle.answer.specs.Results.{result_answer};
ghost use Rattle.service.specs.Turn.{Served};
ghost use Rattle.tables.specs.declared.Table.TheVariants.{Zones, Owners, Units, Accounts};
ghost use Rattle.tables.specs.Shape.{limit, tables_now};
ghost use Rattle.columns.specs.Columns.{rows_of, Summable};
ghost use Rattle.pool.specs.Services.{zone_part, nonzone_part, credit_in};
ghost use Rattle.services.specs.Settled.{units_input, Creditable, Usable, ServiceSettled};
ghost use Rattle.services.specs.Steps.{service_lent, PartsFilled};

use answer::Refused;
use columns::entry_of;
use month::Month;
use service::ServiceLists;
use tables::columns::{
    ACCOUNT_ZONE, UNIT_OWNER, UNIT_REQUIREMENT, UNIT_RESERVE, UNIT_SERVICE, UNIT_ZONE, ZONE_NUMBER,
};
use tables::{MOST_ACCOUNTS, MOST_UNITS, MOST_ZONES, TABLES, Table};

// The credit of a unit, where it is one of a service, else 0.
#[tactic(auto, using(month::proofs::Months::twelfth_within), unfolding(pool::specs::Services::credit_in, pool::specs::Services::unit_credit))]
fn credit_of<'a>(service: u64, month: Month, tables: [&'a [u64]; TABLES], i: usize) -> u64
    requires { Creditable (units_input month.number (tables_now tables)) × (i < rows_of (tables_now tables) Units) }
    ensures { result ≡ credit_in (units_input month.number (tables_now tables.entry)) service i }
{
    let twelfth = month.twelfth(entry_of(tables, UNIT_REQUIREMENT, i));
    let reserve = entry_of(tables, UNIT_RESERVE, i);
    if entry_of(tables, UNIT_SERVICE, i) == service {
        twelfth + reserve
    } else {
        0
    }
}

// Writes each unit's credit in a service.
fn fill_credits<'a>(service: u64, month: Month, tables: [&'a [u64]; TABLES], out: &mut [u64])
    requires { Creditable (units_input month.number (tables_now tables)) × (rows_of (tables_now tables) Units ≤ length out.old) }
    ensures { out.new ≡ put (rows_of (tables_now tables.entry) Units) (credit_in (units_input month.number (tables_now tables.entry)) service) out.old }
{
    let count = columns::rows_of(tables, Table::Units);
    for i in 0..count {
        out[i] = credit_of(service, month, tables, i);
    }
}

// What of an account's use is zone use in a service, and what is non-zone use.
#[derive(Drop)]
struct Parts {
    zone: u64,
    nonzone: u64,
}

// The parts of an account's use, by its zone and what the zone's units of the service are credited: at the border all is non-zone
// use, and where a zone has no credits the network part of its accounts' use is; the rest is zone use.
#[tactic(auto, unfolding(pool::specs::Services::zone_part, pool::specs::Services::nonzone_part))]
fn parts_of(zone: u64, credits: u64, network: u64, energy: u64) -> Parts
    requires { network + energy < 2 ^ 64 }
    ensures { (result.zone ≡ zone_part zone credits network energy) × (result.nonzone ≡ nonzone_part zone credits network energy) }
{
    if zone == 0 {
        Parts {
            zone: 0,
            nonzone: network + energy,
        }
    } else if credits == 0 {
        Parts {
            zone: energy,
            nonzone: network,
        }
    } else {
        Parts {
            zone: network + energy,
            nonzone: 0,
        }
    }
}

// Writes each account's zone part and non-zone part of its use, of a column with the credits of the service's units.
fn fill_parts<'a>(
    tables: [&'a [u64]; TABLES],
    networks: &[u64],
    energies: &[u64],
    unitcredits: &[u64],
    zoneparts: &mut [u64],
    nonzoneparts: &mut [u64],
)
    requires usable { Usable (tables_now tables) networks.now energies.now × Summable (rows_of (tables_now tables) Units) unitcredits.now }
    requires room_for_rows { (rows_of (tables_now tables) Accounts ≤ length zoneparts.old) × (rows_of (tables_now tables) Accounts ≤ length nonzoneparts.old) }
    ensures { PartsFilled (service_lent (tables_now tables.entry) networks.now energies.now unitcredits.now) zoneparts.old zoneparts.new nonzoneparts.old nonzoneparts.new }
{
    let count = columns::rows_of(tables, Table::Accounts);
    for i in 0..count {
        let zone = entry_of(tables, ACCOUNT_ZONE, i);
        let credits = columns::sum_in(tables, UNIT_ZONE, unitcredits, zone);
        let parts = parts_of(zone, credits, networks[i], energies[i]);
        zoneparts[i] = parts.zone;
        nonzoneparts[i] = parts.nonzone;
    }
}

// Charges the credits of a service's units to the accounts, zone by zone.
fn charge<'a>(
    tables: [&'a [u64]; TABLES],
    networks: &[u64],
    energies: &[u64],
    unitcredits: &[u64],
    column: &mut [u64],
    place: u64,
) -> Result<(), Refused>
    requires usable { Usable (tables_now tables) networks.now energies.now × Summable (rows_of (tables_now tables) Units) unitcredits.now }
    requires tables_bound { (rows_of (tables_now tables) Zones ≤ limit Zones) × (place + 2 * rows_of (tables_now tables) Zones < 2 ^ 64) × (rows_of (tables_now tables) Accounts ≤ length column.old) }
    ensures { Served (service_lent (tables_now tables.entry) networks.now energies.now unitcredits.now) place column.old column.new (result_answer result) }
{
    let zonecount = columns::rows_of(tables, Table::Zones);
    let count = columns::rows_of(tables, Table::Accounts);
    // No heap here: arrays of the most there can be, and the front of each.
    let mut numbers = [0u64; MOST_ZONES];
    let mut pots = [0u64; MOST_ZONES];
    let mut accountzones = [0u64; MOST_ACCOUNTS];
    let mut zoneparts = [0u64; MOST_ACCOUNTS];
    let mut nonzoneparts = [0u64; MOST_ACCOUNTS];
    columns::copy(tables, ZONE_NUMBER, &mut numbers);
    columns::sums_in(tables, UNIT_ZONE, unitcredits, Table::Zones, &mut pots);
    columns::copy(tables, ACCOUNT_ZONE, &mut accountzones);
    fill_parts(
        tables,
        networks,
        energies,
        unitcredits,
        &mut zoneparts,
        &mut nonzoneparts,
    );
    let lists = ServiceLists {
        pots: &pots[..zonecount],
        numbers: &numbers[..zonecount],
        zoneparts: &zoneparts[..count],
        nonzoneparts: &nonzoneparts[..count],
        zones: &accountzones[..count],
    };
    service::charge(lists, column, place)
}

/// Settles a service, of which the first division stands at `place`, from two columns with the network part and the energy part of
/// each account's use: writes each account's charge and each owner's credit to the first words of two columns. Refused, it leaves the
/// charges as they were; the credits, which no division can refuse, are written. `service` is a number, as a unit's row has it:
/// an enum would ask more of callers.
pub fn settle<'a>(
    service: u64,
    month: Month,
    tables: [&'a [u64]; TABLES],
    networks: &[u64],
    energies: &[u64],
    charges: &mut [u64],
    credits: &mut [u64],
    place: u64,
) -> Result<(), Refused>
    requires creditable { Creditable (units_input month.number (tables_now tables)) × Usable (tables_now tables) networks.now energies.now × (place + 2 * rows_of (tables_now tables) Zones < 2 ^ 64) }
    requires room_for_rows { (rows_of (tables_now tables) Accounts ≤ length charges.old) × (rows_of (tables_now tables) Owners ≤ length credits.old) }
    ensures { ServiceSettled (units_input month.number (tables_now tables.entry)) (at networks.now) (at energies.now) service place charges.old charges.new credits.old credits.new (result_answer result) }
{
    // no heap here: an array of the most there can be
    let mut unitcredits = [0u64; MOST_UNITS];
    fill_credits(service, month, tables, &mut unitcredits);
    columns::sums_in(tables, UNIT_OWNER, &unitcredits, Table::Owners, credits);
    charge(tables, networks, energies, &unitcredits, charges, place)
}
