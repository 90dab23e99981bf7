//! RANGE: an entry of a row outside its range, table by table.
ghost use Rattle.std.specs.Prelude.{◌≡◌, ◌<◌};
ghost use Rattle.tables.specs.declared.Table.TheVariants.{Zones, Owners, Units, Accounts, Loads, Reservations, Firm};
ghost use Rattle.tables.specs.Shape.{rows};
ghost use Rattle.month.specs.Limits.{reserve_limit, last_first_day};
ghost use Rattle.rows.specs.Rows.{zone_outside, owner_outside, unit_outside, account_outside, load_outside, reservation_outside, firm_outside, row_outside};

use crate::outside;
use month::Month;
use tables::columns::{
    ACCOUNT_CUSTOMER, ACCOUNT_NUMBER, ACCOUNT_ZONE, FIRM_ACCOUNT, FIRM_CAPACITY, FIRM_DAY,
    FIRM_MISO, FIRM_TERM, LOAD_ACCOUNT, LOAD_CONTRIBUTION, LOAD_DAY, OWNER_NUMBER,
    OWNER_REQUIREMENT, OWNER_ZONE, RESERVATION_ACCOUNT, RESERVATION_CURTAILED,
    RESERVATION_RESERVED, UNIT_NUMBER, UNIT_OWNER, UNIT_REQUIREMENT, UNIT_RESERVE, UNIT_SERVICE,
    UNIT_ZONE, ZONE_NUMBER, ZONE_RATE, entry,
};
use tables::{
    BLACK_START, DAILY, LAST_ACCOUNT, LAST_CUSTOMER, LAST_OWNER, LAST_UNIT, LAST_ZONE, MISO,
    MONTHLY, MOST_ANNUAL, MOST_CAPACITY, MOST_ENERGY, MOST_LOAD, MOST_RATE, MOST_RESERVE, REACTIVE,
    Table,
};

#[tactic(auto, unfolding(crate::specs::Rows::zone_outside))]
fn zone_outside(zones: &[u64], i: usize) -> bool
    requires { i < rows Zones zones.now }
    ensures { result ≡ zone_outside zones.now i }
{
    let zone = entry(ZONE_NUMBER, zones, i);
    let rate = entry(ZONE_RATE, zones, i);
    outside(1, LAST_ZONE, zone) || outside(0, MOST_RATE, rate)
}

#[tactic(auto, unfolding(crate::specs::Rows::owner_outside))]
fn owner_outside(owners: &[u64], i: usize) -> bool
    requires { i < rows Owners owners.now }
    ensures { result ≡ owner_outside owners.now i }
{
    let owner = entry(OWNER_NUMBER, owners, i);
    let zone = entry(OWNER_ZONE, owners, i);
    let annual = entry(OWNER_REQUIREMENT, owners, i);
    outside(1, LAST_OWNER, owner) || outside(1, LAST_ZONE, zone) || outside(0, MOST_ANNUAL, annual)
}

// The most that a reserve credit may be, by its unit's service.
fn reserve_limit(service: u64) -> u64
    ensures { result ≡ reserve_limit service }
{
    if service == REACTIVE { 0 } else { MOST_RESERVE }
}

#[tactic(auto, unfolding(crate::specs::Rows::unit_outside))]
fn unit_outside(units: &[u64], i: usize) -> bool
    requires { i < rows Units units.now }
    ensures { result ≡ unit_outside units.now i }
{
    let unit = entry(UNIT_NUMBER, units, i);
    let owner = entry(UNIT_OWNER, units, i);
    let zone = entry(UNIT_ZONE, units, i);
    let service = entry(UNIT_SERVICE, units, i);
    let annual = entry(UNIT_REQUIREMENT, units, i);
    let reserve = entry(UNIT_RESERVE, units, i);
    outside(1, LAST_UNIT, unit)
        || outside(1, LAST_OWNER, owner)
        || outside(1, LAST_ZONE, zone)
        || outside(BLACK_START, REACTIVE, service)
        || outside(0, MOST_ANNUAL, annual)
        || outside(0, reserve_limit(service), reserve)
}

#[tactic(auto, unfolding(crate::specs::Rows::account_outside))]
fn account_outside(accounts: &[u64], i: usize) -> bool
    requires { i < rows Accounts accounts.now }
    ensures { result ≡ account_outside accounts.now i }
{
    let account = entry(ACCOUNT_NUMBER, accounts, i);
    let customer = entry(ACCOUNT_CUSTOMER, accounts, i);
    let zone = entry(ACCOUNT_ZONE, accounts, i);
    outside(1, LAST_ACCOUNT, account)
        || outside(1, LAST_CUSTOMER, customer)
        || outside(0, LAST_ZONE, zone)
}

#[tactic(auto, unfolding(crate::specs::Rows::load_outside))]
fn load_outside(month: Month, loads: &[u64], i: usize) -> bool
    requires { i < rows Loads loads.now }
    ensures { result ≡ load_outside month.days loads.now i }
{
    let days = month.day_count();
    let account = entry(LOAD_ACCOUNT, loads, i);
    let day = entry(LOAD_DAY, loads, i);
    let contribution = entry(LOAD_CONTRIBUTION, loads, i);
    outside(1, LAST_ACCOUNT, account)
        || outside(1, days, day)
        || outside(0, MOST_LOAD, contribution)
}

#[tactic(auto, unfolding(crate::specs::Rows::reservation_outside))]
fn reservation_outside(words: &[u64], i: usize) -> bool
    requires { i < rows Reservations words.now }
    ensures { result ≡ reservation_outside words.now i }
{
    let account = entry(RESERVATION_ACCOUNT, words, i);
    let reserved = entry(RESERVATION_RESERVED, words, i);
    let curtailed = entry(RESERVATION_CURTAILED, words, i);
    outside(1, LAST_ACCOUNT, account)
        || outside(0, MOST_ENERGY, reserved)
        || outside(0, MOST_ENERGY, curtailed)
        || outside(0, reserved, curtailed)
}

// The last day on which a reservation of a term may begin, in a month of so many days.
fn last_first_day(term: u64, days: u64) -> u64
    ensures { result ≡ last_first_day term days }
{
    if term == MONTHLY { 1 } else { days }
}

#[tactic(auto, unfolding(crate::specs::Rows::firm_outside))]
fn firm_outside(month: Month, firm: &[u64], i: usize) -> bool
    requires { i < rows Firm firm.now }
    ensures { result ≡ firm_outside month.days firm.now i }
{
    let days = month.day_count();
    let account = entry(FIRM_ACCOUNT, firm, i);
    let term = entry(FIRM_TERM, firm, i);
    let miso = entry(FIRM_MISO, firm, i);
    let first = entry(FIRM_DAY, firm, i);
    let capacity = entry(FIRM_CAPACITY, firm, i);
    outside(1, LAST_ACCOUNT, account)
        || outside(DAILY, MONTHLY, term)
        || outside(0, MISO, miso)
        || outside(1, days, first)
        || outside(1, last_first_day(term, days), first)
        || outside(0, MOST_CAPACITY, capacity)
}

/// An entry of row `i` of a table is outside its range, in its month.
pub fn row_outside(table: Table, month: Month, words: &[u64], i: usize) -> bool
    requires { i < rows table words.now }
    ensures { result ≡ row_outside month.days table words.now i }
{
    match table {
        Table::Zones => zone_outside(words, i),
        Table::Owners => owner_outside(words, i),
        Table::Units => unit_outside(words, i),
        Table::Accounts => account_outside(words, i),
        Table::Loads => load_outside(month, words, i),
        Table::Reservations => reservation_outside(words, i),
        Table::Firm => firm_outside(month, words, i),
    }
}
