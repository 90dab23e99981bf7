//! The shape of a month's head and of its tables 1 to 6 and 10: what a refusal calls each table, how many entries its rows have, by how
//! many of them they ascend, how many rows it may have, and the limits of what stands in them. A table is named by a `Table`; its rows lie
//! end to end in one slice of words, and the tables that are only read go as one array of such slices, in the order of their numbers: by
//! value, since a struct whose model holds references cannot be copied, and this is indexed, looped over and handed on beside `&mut`.
//! `columns` has each entry of a row by name, and `counts` judges whether tables are whole rows and no more than they may have.
#![tactic(auto)]

ghost use Rattle.std.specs.Prelude.{◌≡◌, ◌/◌};
ghost use Rattle.tables.specs.Shape.{shape_of, table_at, place_of, part, width, key_columns, limit, tables_now, words_of};

use answer::Part;

pub mod columns;
pub mod counts;

/// The head of a month, plain numbers: which month, how many days it has, the non-zone rate, the rates of firm service by the day, the
/// week and the month, and the weekday of day 1, from Monday on.
#[derive(Clone, Copy, Debug, PartialEq, Eq)]
pub struct Head {
    pub month: u64,
    pub days: u64,
    pub nonzone: u64,
    pub daily: u64,
    pub weekly: u64,
    pub monthly: u64,
    pub weekday: u64,
}

/// How many numbers a head has.
pub const HEADS: usize = 7;

impl From<[u64; HEADS]> for Head {
    ghost use Rattle.tables.specs.Heads.{GivesHead};

    ghost from_gives = { GivesHead };

    fn from(numbers: [u64; HEADS]) -> Head {
        let [month, days, nonzone, daily, weekly, monthly, weekday] = numbers;
        Head {
            month,
            days,
            nonzone,
            daily,
            weekly,
            monthly,
            weekday,
        }
    }
}

impl From<Head> for [u64; HEADS] {
    ghost use Rattle.tables.specs.Heads.{GivesNumbers};

    ghost from_gives = { GivesNumbers };

    fn from(head: Head) -> [u64; HEADS] {
        [
            head.month,
            head.days,
            head.nonzone,
            head.daily,
            head.weekly,
            head.monthly,
            head.weekday,
        ]
    }
}

/// How many tables there are.
pub const TABLES: usize = 7;

/// One of tables 1 to 6, or table 10.
#[derive(Clone, Copy, Debug, PartialEq, Eq)]
pub enum Table {
    Zones,
    Owners,
    Units,
    Accounts,
    Loads,
    Reservations,
    Firm,
}

// How many entries a row of each table has.
pub const ZONE_WIDTH: usize = 2;

pub const OWNER_WIDTH: usize = 3;

pub const UNIT_WIDTH: usize = 6;

pub const ACCOUNT_WIDTH: usize = 3;

pub const LOAD_WIDTH: usize = 3;

pub const RESERVATION_WIDTH: usize = 3;

pub const FIRM_WIDTH: usize = 5;

// How many rows each table may have.
pub const MOST_ZONES: usize = 16;

pub const MOST_OWNERS: usize = 64;

pub const MOST_UNITS: usize = 64;

pub const MOST_ACCOUNTS: usize = 32;

pub const MOST_LOADS: usize = 992;

pub const MOST_RESERVATIONS: usize = 32;

pub const MOST_FIRM: usize = 992;

// How many figures an account's row of charges and an owner's row of credits have.
pub const CHARGE_WIDTH: usize = 4;

pub const CREDIT_WIDTH: usize = 5;

// The highest number that names a zone, an owner, a unit, an account and a customer; each starts at 1.
pub const LAST_ZONE: u64 = 999;

pub const LAST_OWNER: u64 = 9_999;

pub const LAST_UNIT: u64 = 9_999;

pub const LAST_ACCOUNT: u64 = 9_999;

pub const LAST_CUSTOMER: u64 = 1_000_000_000;

// The most that a rate, an annual requirement, a reserve credit, a day's peak load, a month's energy and a firm capacity may be.
pub const MOST_RATE: u64 = 100_000_000;

pub const MOST_ANNUAL: u64 = 1_000_000_000_000;

pub const MOST_RESERVE: u64 = 10_000_000_000;

pub const MOST_LOAD: u64 = 1_000_000;

pub const MOST_ENERGY: u64 = 1_000_000_000;

pub const MOST_CAPACITY: u64 = 1_000_000;

// The two services. They, the terms and the mark of MISO delivery are entries of a table: before it is judged any number may stand
// there, and what follows from it is defined for every number, so they stay numbers.
pub const BLACK_START: u64 = 1;

pub const REACTIVE: u64 = 2;

// The terms of a firm reservation.
pub const DAILY: u64 = 1;

pub const WEEKLY: u64 = 2;

pub const MONTHLY: u64 = 3;

/// The mark of MISO delivery; 0 stands for any other.
pub const MISO: u64 = 1;

/// The last weekday, Sunday; Monday is 1.
pub const LAST_WEEKDAY: u64 = 7;

/// The table at a place, in the order of their numbers; a place behind them is taken for the last. Loops over the
/// tables count places, since what they keep is said of the first k tables, and a place has the table's slice too.
pub fn table_at(place: usize) -> Table
    ensures { result ≡ table_at place }
{
    match place {
        0 => Table::Zones,
        1 => Table::Owners,
        2 => Table::Units,
        3 => Table::Accounts,
        4 => Table::Loads,
        5 => Table::Reservations,
        _ => Table::Firm,
    }
}

/// What the paper's list says of a table: its place among the tables, its name in a refusal, how many entries a row has, how many of
/// them in front are the key by which the rows ascend, and how many rows there may be.
#[derive(Clone, Copy, Debug, PartialEq, Eq)]
pub struct Shape {
    pub place: usize,
    pub part: Part,
    pub width: usize,
    pub keys: usize,
    pub limit: usize,
}

/// The list, an entry a table.
pub fn shape_of(table: Table) -> Shape
    ensures { result ≡ shape_of table }
{
    match table {
        Table::Zones => Shape {
            place: 0,
            part: Part::Zones,
            width: ZONE_WIDTH,
            keys: 1,
            limit: MOST_ZONES,
        },
        Table::Owners => Shape {
            place: 1,
            part: Part::Owners,
            width: OWNER_WIDTH,
            keys: 1,
            limit: MOST_OWNERS,
        },
        Table::Units => Shape {
            place: 2,
            part: Part::Units,
            width: UNIT_WIDTH,
            keys: 1,
            limit: MOST_UNITS,
        },
        Table::Accounts => Shape {
            place: 3,
            part: Part::Accounts,
            width: ACCOUNT_WIDTH,
            keys: 1,
            limit: MOST_ACCOUNTS,
        },
        Table::Loads => Shape {
            place: 4,
            part: Part::Loads,
            width: LOAD_WIDTH,
            keys: 2,
            limit: MOST_LOADS,
        },
        Table::Reservations => Shape {
            place: 5,
            part: Part::Reservations,
            width: RESERVATION_WIDTH,
            keys: 1,
            limit: MOST_RESERVATIONS,
        },
        Table::Firm => Shape {
            place: 6,
            part: Part::Firm,
            width: FIRM_WIDTH,
            keys: 4,
            limit: MOST_FIRM,
        },
    }
}

pub fn place_of(table: Table) -> usize
    ensures { result ≡ place_of table }
{
    shape_of(table).place
}

pub fn part(table: Table) -> Part
    ensures { result ≡ part table }
{
    shape_of(table).part
}

pub fn width(table: Table) -> usize
    ensures { result ≡ width table }
{
    shape_of(table).width
}

pub fn key_columns(table: Table) -> usize
    ensures { result ≡ key_columns table }
{
    shape_of(table).keys
}

pub fn limit(table: Table) -> usize
    ensures { result ≡ limit table }
{
    shape_of(table).limit
}

/// The words of one of the tables.
pub fn words_of<'a>(tables: [&'a [u64]; TABLES], table: Table) -> &'a [u64]
    ensures { result.now ≡ words_of (tables_now tables.entry) table }
{
    tables[place_of(table)]
}

/// How many whole rows of a table lie in so many words.
pub fn rows_in(table: Table, words: usize) -> usize
    ensures { result ≡ words / width table }
{
    words / width(table)
}
