//! The columns of each table by name, and their entries: `entry` has one by its column and its row.
ghost use Rattle.std.specs.Prelude.{◌≡◌, ◌<◌};
ghost use Rattle.tables.specs.Shape.{rows, width};
ghost use Rattle.tables.specs.Columns.{entry};

use crate::Table;

/// A column of a table, by its place in a row: the first is 0.
#[derive(Clone, Copy)]
pub struct Column {
    pub table: Table,
    pub index: usize,
    pub ghost inside: { index < width table },
}

pub const ZONE_NUMBER: Column = Column {
    table: Table::Zones,
    index: 0,
};

pub const ZONE_RATE: Column = Column {
    table: Table::Zones,
    index: 1,
};

pub const OWNER_NUMBER: Column = Column {
    table: Table::Owners,
    index: 0,
};

pub const OWNER_ZONE: Column = Column {
    table: Table::Owners,
    index: 1,
};

pub const OWNER_REQUIREMENT: Column = Column {
    table: Table::Owners,
    index: 2,
};

pub const UNIT_NUMBER: Column = Column {
    table: Table::Units,
    index: 0,
};

pub const UNIT_OWNER: Column = Column {
    table: Table::Units,
    index: 1,
};

pub const UNIT_ZONE: Column = Column {
    table: Table::Units,
    index: 2,
};

pub const UNIT_SERVICE: Column = Column {
    table: Table::Units,
    index: 3,
};

pub const UNIT_REQUIREMENT: Column = Column {
    table: Table::Units,
    index: 4,
};

pub const UNIT_RESERVE: Column = Column {
    table: Table::Units,
    index: 5,
};

pub const ACCOUNT_NUMBER: Column = Column {
    table: Table::Accounts,
    index: 0,
};

pub const ACCOUNT_CUSTOMER: Column = Column {
    table: Table::Accounts,
    index: 1,
};

pub const ACCOUNT_ZONE: Column = Column {
    table: Table::Accounts,
    index: 2,
};

pub const LOAD_ACCOUNT: Column = Column {
    table: Table::Loads,
    index: 0,
};

pub const LOAD_DAY: Column = Column {
    table: Table::Loads,
    index: 1,
};

pub const LOAD_CONTRIBUTION: Column = Column {
    table: Table::Loads,
    index: 2,
};

pub const RESERVATION_ACCOUNT: Column = Column {
    table: Table::Reservations,
    index: 0,
};

pub const RESERVATION_RESERVED: Column = Column {
    table: Table::Reservations,
    index: 1,
};

pub const RESERVATION_CURTAILED: Column = Column {
    table: Table::Reservations,
    index: 2,
};

pub const FIRM_ACCOUNT: Column = Column {
    table: Table::Firm,
    index: 0,
};

pub const FIRM_TERM: Column = Column {
    table: Table::Firm,
    index: 1,
};

pub const FIRM_MISO: Column = Column {
    table: Table::Firm,
    index: 2,
};

pub const FIRM_DAY: Column = Column {
    table: Table::Firm,
    index: 3,
};

pub const FIRM_CAPACITY: Column = Column {
    table: Table::Firm,
    index: 4,
};

/// The entry of row `i` in a column. Words behind the last whole row are no entries.
pub fn entry(column: Column, words: &[u64], i: usize) -> u64
    requires { i < rows column.table words.now }
    ensures { result ≡ entry column.table column.index words.now i }
{
    words[i * crate::width(column.table) + column.index]
}
