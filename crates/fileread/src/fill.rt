//! The second walk over a text, which stores its rows.
ghost use Rattle.tables.specs.Shape.{tables_of};
ghost use Rattle.fileread.specs.Steps.{Ready, FilledFrom};

use fileform::table;
use tables::{TABLES, Table};

/// Stores the rows of every table of a text whose tables begin at `body` and have so many rows, by the table's place.
pub fn fill(
    text: &[u8],
    body: usize,
    counts: [usize; TABLES],
    zones: &mut [u64],
    owners: &mut [u64],
    units: &mut [u64],
    accounts: &mut [u64],
    loads: &mut [u64],
    reservations: &mut [u64],
    firm: &mut [u64],
)
    requires { Ready text.now body counts (tables_of zones.old owners.old units.old accounts.old loads.old reservations.old firm.old) }
    ensures { FilledFrom text.now body (tables_of zones.old owners.old units.old accounts.old loads.old reservations.old firm.old) (tables_of zones.new owners.new units.new accounts.new loads.new reservations.new firm.new) }
{
    let first = table::take_table(text, body, Table::Zones, counts[0], zones);
    let second = table::take_table(text, first, Table::Owners, counts[1], owners);
    let third = table::take_table(text, second, Table::Units, counts[2], units);
    let fourth = table::take_table(text, third, Table::Accounts, counts[3], accounts);
    let fifth = table::take_table(text, fourth, Table::Loads, counts[4], loads);
    let sixth = table::take_table(text, fifth, Table::Reservations, counts[5], reservations);
    table::take_table(text, sixth, Table::Firm, counts[6], firm);
}
