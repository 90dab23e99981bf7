//! The rows of one of the month's tables: counted, stored, measured and written with the table's own key, width and limit.
ghost use Rattle.std.specs.Prelude.{◌≡◌, suc, ◌+◌, ◌*◌, ◌≤◌, length, drop};
ghost use Rattle.tables.specs.Shape.{width};
ghost use Rattle.text.specs.Places.{PutAt, Sized};
ghost use Rattle.fileform.specs.Form.{line_key, kind_of, line_of};
ghost use Rattle.fileform.specs.Reading.{row_lines};
ghost use Rattle.fileform.specs.Calls.{CountedAt, RowsTaken, table_text};

use crate::row::Counted;
use crate::{keys, row};
use tables::Table;

// A table's key.
fn line_key(table: Table) -> &'static [u8]
    ensures { result.now ≡ line_key table }
{
    match table {
        Table::Zones => keys::ZONE,
        Table::Owners => keys::OWNER,
        Table::Units => keys::UNIT,
        Table::Accounts => keys::ACCOUNT,
        Table::Loads => keys::LOAD,
        Table::Reservations => keys::PTP,
        Table::Firm => keys::FIRM,
    }
}

/// Counts the rows of a table from `at` on, to one past its limit.
pub fn count_table(text: &[u8], at: usize, table: Table) -> Counted
    requires { at ≤ length text.now }
    ensures { CountedAt text.now (row_lines (line_of (kind_of table)) (suc (kind_of table).limit) (drop at text.now)) result }
{
    row::count_rows(
        text,
        at,
        line_key(table),
        tables::width(table),
        tables::limit(table) + 1,
    )
}

/// Stores so many rows of a table, which are known to be there, and answers the offset behind them.
pub fn take_table(text: &[u8], at: usize, table: Table, count: usize, words: &mut [u64]) -> usize
    requires { (at ≤ length text.now) × ((row_lines (line_of (kind_of table)) count (drop at text.now)).count ≡ count) × (count * width table ≤ length words.old) }
    ensures { RowsTaken text.now (row_lines (line_of (kind_of table)) count (drop at text.now)) words.old result words.new }
{
    row::take_rows(
        text,
        at,
        line_key(table),
        tables::width(table),
        count,
        words,
    )
}

/// Adds the bytes of a table's whole rows to a size, up to the cap.
pub fn table_size(table: Table, words: &[u64], before: usize, cap: usize) -> usize
    requires { before ≤ cap }
    ensures { Sized before (table_text table words.now) cap result }
{
    row::rows_size(
        line_key(table),
        tables::width(table),
        tables::rows_in(table, words.len()),
        words,
        before,
        cap,
    )
}

/// Writes a table's whole rows at `at`, and answers the place behind them.
pub fn put_table(table: Table, words: &[u64], out: &mut [u8], at: usize) -> usize
    requires { at + length (table_text table words.now) ≤ length out.old }
    ensures { PutAt out.old at (table_text table words.now) result out.new }
{
    row::put_rows(
        line_key(table),
        tables::width(table),
        tables::rows_in(table, words.len()),
        words,
        out,
        at,
    )
}
