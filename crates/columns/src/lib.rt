//! Columns of words. A column of one of a month's tables is copied here, or added up for a number or for each of a table's numbers,
//! into words that the caller lends. Columns of one length that lie one behind the other, lent as one slice, are a block:
//! `specs/Blocks.antt` says what its columns are, and `proofs/Blocks.antt` what lending some of them leaves in the others.
#![tactic(auto, using(lists::proofs::Entries::put_none, lists::proofs::Entries::put_suc, tables::proofs::Places::width_pos, crate::proofs::Adding::where_none, crate::proofs::Adding::where_more, crate::proofs::Adding::where_fits))]

ghost use Rattle.std.specs.Prelude.{◌≡◌, ◌≤◌, ◌<◌, length};
ghost use Rattle.lists.specs.Entries.{put};
ghost use Rattle.tables.specs.Shape.{tables_now};
ghost use Rattle.columns.specs.Columns.{rows_of, entry_of, sum_of, sum_in, SumFits, Summable};

use tables::columns::{Column, entry};
use tables::{TABLES, Table};

/// How many rows a table has.
pub fn rows_of<'a>(tables: [&'a [u64]; TABLES], table: Table) -> usize
    ensures { result ≡ rows_of (tables_now tables.entry) table }
{
    let words = tables::words_of(tables, table);
    tables::rows_in(table, words.len())
}

/// The entry of row `i` in a column of a table.
pub fn entry_of<'a>(tables: [&'a [u64]; TABLES], column: Column, i: usize) -> u64
    requires { i < rows_of (tables_now tables) column.table }
    ensures { result ≡ entry_of (tables_now tables.entry) column.table column.index i }
{
    entry(column, tables::words_of(tables, column.table), i)
}

/// Writes a column of a table to the first words of `out`.
pub fn copy<'a>(tables: [&'a [u64]; TABLES], column: Column, out: &mut [u64])
    requires { rows_of (tables_now tables) column.table ≤ length out.old }
    ensures { out.new ≡ put (rows_of (tables_now tables.entry) column.table) (entry_of (tables_now tables.entry) column.table column.index) out.old }
{
    let count = rows_of(tables, column.table);
    for i in 0..count {
        out[i] = entry_of(tables, column, i);
    }
}

/// A column of the rows that begin with a number, added up.
pub fn sum_of<'a>(tables: [&'a [u64]; TABLES], column: Column, number: u64) -> u64
    requires { SumFits (rows_of (tables_now tables) column.table) (entry_of (tables_now tables) column.table column.index) }
    ensures { result ≡ sum_of (tables_now tables.entry) column.table column.index number }
{
    let table = column.table;
    let numbers = Column { table, index: 0 };
    let words = tables::words_of(tables, table);
    let count = tables::rows_in(table, words.len());
    let mut sum = 0;
    for i in 0..count {
        if entry(numbers, words, i) == number {
            sum += entry(column, words, i);
        }
    }
    sum
}

/// That sum for the number of each row of another table, written to the first words of `out`.
pub fn sums_of<'a>(tables: [&'a [u64]; TABLES], column: Column, named: Table, out: &mut [u64])
    requires column_fits { SumFits (rows_of (tables_now tables) column.table) (entry_of (tables_now tables) column.table column.index) }
    requires room_for_rows { rows_of (tables_now tables) named ≤ length out.old }
    ensures { out.new ≡ put (rows_of (tables_now tables.entry) named) (λ i. sum_of (tables_now tables.entry) column.table column.index (entry_of (tables_now tables.entry) named 0 i)) out.old }
{
    let numbers = Column {
        table: named,
        index: 0,
    };
    let count = rows_of(tables, named);
    for i in 0..count {
        out[i] = sum_of(tables, column, entry_of(tables, numbers, i));
    }
}

/// The values, one for each row of a table, of the rows that have a number in a column, added up. It has `sum_of`'s loop once more: one
/// function for both takes the values as a closure, and its contract, with a ghost value for them, is longer than the loop.
pub fn sum_in<'a>(tables: [&'a [u64]; TABLES], column: Column, values: &[u64], number: u64) -> u64
    requires { Summable (rows_of (tables_now tables) column.table) values.now }
    ensures { result ≡ sum_in (tables_now tables.entry) column.table column.index values.now number }
{
    let words = tables::words_of(tables, column.table);
    let count = tables::rows_in(column.table, words.len());
    let mut sum = 0;
    for i in 0..count {
        if entry(column, words, i) == number {
            sum += values[i];
        }
    }
    sum
}

/// That sum for the number of each row of another table, written to the first words of `out`, by a loop of its own for the same reason.
pub fn sums_in<'a>(
    tables: [&'a [u64]; TABLES],
    column: Column,
    values: &[u64],
    named: Table,
    out: &mut [u64],
)
    requires column_fits { Summable (rows_of (tables_now tables) column.table) values.now }
    requires room_for_rows { rows_of (tables_now tables) named ≤ length out.old }
    ensures { out.new ≡ put (rows_of (tables_now tables.entry) named) (λ i. sum_in (tables_now tables.entry) column.table column.index values.now (entry_of (tables_now tables.entry) named 0 i)) out.old }
{
    let numbers = Column {
        table: named,
        index: 0,
    };
    let count = rows_of(tables, named);
    for i in 0..count {
        out[i] = sum_in(tables, column, values, entry_of(tables, numbers, i));
    }
}
