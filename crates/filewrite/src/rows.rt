//! How many rows there are in all, which the last line says.
ghost use Rattle.std.specs.Prelude.{◌≡◌};
ghost use Rattle.tables.specs.Shape.{tables_now};
ghost use Rattle.fileform.specs.Reading.{rows_in_all};
ghost use Rattle.filewrite.specs.Calls.{all_rows};
ghost use Rattle.filewrite.specs.Steps.{RowsCounted};

use tables::{TABLES, Table};

// How many whole rows a table has.
fn rows_of(table: Table, words: &[u64]) -> u64
    ensures { RowsCounted table words.now result }
{
    tables::rows_in(table, words.len()) as u64
}

/// How many rows there are in all.
pub fn rows_in_all<'a>(tables: [&'a [u64]; TABLES]) -> u64
    ensures { result ≡ rows_in_all (all_rows (tables_now tables.entry)) }
{
    let mut rows = 0;
    for (k, words) in tables.iter().enumerate() {
        rows += rows_of(tables::table_at(k), words);
    }
    rows
}
