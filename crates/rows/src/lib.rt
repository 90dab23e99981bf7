//! What is looked at in one row of a table: the first fault that is there, in the order RANGE, ORDER, LINK, PAIR, refuses it. `ranges` has
//! the ranges of each table's entries, `order` the order of its rows, `rules` the other two.
#![tactic(auto)]

ghost use Rattle.std.specs.Prelude.{◌≡◌, ◌<◌};
ghost use Rattle.answer.specs.Results.{Says};
ghost use Rattle.tables.specs.Shape.{rows, tables_now, words_of};
ghost use Rattle.rows.specs.Rows.{outside, row_of};

use answer::Refusal;
use month::Month;
use tables::{TABLES, Table};

mod order;
mod ranges;
mod rules;

/// Looks at row `i` of a table, in its month; the row's entries may name rows of other tables.
#[tactic(auto, unfolding(crate::specs::Rows::row_of, crate::specs::Rows::row_number))]
pub fn row<'a>(
    table: Table,
    month: Month,
    tables: [&'a [u64]; TABLES],
    i: usize,
) -> Result<(), Refusal>
    requires { i < rows table (words_of (tables_now tables) table) }
    ensures { Says result (row_of month.days (tables_now tables.entry) table i) }
{
    let words = tables::words_of(tables, table);
    if ranges::row_outside(table, month, words, i) {
        return Err(Refusal::Range);
    }
    if order::row_not_above(table, words, i) {
        return Err(Refusal::Order);
    }
    if rules::row_unlinked(table, tables, i) {
        return Err(Refusal::Link);
    }
    if rules::row_taken(table, words, i) {
        return Err(Refusal::Pair);
    }
    Ok(())
}

/// An entry is outside its range.
pub fn outside(low: u64, high: u64, x: u64) -> bool
    ensures { result ≡ outside low high x }
{
    !(low..=high).contains(&x)
}
