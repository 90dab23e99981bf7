//! COUNT: whether each table is whole rows, and no more of them than it may have.
ghost use Rattle.answer.specs.Results.{Answers};
ghost use Rattle.tables.specs.Shape.{tables_now};
ghost use Rattle.tables.specs.Counts.{counted, counts_in_turn};

use crate::{TABLES, Table};
use answer::{Refusal, Refused};

// COUNT: a table that is not whole rows, or has more than it may.
#[tactic(auto, unfolding(crate::specs::Counts::counted, answer::specs::Turns::refuse))]
fn judge_count(table: Table, words: usize) -> Result<(), Refused>
    ensures { Answers result (counted table words) }
{
    let torn = words % crate::width(table) != 0;
    let over = crate::limit(table) < crate::rows_in(table, words);
    if torn || over {
        return Err(Refusal::Count.at(crate::part(table), 0));
    }
    Ok(())
}

/// COUNT for every table in turn.
pub fn count_tables<'a>(tables: [&'a [u64]; TABLES]) -> Result<(), Refused>
    ensures { Answers result (counts_in_turn (tables_now tables.entry)) }
{
    for k in 0..TABLES {
        judge_count(crate::table_at(k), tables[k].len())?;
    }
    Ok(())
}
