//! The judgement of a month's input: whole rows and limits, room in the lent outputs, the head, then every table row by row, until
//! the first refusal. What is not refused is a month of the calendar with its input good, and that month is the answer.
//! `specs/Good.antt` says what a good month is without any order of looking, and what is accepted is exactly that.
#![tactic(auto)]

ghost use Rattle.tables.specs.Shape.{tables_now};
ghost use Rattle.judgement.specs.Judgement.{Judges};

use answer::{Part, Refusal, Refused};
use month::Month;
use tables::counts::count_tables;
use tables::{Head, TABLES};

mod turns;

/// Judges a month's input: COUNT for tables 1 to 6 and 10, ROOM for the outputs, whose lengths in words `charges` and `credits` are,
/// MONTH, RANGE of the non-zone rate and of the head's numbers behind it, then tables 1 to 6 and 10 row by row, in a row RANGE, ORDER,
/// LINK, PAIR. The first refusal is the answer; where there is none the answer is the month of the head. Any input is judged, and
/// nothing of it is changed.
pub fn judge<'a>(
    head: Head,
    tables: [&'a [u64]; TABLES],
    charges: usize,
    credits: usize,
) -> Result<Month, Refused>
    ensures { Judges head (tables_now tables.entry) charges credits result }
{
    count_tables(tables)?;
    turns::judge_room(tables, charges, credits)?;
    let month = Month::new(head.month, head.days).ok_or(Refusal::Month.at(Part::Head, 0))?;
    turns::judge_head(head)?;
    turns::judge_tables(month, tables)?;
    Ok(month)
}
