//! The first walk over a text: every line is judged, the rows are counted, and the numbers of the first lines taken.
ghost use Rattle.std.specs.Prelude.{◌≡◌, ◌^◌, ◌<◌, ◌≤◌, length, drop, sum};
ghost use Rattle.answer.specs.Numbers as numbers;
ghost use Rattle.answer.specs.Turns.{refusal};
ghost use Rattle.answer.specs.Results.{refused_answer};
ghost use Rattle.tables.specs.Shape.{table_count};
ghost use Rattle.fileform.specs.Form.{head_count, month_form};
ghost use Rattle.fileform.specs.Reading.{head_lines, table_lines};
ghost use Rattle.fileread.specs.Calls.{counts_of};
ghost use Rattle.fileread.specs.Steps.{Walked, LinesJudged, Ended};

use crate::Held;
use answer::{Part, Refusal, Refused};
use fileform::{head, keys, table};
use tables::{HEADS, Head, TABLES};

// A text that doesn't fit at an offset.
fn unfit(at: usize) -> Refused
    ensures { refused_answer result ≡ refusal numbers.TEXT numbers.HEAD at }
{
    Refusal::Text.at(Part::Head, at as u64)
}

// The first lines in turn, each one's number stored at its place, and the offset behind them: one reader steps over `month` and `days`,
// and the others follow by their place.
fn judge_heads(text: &[u8], head: &mut [u64]) -> Result<usize, Refused>
    requires { length head.old ≡ head_count }
    ensures { Walked text.now (head_lines (length text.now) month_form.heads text.now) (λ ns. ns) head.old result head.new }
{
    let ends = text::reader::next_two_lines(text, 0, keys::MONTH, keys::DAYS, 1);
    let month = ends.first;
    let days = ends.second;
    // a reader stays where the line doesn't fit
    if month == 0 {
        return Err(unfit(0));
    }
    if days == month {
        return Err(unfit(month));
    }
    text::reader::take_next_line(text, 0, keys::MONTH, 1, head, 0);
    text::reader::take_next_line(text, month, keys::DAYS, 1, head, 1);
    let mut i = days;
    for k in 2..HEADS {
        let number = head::take_head(text, i, k).ok_or(unfit(i))?;
        head[k] = number.value;
        i = number.next;
    }
    Ok(i)
}

// The tables in turn, from `at` on, and the offset behind them; the number of each one's rows is stored in `counts`.
fn judge_tables(text: &[u8], at: usize, counts: &mut [usize]) -> Result<usize, Refused>
    requires { (at ≤ length text.now) × (length counts.old ≡ table_count) }
    ensures { Walked text.now (table_lines month_form.kinds (drop at text.now)) counts_of counts.old result counts.new }
{
    let mut i = at;
    for k in 0..TABLES {
        let table = tables::table_at(k);
        let limit = tables::limit(table);
        let counted = table::count_table(text, i, table);
        if limit < counted.count {
            return Err(Refusal::Count.at(tables::part(table), limit as u64));
        }
        counts[k] = counted.count;
        i = counted.next;
    }
    Ok(i)
}

// How many rows there are in all, of tables that have so many each.
fn rows_in_all(counts: &[usize]) -> u64
    requires { sum counts.now < 2 ^ 64 }
    ensures { result ≡ sum counts.now }
{
    counts.iter().sum::<usize>() as u64
}

/// What the first walk finds in front of the last line: what the text holds, and where the tables and the last line begin.
#[derive(Clone, Copy)]
pub struct FirstWalk {
    pub held: Held,
    pub body: usize,
    pub last: usize,
}

/// Judges every line in front of the last.
#[tactic(auto, using(crate::proofs::Judging::judged_heads, crate::proofs::Judging::judged_tables, crate::proofs::Judging::lines_read))]
pub fn judge_lines(text: &[u8]) -> Result<FirstWalk, Refused>
    ensures { LinesJudged text.now result }
{
    let mut head = [0u64; HEADS];
    let mut counts = [0usize; TABLES];
    let body = judge_heads(text, &mut head)?;
    let last = judge_tables(text, body, &mut counts)?;
    let head = Head::from(head);
    Ok(FirstWalk {
        held: Held { head, counts },
        body,
        last,
    })
}

/// The last line, with the number of rows in all, and nothing behind it.
pub fn judge_end(text: &[u8], at: usize, counts: &[usize]) -> Result<(), Refused>
    requires { (at ≤ length text.now) × (sum counts.now < 2 ^ 64) }
    ensures { Ended month_form.last text.now (drop at text.now) (sum counts.now) result }
{
    let total = rows_in_all(counts);
    let number = head::one_number(text, at, keys::END).ok_or(unfit(at))?;
    if number.value != total {
        return Err(unfit(at));
    }
    if number.next < text.len() {
        return Err(unfit(number.next));
    }
    Ok(())
}
