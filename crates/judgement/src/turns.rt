//! The looks in turn behind COUNT: ROOM, the head behind its month, and the tables row by row.
ghost use Rattle.std.specs.Prelude.{◌≡◌, false, ◌*◌, ◌<◌};
ghost use Rattle.answer.specs.Numbers as numbers;
ghost use Rattle.answer.specs.Numbers.{part_number};
ghost use Rattle.answer.specs.Results.{Answers};
ghost use Rattle.answer.specs.Turns.{◌then◌};
ghost use Rattle.tables.specs.declared.Table.TheVariants.{Owners, Accounts};
ghost use Rattle.tables.specs.Shape.{charge_width, credit_width, rows, tables_now, words_of};
ghost use Rattle.tables.specs.Counts.{tables_in_turn, room_for};
ghost use Rattle.judgement.specs.Judgement.{head_outside, head_looked, rows_judged};

use answer::{Part, Refusal, Refused, placed};
use month::Month;
use tables::{CHARGE_WIDTH, CREDIT_WIDTH, Head, LAST_WEEKDAY, MOST_RATE, TABLES, Table};

// How many rows one of the tables has. `columns` has the like, but the judgement does not stand on that crate.
fn rows_of<'a>(tables: [&'a [u64]; TABLES], table: Table) -> usize
    ensures { result ≡ rows table (words_of (tables_now tables.entry) table) }
{
    tables::rows_in(table, tables::words_of(tables, table).len())
}

// ROOM: a lent output with places for fewer rows than there are.
#[tactic(auto, using(crate::proofs::Turning::places), unfolding(tables::specs::Counts::room_for, answer::specs::Turns::refuse))]
fn judge_output(part: Part, width: usize, count: usize, lent: usize) -> Result<(), Refused>
    requires { 0 < width }
    ensures { Answers result (room_for (part_number part) (count * width) lent) }
{
    if lent / width < count {
        return Err(Refusal::Room.at(part, 0));
    }
    Ok(())
}

/// ROOM for every account's charges, then for every owner's credits.
pub fn judge_room<'a>(
    tables: [&'a [u64]; TABLES],
    charges: usize,
    credits: usize,
) -> Result<(), Refused>
    ensures { Answers result (room_for numbers.CHARGES (rows Accounts (words_of (tables_now tables.entry) Accounts) * charge_width) charges then room_for numbers.CREDITS (rows Owners (words_of (tables_now tables.entry) Owners) * credit_width) credits) }
{
    let accounts = rows_of(tables, Table::Accounts);
    let owners = rows_of(tables, Table::Owners);
    judge_output(Part::Charges, CHARGE_WIDTH, accounts, charges)?;
    judge_output(Part::Credits, CREDIT_WIDTH, owners, credits)
}

// A number of the head is outside its range: the non-zone rate, the rates of firm service, the weekday of day 1.
#[tactic(auto, unfolding(crate::specs::Judgement::head_outside))]
fn head_outside(head: Head) -> bool
    ensures { result ≡ head_outside head }
{
    rows::outside(0, MOST_RATE, head.nonzone)
        || rows::outside(0, MOST_RATE, head.daily)
        || rows::outside(0, MOST_RATE, head.weekly)
        || rows::outside(0, MOST_RATE, head.monthly)
        || rows::outside(1, LAST_WEEKDAY, head.weekday)
}

/// RANGE of the head's numbers other than its month.
#[tactic(auto, unfolding(crate::specs::Judgement::head_looked, answer::specs::Turns::refuse))]
pub fn judge_head(head: Head) -> Result<(), Refused>
    ensures { Answers result (head_looked false head) }
{
    if head_outside(head) {
        return Err(Refusal::Range.at(Part::Head, 0));
    }
    Ok(())
}

// A table row by row.
fn judge_rows<'a>(table: Table, month: Month, tables: [&'a [u64]; TABLES]) -> Result<(), Refused>
    ensures { Answers result (rows_judged month.days (tables_now tables.entry) table) }
{
    let n = rows_of(tables, table);
    for i in 0..n {
        let outcome = rows::row(table, month, tables, i);
        placed(outcome, tables::part(table), i as u64)?;
    }
    Ok(())
}

/// Every table row by row, in the order of their numbers.
pub fn judge_tables<'a>(month: Month, tables: [&'a [u64]; TABLES]) -> Result<(), Refused>
    ensures { Answers result (tables_in_turn (rows_judged month.days (tables_now tables.entry))) }
{
    for k in 0..TABLES {
        judge_rows(tables::table_at(k), month, tables)?;
    }
    Ok(())
}
