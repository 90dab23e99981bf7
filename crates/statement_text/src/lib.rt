//! The statement of a month: the file's bytes are read, the month is settled, and every account's charges, every owner's credits and
//! both totals are written as lines of text, or the one line of the first refusal. `specs/Statement.antt` has the statement of a
//! text, `proofs/Promises.antt` what follows from it.
#![tactic(auto)]

ghost use Rattle.std.specs.Prelude.{◌≡◌, ◌*◌, ◌≤◌, length, take};
ghost use Rattle.tables.specs.Shape.{width, tables_now};
ghost use Rattle.pool.specs.Input.{month_of};
ghost use Rattle.statement_text.specs.Statement.{settled_text, statement_of};
ghost use Rattle.statement_text.specs.Calls.{Shows, shown_of, FileStated};

use answer::{Answer, Part, Refusal, Refused};
use statement_lines::{show_month, show_refusal};
use tables::{Head, TABLES, Table};

/// The most bytes that a month file may have.
pub const MOST_BYTES: usize = 65_536;

/// The bytes to ask for: one more, so that a file with too many is seen to have them.
pub const MOST_ASKED: usize = MOST_BYTES + 1;

/// The most bytes that a statement has.
pub const MOST_SHOWN: usize = 12_144;

// The statement of a month, from its head and tables: it is settled in working memory, and its lines are written, or the line of its
// refusal.
fn state_month<'a>(
    head: Head,
    tables: [&'a [u64]; TABLES],
    out: &mut [u8],
) -> Result<usize, Refused>
    ensures { Shows (settled_text (month_of head (tables_now tables.entry))) out.old out.new (shown_of result) }
{
    // no heap here: an array of the most there can be
    let mut charges = [0u64; tables::MOST_ACCOUNTS * tables::CHARGE_WIDTH];
    let mut credits = [0u64; tables::MOST_OWNERS * tables::CREDIT_WIDTH];
    match settlement::settle(head, tables, &mut charges, &mut credits) {
        Ok(()) => show_month(
            tables::words_of(tables, Table::Accounts),
            &charges,
            tables::words_of(tables, Table::Owners),
            &credits,
            out,
        ),
        Err(refused) => show_refusal(Answer::from(refused), out),
    }
}

// The first rows of a table, so many.
fn front<'a>(table: Table, count: usize, words: &'a [u64]) -> &'a [u64]
    requires { count * width table ≤ length words.now }
    ensures { result.now ≡ take (count * width table) words.now }
{
    &words[..count * tables::width(table)]
}

/// Writes the statement of a month file to the front of `out`: a line of charges for each account, a line of credits for each owner
/// and the totals where the month is accepted; the one line of the refusal where it is not, and where the file has too many
/// bytes. What is answered is its length, or ROOM where `out` is too short for the statement: then `out` is unchanged.
/// There is no heap here: each table is lent at full size, with the count of its rows beside it.
pub fn statement(text: &[u8], out: &mut [u8]) -> Result<usize, Refused>
    ensures { Shows (statement_of text.now) out.old out.new (shown_of result) }
{
    if MOST_BYTES < text.len() {
        let long = Refusal::Count.at(Part::Head, 0);
        return show_refusal(Answer::from(long), out);
    }
    let mut zones = [0u64; tables::MOST_ZONES * tables::ZONE_WIDTH];
    let mut owners = [0u64; tables::MOST_OWNERS * tables::OWNER_WIDTH];
    let mut units = [0u64; tables::MOST_UNITS * tables::UNIT_WIDTH];
    let mut accounts = [0u64; tables::MOST_ACCOUNTS * tables::ACCOUNT_WIDTH];
    let mut loads = [0u64; tables::MOST_LOADS * tables::LOAD_WIDTH];
    let mut reservations = [0u64; tables::MOST_RESERVATIONS * tables::RESERVATION_WIDTH];
    let mut firm = [0u64; tables::MOST_FIRM * tables::FIRM_WIDTH];
    let read = fileread::read(
        text,
        &mut zones,
        &mut owners,
        &mut units,
        &mut accounts,
        &mut loads,
        &mut reservations,
        &mut firm,
    );
    match read {
        Ok(held) => state_month(
            held.head,
            [
                front(Table::Zones, held.counts[0], &zones),
                front(Table::Owners, held.counts[1], &owners),
                front(Table::Units, held.counts[2], &units),
                front(Table::Accounts, held.counts[3], &accounts),
                front(Table::Loads, held.counts[4], &loads),
                front(Table::Reservations, held.counts[5], &reservations),
                front(Table::Firm, held.counts[6], &firm),
            ],
            out,
        ),
        Err(refused) => show_refusal(Answer::from(refused), out),
    }
}

/// Writes the statement of the file that stands in the first `count` bytes of `text` to the front of `out`, and answers its length.
/// `text` holds a byte more than a file may have, and `out` any statement: nothing is refused for want of room.
pub fn state_file(text: &[u8; MOST_ASKED], count: usize, out: &mut [u8; MOST_SHOWN]) -> usize
    ensures { FileStated text.now count out.old out.new result }
{
    statement(&text[..count.min(MOST_ASKED)], out).unwrap()
}
