//! Reading a month file: `read` takes a file's bytes apart into a month's head and tables. It knows the file's form alone and judges no
//! range. It walks the text twice: the first walk judges every line and counts the rows, the second stores them, so that a refused
//! file changes no lent word. `specs/Calls.antt` has what `read` answers and leaves, and `specs/Steps.antt` what its parts say among
//! themselves.
#![tactic(auto)]

ghost use Rattle.tables.specs.Shape.{tables_of};
ghost use Rattle.fileread.specs.Calls.{Reads, held_reading};

use answer::Refused;
use tables::{Head, TABLES};

mod fill;
mod judge;
mod room;

/// What an accepted file holds: the head, and each table's number of rows, by the table's place.
#[derive(Clone, Copy, Debug, PartialEq, Eq)]
pub struct Held {
    pub head: Head,
    pub counts: [usize; TABLES],
}

/// Reads a month file. ROOM where a table is lent below its full size, naming the first; then the lines in turn: TEXT where a line
/// doesn't fit, with its offset, COUNT where a table has a row too many, with its limit. Accepted: the head, each table's number of
/// rows, and those rows stored at the front of the lent tables. Refused: no lent word is changed.
/// Each table is a parameter of its own, here and in `fill`: an array of `&mut` slices gets no proof where it is handed on.
pub fn read(
    text: &[u8],
    zones: &mut [u64],
    owners: &mut [u64],
    units: &mut [u64],
    accounts: &mut [u64],
    loads: &mut [u64],
    reservations: &mut [u64],
    firm: &mut [u64],
) -> Result<Held, Refused>
    ensures { Reads text.now (tables_of zones.old owners.old units.old accounts.old loads.old reservations.old firm.old) (tables_of zones.new owners.new units.new accounts.new loads.new reservations.new firm.new) (held_reading result) }
{
    room::judge_room([
        zones.len(),
        owners.len(),
        units.len(),
        accounts.len(),
        loads.len(),
        reservations.len(),
        firm.len(),
    ])?;
    let walk = judge::judge_lines(text)?;
    judge::judge_end(text, walk.last, &walk.held.counts)?;
    let held = walk.held;
    fill::fill(
        text,
        walk.body,
        held.counts,
        zones,
        owners,
        units,
        accounts,
        loads,
        reservations,
        firm,
    );
    Ok(held)
}
