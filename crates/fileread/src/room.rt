//! ROOM: whether each table is lent at full size.
ghost use Rattle.answer.specs.Results.{Answers};
ghost use Rattle.fileread.specs.Calls.{full_size};
ghost use Rattle.fileread.specs.Steps.{rooms_in_turn};

use answer::{Refusal, Refused};
use tables::{TABLES, Table};

// ROOM for a table that is lent below its full size.
fn room_of(table: Table, lent: usize) -> Result<(), Refused>
    ensures { Answers result (full_size table lent) }
{
    if lent < tables::limit(table) * tables::width(table) {
        return Err(Refusal::Room.at(tables::part(table), 0));
    }
    Ok(())
}

/// ROOM for the first table that is lent below its full size, each with so many words, by the table's place.
pub fn judge_room(lengths: [usize; TABLES]) -> Result<(), Refused>
    ensures { Answers result (rooms_in_turn lengths) }
{
    for (k, lent) in lengths.iter().enumerate() {
        room_of(tables::table_at(k), *lent)?;
    }
    Ok(())
}
