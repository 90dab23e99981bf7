//! Writing a month file: `write` puts a month's head and tables together as a file's bytes. It knows the file's form alone and judges no
//! range. The text is measured before a byte is written, so that a refusal changes nothing. `specs/Calls.antt` has what `write`
//! answers and leaves, and `specs/Steps.antt` what its parts say among themselves.
#![tactic(auto)]

ghost use Rattle.tables.specs.Shape.{tables_now};
ghost use Rattle.filewrite.specs.Calls.{Writes, written_of};

use answer::{Part, Refusal, Refused};
use tables::{Head, TABLES};

mod put;
mod rows;

/// Writes a month file to the front of `out`. COUNT where a table is not whole rows or has more than it may, naming the first;
/// then ROOM where `out` is too short for the text. Accepted: the text's length. Refused: `out` is unchanged.
pub fn write<'a>(head: Head, tables: [&'a [u64]; TABLES], out: &mut [u8]) -> Result<usize, Refused>
    ensures { Writes head (tables_now tables.entry) out.old out.new (written_of result) }
{
    tables::counts::count_tables(tables)?;
    let room = out.len();
    let size = put::text_size(head, tables, room + 1);
    if room < size {
        return Err(Refusal::Room.at(Part::Head, 0));
    }
    Ok(put::put_text(head, tables, out))
}
