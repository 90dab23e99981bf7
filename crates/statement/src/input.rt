//! Reading to the end.
ghost use Rattle.std.specs.Prelude.{◌≤◌, length, IfOk};

use std::io::{self, Read};

/// Reads until `text` is full or the input ends, and answers how many bytes there are.
pub fn read_all<R: Read>(from: &mut R, text: &mut [u8]) -> io::Result<usize>
    ensures { IfOk result (λ count. count ≤ length text.new) }
{
    let mut count = 0;
    // a read gives as much as it likes: no index is counted
    while count < text.len() {
        match from.read(&mut text[count..])? {
            0 => return Ok(count),
            more => count += more,
        }
    }
    Ok(count)
}
