//! What a line changes, part by part, each behind a semicolon. `3=1,2,3` gives table 3 these words, `3@1,2=5` gives the entry of its
//! row 1 in column 2, both from 0, and `3*6` makes it 6 words, all 0. The parts have the numbers of an answer's tables, 0 for the head,
//! which is one row, 7 and 8 for the outputs. Each function takes what it reads off the front of a text, and answers the rest.
ghost use Rattle.std.specs.Prelude.{◌-◌, ◌≤◌, ◌<◌, length, IfOk, IfSome};

use crate::block::{self, Block};
use std::alloc::{AllocError, Global};
use text::number::number_at;

// The number that stands first, and what stands behind it.
fn first(text: &[u8]) -> Option<(u64, &[u8])>
    ensures { IfSome result (λ found. length found.1.now < length text.now) }
{
    let found = number_at(text, 0)?;
    Some((found.value, &text[found.next..]))
}

// The number that stands first, 0 where there is none, and what stands behind it.
fn number(text: &[u8]) -> (u64, &[u8])
    ensures { length result.1.now ≤ length text.now }
{
    first(text).unwrap_or((0, text))
}

// What stands behind a byte, where it stands first.
fn behind(text: &[u8], byte: u8) -> &[u8]
    ensures { length result.now ≤ length text.now }
{
    match text {
        [first, rest @ ..] if *first == byte => rest,
        _ => text,
    }
}

// What stands behind the first byte.
pub(crate) fn behind_first(text: &[u8]) -> &[u8]
    ensures { length result.now ≤ length text.now - 1 }
{
    match text {
        [_, rest @ ..] => rest,
        [] => text,
    }
}

// How many bytes the name has that stands first.
pub(crate) fn name_length(text: &[u8]) -> usize
    ensures { result ≤ length text.now }
{
    text.iter()
        .position(|byte| *byte == b';' || *byte == b'\n')
        .unwrap_or(text.len())
}

// A part's words, up to the first place that is no number. One more than a part may have is kept, so that too many are seen to be, and
// no further one.
fn take_words<'a>(text: &'a [u8], words: &mut Vec<u64>) -> Result<&'a [u8], AllocError>
    ensures { IfOk result (λ rest. length rest.now ≤ length text.entry.now) }
{
    let mut rest = text;
    // word by word: no index is counted
    while let Some((word, more)) = first(rest) {
        if words.len() <= block::MOST_WORDS {
            words.push(word)?;
        }
        rest = behind(more, b',');
    }
    Ok(rest)
}

// One entry of a table: its row, its column and what it is.
fn take_entry<'a>(text: &'a [u8], block: &mut Block, part: usize) -> &'a [u8]
    ensures { length result.now ≤ length text.entry.now }
{
    let (row, rest) = number(text);
    let (column, rest) = number(behind(rest, b','));
    let (entry, rest) = number(behind(rest, b'='));
    block.set_entry(part, row as usize, column as usize, entry);
    rest
}

// The change that stands behind the first byte.
fn change<'a>(alloc: Global, text: &'a [u8], block: &mut Block) -> Result<&'a [u8], AllocError>
    requires { 0 < length text.now }
    ensures { IfOk result (λ rest. length rest.now < length text.entry.now) }
{
    let (part, mark) = number(behind_first(text));
    let part = part as usize;
    let rest = behind_first(mark);
    match mark.first() {
        Some(b'=') => {
            let mut words = Vec::new(alloc);
            let rest = take_words(rest, &mut words)?;
            block.set_part(part, words);
            Ok(rest)
        }
        Some(b'@') => Ok(take_entry(rest, block, part)),
        Some(b'*') => {
            let (count, rest) = number(rest);
            block.set_part(part, block::zeros(alloc, count as usize)?);
            Ok(rest)
        }
        _ => Ok(rest),
    }
}

// All changes of a line from the first one on, and what stands from the line's end on.
pub(crate) fn changes<'a>(
    alloc: Global,
    text: &'a [u8],
    block: &mut Block,
) -> Result<&'a [u8], AllocError>
    ensures { IfOk result (λ rest. length rest.now ≤ length text.entry.now) }
{
    let mut rest = text;
    // what is left of the text moves on, and no index is counted
    while !matches!(rest.first(), None | Some(b'\n')) {
        rest = change(alloc, rest, block)?;
    }
    Ok(rest)
}
