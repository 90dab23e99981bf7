//! A reader steps from one line to the next inside the lent bytes.
ghost use Rattle.std.specs.Prelude.{◌≡◌, ◌≢◌, ◌+◌, ◌≤◌, length, drop};
ghost use Rattle.text.specs.Numbers.{missing};
ghost use Rattle.text.specs.Lines.{line};
ghost use Rattle.text.specs.Places.{LineAt, FieldsTaken};
ghost use Rattle.text.specs.Readers.{Stepped, TookOne, EndsAt, reached_of};

use crate::line;

/// A text, and where the reader stands in it.
#[derive(Clone, Copy)]
pub struct Reader<'a> {
    text: &'a [u8],
    at: usize,
}

/// A reader of a text that stands at an offset.
pub fn reader_at<'a>(text: &'a [u8], at: usize) -> Reader<'a>
    ensures { (result.text ≡ text.entry) × (result.at ≡ at) }
{
    Reader { text, at }
}

/// The reader behind the line at which it stands, or where it stood if no line with that key and so many fields stands there.
/// It answers a reader and no `Option`: that a reader stays where no line stands is `Stepped`, a promise that docs/PROMISES.md names.
pub fn step<'a, 'k>(reader: Reader<'a>, key: &'k [u8], width: usize) -> Reader<'a>
    ensures { Stepped reader.entry key.now width result }
{
    let next = line::line_end(reader.text, reader.at, key, width);
    Reader {
        text: reader.text,
        at: next,
    }
}

// The reader behind the line at which it stands, which is known to be there; its fields are stored in `words` from `place` on.
fn step_taking<'a, 'k, 'w>(
    reader: Reader<'a>,
    key: &'k [u8],
    width: usize,
    words: &'w mut [u64],
    place: usize,
) -> Reader<'a>
    requires { (line key.now width (drop reader.at reader.text.now) ≢ missing) × (place + width ≤ length words.old) }
    ensures { TookOne reader.entry key.now width words.old place result words.new }
{
    let next = line::take_line(reader.text, reader.at, key, width, words, place);
    Reader {
        text: reader.text,
        at: next,
    }
}

// The offset that a step reached, none where it left the reader where it stood.
fn reached(before: usize, after: usize) -> Option<usize>
    ensures { result ≡ reached_of before after }
{
    if after == before { None } else { Some(after) }
}

/// One step of a reader that stands at `at`: the offset behind the line, if a line with that key and so many fields stands there.
/// It has the contract of `line::line_at`, and both stand: that one is the scanner, this one the reader's step.
pub fn next_line(text: &[u8], at: usize, key: &[u8], width: usize) -> Option<usize>
    ensures { LineAt text.now (line key.now width (drop at text.now)) result }
{
    let moved = step(reader_at(text, at), key, width);
    reached(at, moved.at)
}

/// Where a reader stood after one step and after two: behind the line, or where it stood before if the line doesn't fit.
#[derive(Clone, Copy)]
pub struct Ends {
    pub first: usize,
    pub second: usize,
}

/// Two steps of one reader that stands at `at`: over a line with the first key, and from where that ended over one with the second.
pub fn next_two_lines(text: &[u8], at: usize, first: &[u8], second: &[u8], width: usize) -> Ends
    ensures { EndsAt text.now at first.now second.now width result }
{
    let once = step(reader_at(text, at), first, width);
    let twice = step(once, second, width);
    Ends {
        first: once.at,
        second: twice.at,
    }
}

/// One step of a reader that stands at `at`, at a line that is known to be there: stores its fields in `words` from `place` on, and answers
/// the offset behind it.
pub fn take_next_line(
    text: &[u8],
    at: usize,
    key: &[u8],
    width: usize,
    words: &mut [u64],
    place: usize,
) -> usize
    requires { (line key.now width (drop at text.now) ≢ missing) × (place + width ≤ length words.old) }
    ensures { FieldsTaken text.now (line key.now width (drop at text.now)) words.old place result words.new }
{
    let moved = step_taking(reader_at(text, at), key, width, words, place);
    moved.at
}
