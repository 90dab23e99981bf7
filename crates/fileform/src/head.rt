//! One of a month file's first lines, by its place: its number read, measured and written with the line's own key.
ghost use Rattle.std.specs.Prelude.{◌≡◌, [], ◌∷◌, ◌+◌, ◌≤◌, ◌<◌, length, drop};
ghost use Rattle.text.specs.Lines.{line, line_text};
ghost use Rattle.text.specs.Places.{PutAt, Sized};
ghost use Rattle.fileform.specs.Form.{head_count, head_key};
ghost use Rattle.fileform.specs.Calls.{OneTaken};

use crate::keys;
use tables::HEADS;
use text::number::Number;

// The keys of the first lines, by place.
const KEYS: [&[u8]; HEADS] = [
    keys::MONTH,
    keys::DAYS,
    keys::NONZONE,
    keys::DAILY,
    keys::WEEKLY,
    keys::MONTHLY,
    keys::WEEKDAY,
];

// The key of the line at a place.
fn head_key(place: usize) -> &'static [u8]
    requires { place < head_count }
    ensures { result.now ≡ head_key place }
{
    KEYS[place]
}

/// The one number of a line with a key at `at`, and the offset behind the line, if it fits.
pub fn one_number(text: &[u8], at: usize, key: &[u8]) -> Option<Number>
    ensures { OneTaken text.now (line key.now 1 (drop at text.now)) result }
{
    text::reader::next_line(text, at, key, 1)?;
    let mut words = [0];
    let next = text::reader::take_next_line(text, at, key, 1, &mut words, 0);
    Some(Number {
        value: words[0],
        next,
    })
}

/// The same of the first line at a place, which has its own key.
pub fn take_head(text: &[u8], at: usize, place: usize) -> Option<Number>
    requires { place < head_count }
    ensures { OneTaken text.now (line (head_key place) 1 (drop at text.now)) result }
{
    one_number(text, at, head_key(place))
}

/// Adds the bytes of the first line at a place, with its number, to a size, up to the cap.
pub fn head_size(place: usize, number: u64, before: usize, cap: usize) -> usize
    requires { place < head_count }
    ensures { Sized before (line_text (head_key place) (number ∷ [])) cap result }
{
    text::line::line_size(head_key(place), &[number], before, cap)
}

/// Writes the first line at a place, with its number, at `at`, and answers the place behind it.
pub fn put_head(place: usize, number: u64, out: &mut [u8], at: usize) -> usize
    requires { (place < head_count) × (at + length (line_text (head_key place) (number ∷ [])) ≤ length out.old) }
    ensures { PutAt out.old at (line_text (head_key place) (number ∷ [])) result out.new }
{
    text::line::put_line(head_key(place), &[number], out, at)
}
