//! Lines of key=value, each ended by one line feed, with fields that commas join.
ghost use Rattle.std.specs.Prelude.{◌≡◌, ◌≢◌, ◌+◌, ◌≤◌, ◌<◌, length, drop};
ghost use Rattle.text.specs.Numbers.{missing};
ghost use Rattle.text.specs.Lines.{separator, field, fields, line, fields_text, line_text};
ghost use Rattle.text.specs.Places.{NumberAt, LineAt, EndAt, KeyAt, PutAt, Sized, FieldsTaken};

use crate::number::{self, Number};

const EQUALS: u8 = b'=';

const COMMA: u8 = b',';

const LINE_FEED: u8 = b'\n';

// What stands behind a field where so many more follow.
fn separator(following: usize) -> u8
    ensures { result ≡ separator following }
{
    match following {
        0 => LINE_FEED,
        _ => COMMA,
    }
}

/// The field at `at` with what stands behind it, where so many more follow.
#[tactic(auto, using(crate::proofs::Lines::field_of_missing, crate::proofs::Places::field_cut, crate::proofs::Places::field_other, crate::proofs::Places::field_there))]
pub fn field_at(text: &[u8], at: usize, following: usize) -> Option<Number>
    ensures { NumberAt text.now (field following (drop at text.now)) result }
{
    let read = number::number_at(text, at)?;
    let behind = *text.get(read.next)?;
    if behind != separator(following) {
        return None;
    }
    Some(Number {
        value: read.value,
        next: read.next + 1,
    })
}

// The offset behind so many fields, if they fit.
#[tactic(auto, using(crate::proofs::Places::fields_next))]
fn fields_at(text: &[u8], at: usize, width: usize) -> Option<usize>
    requires { at ≤ length text.now }
    ensures { LineAt text.now (fields width (drop at text.now)) result }
{
    let mut i = at;
    for following in (0..width).rev() {
        i = field_at(text, i, following)?.next;
    }
    Some(i)
}

// The offset behind a key and its equals sign, if they stand at `at`.
fn key_at(text: &[u8], at: usize, key: &[u8]) -> Option<usize>
    ensures { KeyAt key.now text.now (drop at text.now) result }
{
    let behind = text.get(at..)?.strip_prefix(key)?;
    if *behind.first()? != EQUALS {
        return None;
    }
    Some(at + key.len() + 1)
}

/// The offset behind the line at `at`, if a line with that key and so many fields stands there.
#[tactic(auto, using(crate::proofs::Places::line_unkeyed, crate::proofs::Places::line_keyed))]
pub fn line_at(text: &[u8], at: usize, key: &[u8], width: usize) -> Option<usize>
    ensures { LineAt text.now (line key.now width (drop at text.now)) result }
{
    fields_at(text, key_at(text, at, key)?, width)
}

/// The offset behind the line at `at`, `at` itself where no line with that key and so many fields stands there.
#[tactic(auto, using(crate::proofs::Readers::end_is))]
pub fn line_end(text: &[u8], at: usize, key: &[u8], width: usize) -> usize
    ensures { EndAt text.now at (line key.now width (drop at text.now)) result }
{
    line_at(text, at, key, width).unwrap_or(at)
}

// Stores the fields at `at` in `words` from `place` on, and answers the offset behind them.
#[tactic(auto, using(crate::proofs::Places::number_there, crate::proofs::Places::taken_found, crate::proofs::Places::taken_there, crate::proofs::Places::taken_rest, crate::proofs::Places::taken_stored))]
fn take_fields(text: &[u8], at: usize, width: usize, words: &mut [u64], place: usize) -> usize
    requires { (at ≤ length text.now) × (fields width (drop at text.now) ≢ missing) × (place + width ≤ length words.old) }
    ensures { FieldsTaken text.now (fields width (drop at text.now)) words.old place result words.new }
{
    let mut i = at;
    for k in 0..width {
        let field = field_at(text, i, width - (k + 1)).unwrap();
        words[place + k] = field.value;
        i = field.next;
    }
    i
}

// Stores the fields of the line at `at`, which is known to be there, in `words` from `place` on, and answers the offset behind it.
#[tactic(auto, using(crate::proofs::Places::keyed))]
pub(crate) fn take_line(
    text: &[u8],
    at: usize,
    key: &[u8],
    width: usize,
    words: &mut [u64],
    place: usize,
) -> usize
    requires { (line key.now width (drop at text.now) ≢ missing) × (place + width ≤ length words.old) }
    ensures { FieldsTaken text.now (line key.now width (drop at text.now)) words.old place result words.new }
{
    take_fields(text, at + key.len() + 1, width, words, place)
}

// Adds the bytes of fields to a size, up to the cap.
// `put_fields` walks them again: a walk for both would hold the lent bytes in a struct, and beside a `&mut` stands no ghost field.
#[tactic(auto, using(crate::proofs::Pieces::length_next, crate::proofs::Pieces::text_done, crate::proofs::Numbers::length_decimal))]
fn fields_size(fields: &[u64], before: usize, cap: usize) -> usize
    requires { before ≤ cap }
    ensures { Sized before (fields_text fields.now) cap result }
{
    let mut size = before;
    for field in fields {
        size = number::add_capped(size, number::number_size(*field) + 1, cap);
    }
    size
}

/// Adds the bytes of a line with a key and its fields to a size, up to the cap.
#[tactic(auto, using(crate::proofs::Pieces::length_key))]
pub fn line_size(key: &[u8], fields: &[u64], before: usize, cap: usize) -> usize
    ensures { Sized before (line_text key.now fields.now) cap result }
{
    let size = number::add_capped(before, key.len() + 1, cap);
    fields_size(fields, size, cap)
}

/// Writes bytes at `at`, and answers the place behind them. Byte by byte: of `copy_from_slice` the compiler makes a call of `memmove`, which
/// the archive would then need from outside.
pub fn put_bytes(bytes: &[u8], out: &mut [u8], at: usize) -> usize
    requires { at + length bytes.now ≤ length out.old }
    ensures { PutAt out.old at bytes.now result out.new }
{
    for (k, &byte) in bytes.iter().enumerate() {
        out[at + k] = byte;
    }
    at + bytes.len()
}

// Writes fields at `at`, each with what stands behind it, and answers the place behind them.
#[tactic(auto, using(crate::proofs::Pieces::length_next))]
fn put_fields(fields: &[u64], out: &mut [u8], at: usize) -> usize
    requires { at + length (fields_text fields.now) ≤ length out.old }
    ensures { PutAt out.old at (fields_text fields.now) result out.new }
{
    let mut i = at;
    for (k, field) in fields.iter().enumerate() {
        i = number::put_number(*field, out, i);
        out[i] = separator(fields.len() - (k + 1));
        i += 1;
    }
    i
}

/// Writes the line of a key and its fields at `at`, and answers the place behind it.
#[tactic(auto, using(crate::proofs::Pieces::length_key))]
pub fn put_line(key: &[u8], fields: &[u64], out: &mut [u8], at: usize) -> usize
    requires { at + length (line_text key.now fields.now) ≤ length out.old }
    ensures { PutAt out.old at (line_text key.now fields.now) result out.new }
{
    let i = put_bytes(key, out, at);
    out[i] = EQUALS;
    put_fields(fields, out, i + 1)
}
