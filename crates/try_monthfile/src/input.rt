//! The cases that the program's input has, one after the other: a line with the name, a line with the kind of case and its numbers, so
//! many bytes, and a line feed. The first number is how many bytes there are. `bent=` has from where to before where they stand in
//! place of case S's own: the head's lines missing, cut off, out of place or misspelt; the rows' commas and fields; needless zeros,
//! 2^64, signs; rows behind those of a later table; another number in the last line, and bytes behind it. The other kinds have one
//! number more and then how many words each table has. `zeros=` has the place from which on the bytes stand in the text of tables that
//! are all 0: as many rows as there may be, and one more. `lent=` reads the bytes as a text into such tables, of which so many words
//! are looked at: tables that are too short. `write=` has how many bytes are lent for the text of tables that are all 0: tables that
//! are not whole rows, or have a row too many.
ghost use Rattle.std.specs.Prelude.{◌≤◌, ◌<◌, length, IfOk, IfSome};

use crate::{case, marks, writes};
use std::io;
use tables::TABLES;
use text::reader::{next_line, take_next_line};

// How many numbers a case begins with: one for each table, and two more.
const NUMBERS: usize = TABLES + 2;

// The kinds of case.
#[derive(Clone, Copy)]
enum Kind {
    Bent,
    Zeros,
    Lent,
    Write,
}

const KINDS: [Kind; 4] = [Kind::Bent, Kind::Zeros, Kind::Lent, Kind::Write];

impl Kind {
    fn key(self) -> &'static [u8] {
        match self {
            Kind::Bent => b"bent",
            Kind::Zeros => b"zeros",
            Kind::Lent => b"lent",
            Kind::Write => b"write",
        }
    }

    // How many numbers a case of the kind begins with.
    fn width(self) -> usize
        ensures { result ≤ 9 }
    {
        match self {
            Kind::Bent => 3,
            _ => NUMBERS,
        }
    }

    // How many bytes the case has behind its numbers; a write has none.
    fn size(self, first: u64) -> usize {
        match self {
            Kind::Write => 0,
            _ => first as usize,
        }
    }
}

// The numbers of the line with a key at `at`, as many as are lent, and the place behind the line; none where it is not there.
fn take(cases: &[u8], at: usize, key: &[u8], numbers: &mut [u64]) -> Option<usize>
    ensures { IfSome result (λ next. next ≤ length cases.now) }
{
    let width = numbers.len();
    let next = next_line(cases, at, key, width)?;
    take_next_line(cases, at, key, width, numbers, 0);
    Some(next)
}

// Runs a case of a kind, with its name, its numbers and its bytes.
fn run_case(
    rt: &HostRuntime,
    kind: Kind,
    name: &[u8],
    numbers: [usize; NUMBERS],
    piece: &[u8],
) -> io::Result<()> {
    let [
        _,
        number,
        zones,
        owners,
        units,
        accounts,
        loads,
        reservations,
        firm,
    ] = numbers;
    let sizes = [zones, owners, units, accounts, loads, reservations, firm];
    match kind {
        Kind::Bent => case::bent(rt, name, number, numbers[2], piece),
        Kind::Zeros => writes::read_zeros(rt, name, sizes, number, piece),
        Kind::Lent => case::read_into(rt, name, piece, sizes, number),
        Kind::Write => writes::write_zeros(rt, name, sizes, number),
    }
}

// The case at `from`, and the place behind it; the next byte's place where no kind of case stands there.
fn show(rt: &HostRuntime, cases: &[u8], from: usize) -> io::Result<usize>
    requires { from < length cases.now }
    ensures { IfOk result (λ next. from < next) }
{
    let end = from + memchr::memchr(b'\n', &cases[from..]).unwrap_or(cases.len() - from);
    for kind in KINDS {
        let mut numbers = [0u64; NUMBERS];
        let line = take(cases, end + 1, kind.key(), &mut numbers[..kind.width()]);
        if let Some(next) = line {
            let piece = marks::part(cases, next, kind.size(numbers[0]));
            let numbers = numbers.map(|number| number as usize);
            run_case(rt, kind, &cases[from..end], numbers, piece)?;
            return Ok((next + piece.len() + 1).max(from + 1));
        }
    }
    Ok(from + 1)
}

pub(crate) fn run(rt: &HostRuntime, cases: &[u8]) -> io::Result<()> {
    let mut at = 0;
    // each case is as long as it is: no index is counted
    while at < cases.len() {
        at = show(rt, cases, at)?;
    }
    Ok(())
}
