//! The divisions and checks of the file `stdin`, a line each: a name, the pot, the weights, and behind `into` the words that are lent
//! for the shares, or behind `with` the amounts to check. A list is numbers joined by commas, or `nothing`. Each line is written out
//! again, and behind it what came: an answer, and for a division the words as they are then.
ghost use Rattle.std.specs.Prelude.{◌-◌, ◌≤◌, length};

use std::alloc::{AllocError, Global};
use std::fmt;
use std::io::{self, Read};
use text::number::number_at;

// How many numbers are read of a list at the most.
const MOST_NUMBERS: usize = 65;

// A list of numbers as it is written.
#[derive(Drop)]
struct Numbers(Vec<u64>);

impl fmt::Display for Numbers {
    fn fmt<W: fmt::Write>(&self, f: &mut fmt::Formatter<W>) -> fmt::Result {
        if self.0.is_empty() {
            return f.write_str("nothing");
        }
        for (i, number) in self.0.iter().enumerate() {
            if 0 < i {
                f.write_str(",")?;
            }
            write!(f, "{number}")?;
        }
        Ok(())
    }
}

// What stands behind the first such byte, nothing where there is none.
fn behind(bytes: &[u8], byte: u8) -> &[u8]
    ensures { length result.now ≤ length bytes.now - 1 }
{
    match memchr::memchr(byte, bytes) {
        Some(at) => &bytes[at + 1..],
        None => &[],
    }
}

// The numbers in front, joined by commas.
fn read_numbers(alloc: Global, bytes: &[u8]) -> Result<Numbers, AllocError> {
    let mut found = Vec::new(alloc);
    let mut at = 0;
    for _ in 0..MOST_NUMBERS {
        let Some(read) = number_at(bytes, at) else {
            break;
        };
        found.push(read.value)?;
        match bytes.get(read.next) {
            Some(b',') => at = read.next + 1,
            _ => break,
        }
    }
    Ok(Numbers(found))
}

fn divide(rt: &HostRuntime, pot: u64, weights: &Numbers, mut words: Numbers) -> io::Result<()> {
    match division::divide(pot, &weights.0, &mut words.0) {
        Ok(()) => println!(rt; "accepted, {words}"),
        Err(refusal) => println!(rt; "{refusal}, {words}"),
    }
}

fn check(rt: &HostRuntime, pot: u64, weights: &Numbers, amounts: &Numbers) -> io::Result<()> {
    match verdict::check(pot, &weights.0, &amounts.0) {
        Ok(true) => println!(rt; "yes"),
        Ok(false) => println!(rt; "no"),
        Err(refusal) => println!(rt; "{refusal}"),
    }
}

// A line: the name and a colon, the pot, `by`, the weights, `into` or `with`, the words.
fn show(rt: &HostRuntime, line: &[u8]) -> io::Result<()> {
    let pot = behind(behind(line, b':'), b' ');
    let first = behind(behind(pot, b' '), b' ');
    let sign = behind(first, b' ');
    let second = behind(sign, b' ');
    let weights = read_numbers(rt.alloc(), first)?;
    let words = read_numbers(rt.alloc(), second)?;
    let pot = number_at(pot, 0).map_or(0, |read| read.value);
    rt.write_all(line)?;
    rt.write_all(b": ")?;
    if sign.first() == Some(&b'w') {
        check(rt, pot, &weights, &words)
    } else {
        divide(rt, pot, &weights, words)
    }
}

// Every line in turn.
pub(crate) fn run(rt: &HostRuntime) -> io::Result<()> {
    let mut input = Vec::new(rt.alloc());
    rt.stdin().read_to_end(&mut input)?;
    let mut rest: &[u8] = &input;
    // line by line: what is left moves on, and no index is counted
    while !rest.is_empty() {
        let end = memchr::memchr(b'\n', rest).unwrap_or(rest.len());
        show(rt, &rest[..end])?;
        rest = behind(rest, b'\n');
    }
    Ok(())
}
