//! Whole months from file to statement, run on the crate that the program `statement` calls and written out: a line with the month's
//! name, then its statement. Figure B1 for both services at once, and months of two zones that are refused at each kind of division
//! with BIG and with BASE, at the first zone and at the last. With two zones the network's divisions are places 0 and 1, that of the
//! border's charges place 2; for black start the splits are places 3 and 5, the shares 4 and 6, the non-zone pot 7; for reactive 8
//! and 10, 9 and 11, and 12. Then zones without requirement: who pays the pots of others, how a month, a reserve credit or the other
//! service decides it, what stays BASE and what becomes BIG. Then firm service: a week at its bound, its refusals, and its division,
//! which is place 13. The file `stdin` beside `src/` has the cases, each a line with a name, a month file and an empty line; `stdout`
//! has what must come by the paper, and the gate holds one to the other.
#![tactic(auto)]

ghost use Rattle.std.specs.Prelude.{◌≤◌, ◌<◌, length, IfOk};

use std::io::{self, Read};

// How many bytes the first line has, with its line feed.
fn line_length(cases: &[u8]) -> usize
    ensures within { result ≤ length cases.now }
    ensures some { 0 < length cases.now → 0 < result }
{
    match memchr::memchr(b'\n', cases) {
        Some(at) => at + 1,
        None => cases.len(),
    }
}

// How many bytes stand in front of the first empty line.
fn file_length(cases: &[u8]) -> usize
    ensures { result ≤ length cases.now }
{
    let mut at = 0;
    // line by line: no index is counted
    while at < cases.len() {
        if cases[at] == b'\n' {
            return at;
        }
        at += line_length(&cases[at..]);
    }
    at
}

// Writes the name of the first case and the statement of its month, and answers what stands behind the case.
fn show<'a>(rt: &HostRuntime, cases: &'a [u8]) -> io::Result<&'a [u8]>
    requires { 0 < length cases.now }
    ensures { IfOk result (λ rest. length rest.now < length cases.now) }
{
    let (name, rest) = cases.split_at(line_length(cases));
    let (file, rest) = rest.split_at(file_length(rest));
    rt.write_all(name)?;
    let mut out = [0u8; 1_024];
    if let Ok(length) = statement_text::statement(file, &mut out) {
        rt.write_all(&out[..length])?;
    }
    Ok(&rest[line_length(rest)..])
}

fn main(rt: HostRuntime) -> io::Result<()> {
    let mut input = Vec::new(rt.alloc());
    rt.stdin().read_to_end(&mut input)?;
    let mut rest: &[u8] = &input;
    // what is left moves on, and no index is counted
    while !rest.is_empty() {
        rest = show(&rt, rest)?;
    }
    Ok(())
}
