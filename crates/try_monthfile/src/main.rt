//! Month files, read and written by the crates that do it, and what comes of each written out, a line each. A line on a read has its
//! name, a colon, the answer's number, table and row, then the head and each table's number of rows as `fileread::read` answers them,
//! and for each table how many of the lent words it changed. A line on a write has the answer, the length, and how many of the lent
//! bytes it changed. The file `stdin` beside `src/` has the cases (`input` says how), `stdout` what must come by the paper, and the
//! gate holds one to the other.
#![tactic(auto)]

mod case;
mod input;
mod line;
mod marks;
mod writes;

use std::io::{self, Read};

fn main(rt: HostRuntime) -> io::Result<()> {
    let mut cases = Vec::new(rt.alloc());
    rt.stdin().read_to_end(&mut cases)?;
    case::run(&rt)?;
    input::run(&rt, &cases)?;
    writes::run(&rt)
}
