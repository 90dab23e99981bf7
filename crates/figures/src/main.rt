//! The figures of the paper, and the limits of a division, of its check and of a month, run on the crates that answer them and
//! written out, a line each: its name, what was given, and after the last colon what came. The file `stdin` beside `src/` has the
//! divisions and checks: D1 to D8, the divisions that B1 is made of, how many weights and words there may be, weights that add up to
//! more than a word holds, which refusal comes first; then C1 to C3, divisions of other figures handed back to the check, amounts of
//! any size, and its refusals. The file `stdout` has what must come by the paper, and the gate holds one to the other. The starred
//! figures are theorems, in `specs/Starred.antt`, and are run here all the same.
#![tactic(auto)]

mod cases;
mod months;

use std::io;

fn main(rt: HostRuntime) -> io::Result<()> {
    cases::run(&rt)?;
    months::run(&rt)
}
