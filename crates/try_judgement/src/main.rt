//! Judgements of a month's input, run on the crate that gives them and written out, a line each: its name, a colon, and the
//! number, the table and the row that `judgement::judge` answers. The months stand in the file `stdin` beside `src/`, a line each: its
//! name, and behind semicolons what differs from April, the first line, whose rows have the least and the most that an entry may be
//! (`change` says how). Each refusal that a table can give stands at a first, a middle and a last row, each limit on both its sides,
//! and of two defects at once the one that comes first. The file `stdout` has what must come by the paper, and the gate holds one to
//! the other.
#![tactic(auto)]

mod block;
mod change;
mod line;

use block::Block;
use std::io::{self, Read};

// A line for every month behind April: April is taken, and then what the month changes.
fn main(rt: HostRuntime) -> io::Result<()> {
    let mut text = Vec::new(rt.alloc());
    rt.stdin().read_to_end(&mut text)?;
    let mut block = Block::new(rt.alloc())?;
    let mut rest = change::behind_first(change::changes(rt.alloc(), &text, &mut block)?);
    // what is left of the text moves on, and no index is counted
    while !rest.is_empty() {
        change::changes(rt.alloc(), &text, &mut block)?;
        let (name, changed) = rest.split_at(change::name_length(rest));
        let end = change::changes(rt.alloc(), changed, &mut block)?;
        line::month_line(&rt, name, &block)?;
        rest = change::behind_first(end);
    }
    Ok(())
}
