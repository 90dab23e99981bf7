//! A line of the program: the name of a judgement, a colon, and what `judgement::judge` answers, its number, table and row.
use crate::block::Block;
use answer::Answer;
use std::io;
use tables::{HEADS, Head};

// The line of the month whose words stand in a block; no line where its head is not whole.
pub(crate) fn month_line(rt: &HostRuntime, name: &[u8], block: &Block) -> io::Result<()> {
    let Some(numbers) = block.part(0).first_chunk::<HEADS>() else {
        return Ok(());
    };
    let tables = [
        block.part(1),
        block.part(2),
        block.part(3),
        block.part(4),
        block.part(5),
        block.part(6),
        block.part(10),
    ];
    let charges = block.part(7).len();
    let credits = block.part(8).len();
    let judged = judgement::judge(Head::from(*numbers), tables, charges, credits);
    rt.write_all(name)?;
    println!(rt; ": {}", Answer::from(judged))
}
