//! What the lines are made of, written to standard output.
use answer::{Answer, Refused};
use fileread::Held;
use std::{fmt, io};
use tables::{HEADS, TABLES};

// Numbers joined by commas.
#[derive(Clone, Copy)]
pub(crate) struct Joined<'a, T>(pub(crate) &'a [T]);

impl<T: fmt::Display> fmt::Display for Joined<'_, T> {
    fn fmt<W: fmt::Write>(&self, f: &mut fmt::Formatter<W>) -> fmt::Result {
        for (i, number) in self.0.iter().enumerate() {
            if 0 < i {
                f.write_str(",")?;
            }
            write!(f, "{number}")?;
        }
        Ok(())
    }
}

fn found(rt: &HostRuntime, answer: Answer, head: &[u64], counts: &[usize]) -> io::Result<()> {
    print!(rt; ": {answer} head {} rows {}", Joined(head), Joined(counts))
}

// What a read answers: zeros for all that it did not read.
pub(crate) fn reading(
    rt: &HostRuntime,
    name: &[u8],
    read: Result<Held, Refused>,
) -> io::Result<()> {
    rt.write_all(name)?;
    let answer = Answer::from(read);
    match read {
        Ok(held) => found(rt, answer, &<[u64; HEADS]>::from(held.head), &held.counts),
        Err(_) => found(rt, answer, &[0; HEADS], &[0; TABLES]),
    }
}

// What a write answers: no length where it is refused.
pub(crate) fn written(
    rt: &HostRuntime,
    name: &[u8],
    written: Result<usize, Refused>,
) -> io::Result<()> {
    let answer = Answer::from(written);
    let length = written.unwrap_or(0);
    rt.write_all(name)?;
    print!(rt; ": {answer} length {length}")
}
