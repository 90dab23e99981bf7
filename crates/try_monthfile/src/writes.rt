//! Writing: tables of zeros, case S into bytes that are too few and just enough, and the largest head.
use crate::case::{FULL, read_into};
use crate::{line, marks};
use answer::Refused;
use std::io;
use tables::{HEADS, Head, TABLES};

const ZONES: [u64; 2] = [1, 365_000];

const OWNERS: [u64; 6] = [1, 1, 200, 2, 1, 100];

const UNITS: [u64; 6] = [1, 2, 1, 1, 12_000, 0];

const ACCOUNTS: [u64; 6] = [1, 70, 1, 2, 71, 0];

const LOADS: [u64; 6] = [1, 1, 10, 1, 2, 10];

const RESERVATIONS: [u64; 3] = [2, 480, 0];

// The head of case S.
const HEAD: Head = Head {
    month: 4,
    days: 30,
    nonzone: 0,
    daily: 0,
    weekly: 0,
    monthly: 0,
    weekday: 1,
};

// What a write into marked bytes answers, and how many of them it changed.
fn show(
    rt: &HostRuntime,
    name: &[u8],
    written: Result<usize, Refused>,
    out: &[u8],
) -> io::Result<()> {
    line::written(rt, name, written)?;
    println!(rt; " bytes {}", marks::changed(out, marks::BYTE))
}

// A month that is written into so many lent bytes, 256 at most.
fn write_into<'a>(
    rt: &HostRuntime,
    name: &[u8],
    head: Head,
    tables: [&'a [u64]; TABLES],
    bytes: usize,
) -> io::Result<()> {
    let mut out = marks::marked(rt.alloc(), marks::BYTE, bytes, 256)?;
    let written = filewrite::write(head, tables, &mut out);
    show(rt, name, written, &out)
}

// Tables of so many of some words, by the table's place, written to the front of lent bytes.
fn write_fronts<'a>(
    words: &'a [u64],
    sizes: [usize; TABLES],
    out: &mut [u8],
) -> Result<usize, Refused> {
    let tables = sizes.map(|size| &words[..words.len().min(size)]);
    filewrite::write(HEAD, tables, out)
}

// The text of tables of so many zeros, by the table's place, up to a place, and a piece from there on, which is read.
pub(crate) fn read_zeros(
    rt: &HostRuntime,
    name: &[u8],
    sizes: [usize; TABLES],
    at: usize,
    piece: &[u8],
) -> io::Result<()> {
    let mut text = vec![in rt.alloc(); 0; 32_768]?;
    let _written = write_fronts(&[0u64; 4_960], sizes, &mut text);
    text.truncate(at.min(32_384));
    text.extend_from_slice(marks::part(piece, 0, 384))?;
    read_into(rt, name, &text, FULL, 4_961)
}

// Tables of so many zeros, by the table's place, written into so many lent bytes.
pub(crate) fn write_zeros(
    rt: &HostRuntime,
    name: &[u8],
    sizes: [usize; TABLES],
    bytes: usize,
) -> io::Result<()> {
    let mut out = marks::marked(rt.alloc(), marks::BYTE, bytes, 32_768)?;
    let written = write_fronts(&[0u64; 4_965], sizes, &mut out);
    show(rt, name, written, &out)
}

fn room<'a>(rt: &HostRuntime, case: [&'a [u64]; TABLES]) -> io::Result<()> {
    write_into(rt, b"write case S into no bytes", HEAD, case, 0)?;
    write_into(rt, b"write case S into 197 bytes", HEAD, case, 197)?;
    write_into(rt, b"write case S into 198 bytes", HEAD, case, 198)?;
    write_into(rt, b"write case S into 256 bytes", HEAD, case, 256)
}

// No range is judged: the head's seven numbers are 2^64-1, 132 bytes more than in a month with case S's head and no rows.
fn large_head<'a>(rt: &HostRuntime, none: &'a [u64]) -> io::Result<()> {
    let head = Head::from([u64::MAX; HEADS]);
    let tables = [none; TABLES];
    write_into(
        rt,
        b"write 2^64-1 seven times into 200 bytes",
        head,
        tables,
        200,
    )?;
    write_into(
        rt,
        b"write 2^64-1 seven times into 201 bytes",
        head,
        tables,
        201,
    )
}

pub(crate) fn run(rt: &HostRuntime) -> io::Result<()> {
    room(
        rt,
        [
            &ZONES,
            &OWNERS,
            &UNITS,
            &ACCOUNTS,
            &LOADS,
            &RESERVATIONS,
            &[],
        ],
    )?;
    write_zeros(rt, b"write every table full into 28631 bytes", FULL, 28_631)?;
    large_head(rt, &[])
}
