//! Case S of the paper, the lines on texts that are read into lent tables, and the lines on texts that differ from case S in one piece.
//! The lines of case S start at 0, 8, 16, 26, 34, 43, 53 (the head), 63 (zone), 77, 91 (owners), 105 (unit), 126, 141 (accounts),
//! 156, 168 (loads), 180 (ptp) and 192 (end), and its length is 198.
use crate::line::Joined;
use crate::{line, marks};
use std::io;
use tables::{Head, TABLES};

const TEXT: &[u8] =
    b"month=4\ndays=30\nnonzone=0\ndaily=0\nweekly=0\nmonthly=0\nweekday=1\nzone=1,365000\nowner=1,1,200\nowner=2,1,100\nunit=1,2,1,1,12000,0\naccount=1,70,1\naccount=2,71,0\nload=1,1,10\nload=1,2,10\nptp=2,480,0\nend=9\n";

// How many words a table with all its rows has, by the table's place.
pub(crate) const FULL: [usize; TABLES] = [32, 192, 384, 96, 2_976, 96, 4_960];

// A text that is read into tables of so many words, by the table's place, up to a word more than a full table has; in each of them
// the first `looked` are held against the mark.
pub(crate) fn read_into(
    rt: &HostRuntime,
    name: &[u8],
    text: &[u8],
    sizes: [usize; TABLES],
    looked: usize,
) -> io::Result<()> {
    let mut zones = marks::marked(rt.alloc(), marks::WORD, sizes[0], FULL[0] + 1)?;
    let mut owners = marks::marked(rt.alloc(), marks::WORD, sizes[1], FULL[1] + 1)?;
    let mut units = marks::marked(rt.alloc(), marks::WORD, sizes[2], FULL[2] + 1)?;
    let mut accounts = marks::marked(rt.alloc(), marks::WORD, sizes[3], FULL[3] + 1)?;
    let mut loads = marks::marked(rt.alloc(), marks::WORD, sizes[4], FULL[4] + 1)?;
    let mut reservations = marks::marked(rt.alloc(), marks::WORD, sizes[5], FULL[5] + 1)?;
    let mut firm = marks::marked(rt.alloc(), marks::WORD, sizes[6], FULL[6] + 1)?;
    let read = fileread::read(
        text,
        &mut zones,
        &mut owners,
        &mut units,
        &mut accounts,
        &mut loads,
        &mut reservations,
        &mut firm,
    );
    line::reading(rt, name, read)?;
    let changed = [
        &zones[..],
        &owners[..],
        &units[..],
        &accounts[..],
        &loads[..],
        &reservations[..],
        &firm[..],
    ]
    .map(|words| changed_in(words, looked));
    println!(rt; " words {}", Joined(&changed))
}

fn changed_in(words: &[u64], looked: usize) -> usize {
    marks::changed(&words[..looked.min(words.len())], marks::WORD)
}

// Case S with another piece, of 58 bytes at most, in place of its bytes from `from` to before `to`, read into tables of full size. Rows
// are stored from the front, and the first 36 words of each table are looked at.
pub(crate) fn bent(
    rt: &HostRuntime,
    name: &[u8],
    from: usize,
    to: usize,
    piece: &[u8],
) -> io::Result<()> {
    let end = to.min(TEXT.len());
    let start = from.min(end);
    let mut text = Vec::new(rt.alloc());
    text.extend_from_slice(&TEXT[..start])?;
    text.extend_from_slice(marks::part(piece, 0, 58))?;
    text.extend_from_slice(&TEXT[end..])?;
    read_into(rt, name, &text, FULL, 36)
}

// The front of tables, as many rows of each as case S has, written into marked bytes: how many of these were changed, and how many
// are case S's.
fn write_again<'a>(rt: &HostRuntime, head: Head, tables: [&'a [u64]; TABLES]) -> io::Result<()> {
    let mut out = [marks::BYTE; 256];
    let written = filewrite::write(head, tables, &mut out);
    line::written(rt, b"case S read and written again", written)?;
    let changed = marks::changed(&out, marks::BYTE);
    let same = marks::same(TEXT, &out);
    println!(rt; " bytes {changed} same {same}")
}

fn again(rt: &HostRuntime) -> io::Result<()> {
    let mut zones = [marks::WORD; 32];
    let mut owners = [marks::WORD; 192];
    let mut units = [marks::WORD; 384];
    let mut accounts = [marks::WORD; 96];
    let mut loads = [marks::WORD; 2_976];
    let mut reservations = [marks::WORD; 96];
    let mut firm = [marks::WORD; 4_960];
    let read = fileread::read(
        TEXT,
        &mut zones,
        &mut owners,
        &mut units,
        &mut accounts,
        &mut loads,
        &mut reservations,
        &mut firm,
    );
    let Ok(held) = read else {
        return Ok(());
    };
    write_again(
        rt,
        held.head,
        [
            &zones[..2],
            &owners[..6],
            &units[..6],
            &accounts[..6],
            &loads[..6],
            &reservations[..3],
            &firm[..0],
        ],
    )
}

pub(crate) fn run(rt: &HostRuntime) -> io::Result<()> {
    read_into(rt, b"case S", TEXT, FULL, 4_961)?;
    again(rt)
}
