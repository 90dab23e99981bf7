//! The rows of one kind of line, for any key and width: counted, stored, measured and written.
ghost use Rattle.std.specs.Prelude.{◌≡◌, ◌+◌, ◌*◌, ◌≤◌, length, drop};
ghost use Rattle.text.specs.Lines.{line, line_text};
ghost use Rattle.text.specs.Places.{PutAt, Sized};
ghost use Rattle.fileform.specs.Reading.{row_lines};
ghost use Rattle.fileform.specs.Writing.{rows_text};
ghost use Rattle.fileform.specs.Calls.{CountedAt, RowsTaken};

/// How many rows were counted, and the offset behind them.
#[derive(Clone, Copy)]
pub struct Counted {
    pub count: usize,
    pub next: usize,
}

// Counts the rows from `at` on, `most` at the most.
pub(crate) fn count_rows(text: &[u8], at: usize, key: &[u8], width: usize, most: usize) -> Counted
    requires { at ≤ length text.now }
    ensures { CountedAt text.now (row_lines (line key.now width) most (drop at text.now)) result }
{
    let mut i = at;
    for count in 0..most {
        match text::reader::next_line(text, i, key, width) {
            Some(next) => i = next,
            None => return Counted { count, next: i },
        }
    }
    Counted {
        count: most,
        next: i,
    }
}

// Stores so many rows, which are known to be there, and answers the offset behind them.
#[tactic(auto, using(crate::proofs::RowWalks::row_within, crate::proofs::RowWalks::row_there, crate::proofs::RowWalks::rows_done, text::proofs::Stores::stored_none))]
pub(crate) fn take_rows(
    text: &[u8],
    at: usize,
    key: &[u8],
    width: usize,
    count: usize,
    words: &mut [u64],
) -> usize
    requires { (at ≤ length text.now) × ((row_lines (line key.now width) count (drop at text.now)).count ≡ count) × (count * width ≤ length words.old) }
    ensures { RowsTaken text.now (row_lines (line key.now width) count (drop at text.now)) words.old result words.new }
{
    let mut i = at;
    for k in 0..count {
        i = text::reader::take_next_line(text, i, key, width, words, k * width);
    }
    i
}

/// Adds the bytes of so many rows to a size, up to the cap.
/// `count` stands beside `words`, and the rows are cut by their place: `chunks_exact` would ask for a width above 0.
#[tactic(auto, using(crate::proofs::RowWalks::length_on, crate::proofs::RowWalks::text_done, crate::proofs::RowWalks::row_within))]
pub fn rows_size(
    key: &[u8],
    width: usize,
    count: usize,
    words: &[u64],
    before: usize,
    cap: usize,
) -> usize
    requires { (count * width ≤ length words.now) × (before ≤ cap) }
    ensures { Sized before (rows_text (line_text key.now) width count words.now) cap result }
{
    let mut size = before;
    for k in 0..count {
        let from = k * width;
        let row = &words[from..from + width];
        size = text::line::line_size(key, row, size, cap);
    }
    size
}

/// Writes so many rows at `at`, and answers the place behind them.
/// `count` stands beside `words`, and the rows are cut by their place: `chunks_exact` would ask for a width above 0.
#[tactic(auto, using(crate::proofs::RowWalks::row_within, crate::proofs::RowWalks::put_on, crate::proofs::RowWalks::text_done, crate::proofs::RowWalks::length_on, text::proofs::Stores::stored_none))]
pub fn put_rows(
    key: &[u8],
    width: usize,
    count: usize,
    words: &[u64],
    out: &mut [u8],
    at: usize,
) -> usize
    requires { (count * width ≤ length words.now) × (at + length (rows_text (line_text key.now) width count words.now) ≤ length out.old) }
    ensures { PutAt out.old at (rows_text (line_text key.now) width count words.now) result out.new }
{
    let mut i = at;
    for k in 0..count {
        let from = k * width;
        let row = &words[from..from + width];
        i = text::line::put_line(key, row, out, i);
    }
    i
}
