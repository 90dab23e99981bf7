//! The text of a month, measured and written: the first lines, the tables, the last line.
//! By two walks: one for both would hold the lent bytes in a struct, and beside a `&mut` stands no ghost field.
ghost use Rattle.std.specs.Prelude.{◌≡◌, [], ◌∷◌, ◌+◌, ◌≤◌, length};
ghost use Rattle.tables.specs.Shape.{tables_now};
ghost use Rattle.text.specs.Lines.{line_text};
ghost use Rattle.text.specs.Places.{PutAt, Sized};
ghost use Rattle.fileform.specs.Form.{month_form};
ghost use Rattle.fileform.specs.Writing.{heads_text, tables_text};
ghost use Rattle.filewrite.specs.Calls.{numbers_of, all_rows, month_text};

use crate::rows;
use fileform::{head, keys, table};
use tables::{HEADS, Head, TABLES};

// The first lines in turn, measured.
fn heads_size(head: Head, cap: usize) -> usize
    ensures { Sized 0 (heads_text month_form.heads (numbers_of head)) cap result }
{
    let numbers = <[u64; HEADS]>::from(head);
    let mut size = 0;
    for (k, number) in numbers.iter().enumerate() {
        size = head::head_size(k, *number, size, cap);
    }
    size
}

// The first lines in turn, written.
fn put_heads(head: Head, out: &mut [u8]) -> usize
    requires { 0 + length (heads_text month_form.heads (numbers_of head)) ≤ length out.old }
    ensures { PutAt out.old 0 (heads_text month_form.heads (numbers_of head)) result out.new }
{
    let numbers = <[u64; HEADS]>::from(head);
    let mut i = 0;
    for (k, number) in numbers.iter().enumerate() {
        i = head::put_head(k, *number, out, i);
    }
    i
}

// The tables in turn, measured.
fn tables_size<'a>(tables: [&'a [u64]; TABLES], before: usize, cap: usize) -> usize
    requires { before ≤ cap }
    ensures { Sized before (tables_text month_form.kinds (all_rows (tables_now tables.entry))) cap result }
{
    let mut size = before;
    for (k, words) in tables.iter().enumerate() {
        size = table::table_size(tables::table_at(k), words, size, cap);
    }
    size
}

// The tables in turn, written from `at` on.
fn put_tables<'a>(tables: [&'a [u64]; TABLES], out: &mut [u8], at: usize) -> usize
    requires { at + length (tables_text month_form.kinds (all_rows (tables_now tables))) ≤ length out.old }
    ensures { PutAt out.old at (tables_text month_form.kinds (all_rows (tables_now tables.entry))) result out.new }
{
    let mut i = at;
    for (k, words) in tables.iter().enumerate() {
        i = table::put_table(tables::table_at(k), words, out, i);
    }
    i
}

fn end_size(total: u64, before: usize, cap: usize) -> usize
    requires { before ≤ cap }
    ensures { Sized before (line_text month_form.last (total ∷ [])) cap result }
{
    text::line::line_size(keys::END, &[total], before, cap)
}

fn put_end(total: u64, out: &mut [u8], at: usize) -> usize
    requires { at + length (line_text month_form.last (total ∷ [])) ≤ length out.old }
    ensures { PutAt out.old at (line_text month_form.last (total ∷ [])) result out.new }
{
    text::line::put_line(keys::END, &[total], out, at)
}

/// The length of a month's text, up to a cap.
pub fn text_size<'a>(head: Head, tables: [&'a [u64]; TABLES], cap: usize) -> usize
    ensures { Sized 0 (month_text head (tables_now tables.entry)) cap result }
{
    let heads = heads_size(head, cap);
    let rows = tables_size(tables, heads, cap);
    end_size(rows::rows_in_all(tables), rows, cap)
}

/// Writes a month's text to the front of `out`, and answers its length.
pub fn put_text<'a>(head: Head, tables: [&'a [u64]; TABLES], out: &mut [u8]) -> usize
    requires { 0 + length (month_text head (tables_now tables)) ≤ length out.old }
    ensures { PutAt out.old 0 (month_text head (tables_now tables.entry)) result out.new }
{
    let heads = put_heads(head, out);
    let rows = put_tables(tables, out, heads);
    put_end(rows::rows_in_all(tables), out, rows)
}
