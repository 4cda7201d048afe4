// Reads the lines of a sheet from a text into lent buffers.
ghost use Rattle.std.specs.Prelude.{◌≡◌, true, false, List, ℕ, ◌+◌, ◌*◌, ◌≤◌, ◌<◌, length, get_or, Some};
ghost use Rattle.octets.specs.Octets.{Wrote};
ghost use Rattle.hexlines.specs.Hexlines.{spelt};
ghost use Rattle.cases.specs.Lines.{lines_of};
ghost use Rattle.sheet.specs.Sheet.{hex_up_to, is_kept, hex_of, filled, are_rows, row_bytes, pairs, sheet_of};
ghost use Rattle.sheet.specs.Reading.{rows_after, HeadIs, is_sheet_at, sheet_at, Stands};
ghost use Rattle.sheet.specs.Buffers.{Stay, ReadsIn};
ghost use Rattle.sheet.specs.Taking.{Took};

use crate::buffers::Buffers;
use cases::lines::Lines;

// The first four lines of a text, and the text of the rows behind them.
#[derive(Clone, Copy)]
pub struct Head<'a> {
    pub font: &'a [u8],
    pub name: &'a [u8],
    pub keep: &'a [u8],
    pub flag: &'a [u8],
    pub rows: &'a [u8],
}

// How many bytes the font and the name of a sheet have, how many numbers are kept, how many bytes the record has, and the flag, which may be any byte.
#[derive(Clone, Copy)]
pub struct Parts {
    pub font: usize,
    pub name: usize,
    pub keep: usize,
    pub rec: usize,
    pub flag: u8,
}

// Whether a line is hexadecimal of n digits.
fn hex_of(line: &[u8], n: usize) -> bool
    ensures { result ≡ hex_of n line.now }
{
    line.len() == n && hexlines::is_hex(line)
}

// Whether a line is hexadecimal of up to n bytes.
fn hex_up_to(line: &[u8], n: usize) -> bool
    requires { n ≤ 65536 }
    ensures { result ≡ hex_up_to n line.now }
{
    line.len() <= 2 * n && hexlines::is_hex(line)
}

// Whether a line is of kept numbers.
fn is_kept(line: &[u8]) -> bool
    ensures { result ≡ is_kept line.now }
{
    line.len() % 4 == 0 && hex_up_to(line, 2048)
}

// How many rows there are after one more line; none where they are too many, or the line is no row.
fn rows_after(rows: usize, line: &[u8]) -> Option<usize>
    ensures { result ≡ rows_after rows line.now }
{
    if line.len() == 0 {
        return Some(rows);
    }
    if 512 <= rows {
        return None;
    }
    if hex_of(line, 20) {
        return Some(rows + 1);
    }
    None
}

// Whether the lines of a text are rows.
fn are_rows(text: &[u8]) -> bool
    ensures { result ≡ are_rows (filled (lines_of text.now)) }
{
    let mut rows = 0;
    for line in Lines::of(text) {
        match rows_after(rows, line) {
            Some(more) => rows = more,
            None => return false,
        }
    }
    true
}

// Writes the bytes of the rows of a text to the start of rec; returns how many they are.
fn put_rows(text: &[u8], rec: &mut [u8]) -> usize
    requires { (are_rows (filled (lines_of text.now)) ≡ true) × (5120 ≤ length rec.old) }
    ensures { Wrote rec.old 0 (row_bytes (filled (lines_of text.now))) rec.new result }
{
    let mut q = 0;
    for line in Lines::of(text) {
        q += hexlines::put_spelt(&mut rec[q..], line);
    }
    q
}

// Writes the big-endian numbers of two bytes each to the start of keep; returns how many they are.
pub fn put_pairs(bytes: &[u8], keep: &mut [u16]) -> usize
    requires { length bytes.now ≤ 2 * length keep.old }
    ensures { Wrote keep.old 0 (pairs bytes.now) keep.new result }
{
    let n = bytes.len() / 2;
    for p in 0..n {
        keep[p] = octets::u16_at(bytes, 2 * p) as u16;
    }
    n
}

// The first four lines of a text, if it has as many.
fn first_lines(text: &[u8]) -> Option<Head<'_>>
    ensures { HeadIs text.now result }
{
    let mut lines = Lines::of(text);
    let font = lines.next()?;
    let name = lines.next()?;
    let keep = lines.next()?;
    let flag = lines.next()?;
    Some(Head {
        font,
        name,
        keep,
        flag,
        rows: lines.rest,
    })
}

// Whether the lines of a text are those of a sheet.
fn is_sheet(head: &Head<'_>) -> bool
    ensures { result ≡ is_sheet_at head.now }
{
    hex_up_to(head.font, 16384)
        && hex_up_to(head.name, 256)
        && is_kept(head.keep)
        && hex_of(head.flag, 2)
        && are_rows(head.rows)
}

// The flag in two digits.
fn flag_of(line: &[u8]) -> u8
    requires { hex_of 2 line.now ≡ true }
    ensures { result ≡ get_or (spelt line.now) 0 0 }
{
    hexlines::octet_of(line[0], line[1])
}

// Writes the kept numbers of a line to the start of keep; returns how many they are.
fn put_kept(line: &[u8], keep: &mut [u16]) -> usize
    requires { (is_kept line.now ≡ true) × (1024 ≤ length keep.old) }
    ensures { Wrote keep.old 0 (pairs (spelt line.now)) keep.new result }
{
    let mut bytes = [0u8; 2048];
    let k = hexlines::put_spelt(&mut bytes, line);
    put_pairs(&bytes[..k], keep)
}

// Writes the parts of a sheet to the start of the buffers.
fn put_parts(head: &Head<'_>, to: &mut Buffers<'_>) -> Parts
    requires { is_sheet_at head.now ≡ true }
    ensures { (Stands (sheet_at head.now) to.new.font.now to.new.name.now to.new.keep.now to.new.rec.now (Some result)) × (Stay to.old to.new) }
{
    let m = hexlines::put_spelt(&mut *to.font, head.font);
    let n = hexlines::put_spelt(&mut *to.name, head.name);
    let k = put_kept(head.keep, &mut *to.keep);
    let flag = flag_of(head.flag);
    let l = put_rows(head.rows, &mut *to.rec);
    Parts {
        font: m,
        name: n,
        keep: k,
        rec: l,
        flag,
    }
}

// Reads the sheet that a text holds into the buffers.
pub fn read_sheet(text: &[u8], to: &mut Buffers<'_>) -> Option<Parts>
    ensures { (ReadsIn (sheet_of text.now) to.new result) × (Stay to.old to.new) }
{
    match first_lines(text) {
        Some(head) => {
            if is_sheet(&head) {
                return Some(put_parts(&head, to));
            }
            None
        }
        None => None,
    }
}

// Reads the sheet of a text that was taken: len bytes in the buffer, or too many. A slice of those bytes could not say that there were more, as len does.
pub fn read_taken(buffer: &[u8], len: usize, to: &mut Buffers<'_>) -> Option<Parts>
    requires { 48134 ≤ length buffer.now }
    ensures { ((text : List ℕ) (mode : ℕ) → Took text len mode buffer.now → ReadsIn (sheet_of text) to.new result) × (Stay to.old to.new) }
{
    if len <= 48134 {
        return read_sheet(&buffer[..len], to);
    }
    None
}
