// The reach record (document 01, 'Reach record'), read in place: its rows and refusal 8 (here), the lengths that it gives for masks
// (`masks`), and the ranks of the subroutines that it has, in the work words (`ranks`).
#![tactic(auto)]

pub mod masks;
pub mod ranks;
pub mod rows;

ghost use Rattle.std.specs.Prelude.{◌≡◌, ◌/◌, ◌<◌, length};
ghost use Rattle.record.specs.Record.{takes_fd, row_fine_lem, rows_fine_lem, rows_of, record_fine};
ghost use Rattle.reach.specs.Reach.{row_in, row_no, fd_fine, mask_fine};

// A row of a record: its five numbers. The kind is a number too: a record may have any, which refusal 8 judges, and rows are ordered by it.
#[derive(Clone, Copy)]
pub struct Row {
    pub kind: u8,
    pub fd: u8,
    pub number: u16,
    pub offset: u32,
    pub len: u16,
}

// The subroutines of an INDEX: the globals, or the locals of an FD.
// (It stays an enum: they are two kinds, and an Option is no plainer, since None would not say that the globals are meant.)
#[derive(Clone, Copy)]
pub enum Subrs {
    Global,
    Local(usize),
}

// The i-th row of a record.
pub fn row_at(rows: &[u8], i: usize) -> Row
    requires { i < length rows.now / 10 }
    ensures { row_in result ≡ row_no rows.now i }
{
    let at = 10 * i;
    let kind = rows[at];
    let fd = rows[at + 1];
    let number = octets::u16_at(rows, at + 2) as u16;
    let offset = octets::u32_at(rows, at + 4) as u32;
    let len = octets::u16_at(rows, at + 8) as u16;
    Row {
        kind,
        fd,
        number,
        offset,
        len,
    }
}

// Whether a row of a kind may have an FD that is not 0.
// (Kind and FD go side by side in this crate: as a struct they would only be taken apart again, for each is compared with a row's by itself.)
fn takes_fd(cid: bool, kind: u8) -> bool
    ensures { result ≡ takes_fd cid kind }
{
    cid && (kind == 0 || kind == 3)
}

// Whether the FD of a row is 0 where it must be.
fn fd_fine(cid: bool, kind: u8, fd: u8) -> bool
    ensures { result ≡ fd_fine cid kind fd }
{
    takes_fd(cid, kind) || fd == 0
}

// Whether offset and length of a row are 0 where they must be.
fn mask_fine(kind: u8, offset: u32, len: u16) -> bool
    ensures { result ≡ mask_fine kind offset len }
{
    2 <= kind || offset == 0 && len == 0
}

// Whether a row's kind is known, and its fields that must be 0 are.
fn row_fine(cid: bool, r: Row) -> bool
    ensures { result ≡ row_fine_lem cid (row_in r) }
{
    r.kind <= 4 && fd_fine(cid, r.kind, r.fd) && mask_fine(r.kind, r.offset, r.len)
}

// Whether all rows are fine.
fn rows_fine(cid: bool, rows: &[u8]) -> bool
    ensures { result ≡ rows_fine_lem cid (rows_of rows.now) }
{
    // `all` was tried and is slower.
    for i in 0..rows.len() / 10 {
        if !row_fine(cid, row_at(rows, i)) {
            return false;
        }
    }
    true
}

// Whether record and flag are of the right form: refusal 8 where not. The flag is any byte, for only here it is judged.
pub fn check_record(cid: bool, rows: &[u8], flag: u8) -> bool
    ensures { result ≡ record_fine cid rows.now flag }
{
    let len = rows.len();
    if 0 < len % 10 {
        return false;
    }
    if rows_fine(cid, rows) {
        if flag == 0 {
            return len == 0;
        }
        return flag == 1;
    }
    false
}
