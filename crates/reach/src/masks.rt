// The lengths that a reach record gives for masks: found by halves where the rows stand in rising order, else by passing over all rows.
ghost use Rattle.std.specs.Prelude.{◌≡◌, ◌+◌, ◌*◌, ◌/◌, ◌<◌, length};
ghost use Rattle.unfold.specs.Unfold.{masked};
ghost use Rattle.record.specs.Record.{rows_of, given_in, two_lengths_lem};
ghost use Rattle.unfold.specs.Sites.{site_of};
ghost use Rattle.reach.specs.Reach.{Fits, row_in, row_no, rest_of, key_of_lem, rises};
ghost use Rattle.reach.specs.Masks.{body_of_lem, len_at, clashes, other_len_lem, clash_at, two_of, FirstAt};

use crate::Row;
use crate::rows::{Rising, Rows};
use charstring::MaskLen;
use unfold::Site;

// The body that a row speaks of, as one number: kind, FD, number.
fn body_of(r: Row) -> u32
    ensures { result ≡ body_of_lem (row_in r) }
{
    (r.kind as u32 * 256 + r.fd as u32) * 65536 + r.number as u32
}

// A row's first eight bytes as one number: body and offset.
fn key_of(r: Row) -> usize
    ensures { result ≡ key_of_lem (row_in r) }
{
    body_of(r) as usize * 4294967296 + r.offset as usize
}

// The body that rows of masks of a site speak of.
fn site_body(site: Site) -> u32
    ensures { (result ≡ body_of_lem (masked (site_of site) 0 0)) × (Fits (masked (site_of site) 0 0)) }
{
    match site {
        Site::Glyph(g) => 2 * 16777216 + g as u32,
        Site::Local { fd, number } => (3 * 256 + fd as u32) * 65536 + number as u32,
        Site::Global(k) => 4 * 16777216 + k as u32,
    }
}

// Whether the rows stand in rising order of their first eight bytes: then they can be searched.
pub fn rises(rows: &[u8]) -> bool
    ensures { result ≡ rises (rows_of rows.now) }
{
    let mut last = 0;
    for i in 0..rows.len() / 10 {
        let key = key_of(crate::row_at(rows, i));
        if key < last {
            return false;
        }
        last = key;
    }
    true
}

// The first row whose key is not below a key, of rows that rise, or how many rows there are: searched by halves.
// (The halving stays: rows are ten bytes each of one slice of bytes, which is no slice that `partition_point` takes; of row_window's keys it was tried, and is slower by a third.)
fn first_at(rows: &Rising<'_>, key: usize) -> usize
    ensures { FirstAt rows.now.bytes.now key result }
{
    let mut low = 0;
    let mut high = rows.bytes.len() / 10;
    while low < high {
        let mid = low + (high - low) / 2;
        let here = key_of(crate::row_at(rows.bytes, mid));
        if here < key {
            low = mid + 1;
        } else {
            high = mid;
        }
    }
    low
}

// The length of the first row that has a key, of rows that rise.
fn given_found(rows: &Rising<'_>, key: usize) -> MaskLen
    ensures { result ≡ len_at key (rows_of rows.now.bytes.now) }
{
    let i = first_at(rows, key);
    if i < rows.bytes.len() / 10 {
        let r = crate::row_at(rows.bytes, i);
        if key_of(r) == key {
            return MaskLen::Given(r.len as usize);
        }
        return MaskLen::Own;
    }
    MaskLen::Own
}

// The length of the first row that has a key, by passing over the rows.
fn given_passed(rows: &[u8], key: usize) -> MaskLen
    ensures { result ≡ len_at key (rows_of rows.now) }
{
    for i in 0..rows.len() / 10 {
        let r = crate::row_at(rows, i);
        if key_of(r) == key {
            return MaskLen::Given(r.len as usize);
        }
    }
    MaskLen::Own
}

// The length that the record gives for the mask at an offset of a body: by halves where the rows rise, else by one pass.
pub fn given(rows: &Rows<'_>, site: Site, offset: u32) -> MaskLen
    ensures { result ≡ given_in (rows_of rows.now.bytes.now) (site_of site) offset }
{
    let key = site_body(site) as usize * 4294967296 + offset as usize;
    if rows.rising {
        return given_found(&Rising { bytes: rows.bytes }, key);
    }
    given_passed(rows.bytes, key)
}

// Whether a row has a key, and another length.
fn clashes(r: Row, key: usize, len: u16) -> bool
    ensures { result ≡ clashes key len (row_in r) }
{
    key == key_of(r) && len != r.len
}

// Whether a row from the i-th on has a key, and another length.
fn other_len(rows: &[u8], from: usize, key: usize, len: u16) -> bool
    ensures { result ≡ other_len_lem key len (rest_of rows.now from) }
{
    // `any` was tried and is slower.
    for i in from..rows.len() / 10 {
        if clashes(crate::row_at(rows, i), key, len) {
            return true;
        }
    }
    false
}

// Whether the i-th row is of a body, and a later one has its key and another length.
fn clash_at(rows: &[u8], i: usize, body: u32) -> bool
    requires { i < length rows.now / 10 }
    ensures { result ≡ clash_at body (row_no rows.now i) (rest_of rows.now (i + 1)) }
{
    let r = crate::row_at(rows, i);
    body_of(r) == body && other_len(rows, i + 1, key_of(r), r.len)
}

// Whether a body has two lengths at one offset, by passing over the rows.
fn two_passed(rows: &[u8], body: u32) -> bool
    ensures { result ≡ two_of body (rows_of rows.now) }
{
    // `any` was tried and is slower.
    for i in 0..rows.len() / 10 {
        if clash_at(rows, i, body) {
            return true;
        }
    }
    false
}

// Whether a body has two lengths at one offset, of rows that rise: equal keys stand side by side, so neighbours are compared.
fn two_found(rows: &Rising<'_>, body: u32) -> bool
    ensures { result ≡ two_of body (rows_of rows.now.bytes.now) }
{
    for i in first_at(rows, body as usize * 4294967296)..(rows.bytes.len() / 10).saturating_sub(1) {
        let r = crate::row_at(rows.bytes, i);
        if body_of(r) != body {
            return false;
        }
        if clashes(crate::row_at(rows.bytes, i + 1), key_of(r), r.len) {
            return true;
        }
    }
    false
}

// Whether the record has two lengths at one offset of a body: where the rows rise, only that body's rows are looked at.
pub fn two_lengths(rows: &Rows<'_>, site: Site) -> bool
    ensures { result ≡ two_lengths_lem (rows_of rows.now.bytes.now) (site_of site) }
{
    let body = site_body(site);
    if rows.rising {
        return two_found(&Rising { bytes: rows.bytes }, body);
    }
    two_passed(rows.bytes, body)
}
