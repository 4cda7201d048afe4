// An INDEX of TN5176, section 5: read in place, its items parts of the caller's bytes; and written into a lent slice,
// each item together with the offset of its end.
#![tactic(auto)]

ghost use Rattle.std.specs.Prelude.{◌≡◌, [], ◌∷◌, ◌+◌, ◌*◌, ◌-◌, ◌≤◌, ◌<◌, length, drop, get_or};
ghost use Rattle.octets.specs.Out.{Writes};
ghost use Rattle.index.specs.Index.{offsets, run_of, table_at, empty_at, index_at, items_of};
ghost use Rattle.index.specs.Good.{Lies, Good, offset_of};
ghost use Rattle.index.specs.Place.{StartsAt, item_place};
ghost use Rattle.index.specs.Write.{total, size_for, head_bytes, index_bytes, index_len_lem, index_for_lem};
ghost use Rattle.index.specs.ItemOut.{Ends, WritesItem};

pub mod items;

use octets::out::Out;
use refusal::Refusal;

// An INDEX in a font: how many items, the bytes of an offset, where the offsets stand, the byte before the data, and the end.
#[derive(Clone, Copy)]
pub struct Index {
    pub count: usize,
    pub size: usize,
    pub table: usize,
    pub base: usize,
    pub end: usize,
}

// The last of a run of offsets, whose first is start and whose count others stand at place; or the refusal of its first bad pair.
fn judge(
    font: &[u8],
    start: usize,
    place: usize,
    size: usize,
    count: usize,
    room: usize,
) -> Result<usize, Refusal>
    requires { (size ≤ 4) × (place + count * size ≤ length font.now) }
    ensures { result ≡ run_of room start (offsets count size (drop place font.now)) }
{
    let mut last = start;
    for i in 0..count {
        let end = octets::num_at(font, place + i * size, size);
        if end < last {
            return Err(Refusal::Malformed);
        }
        if room < end {
            return Err(Refusal::Truncated);
        }
        last = end;
    }
    Ok(last)
}

// The INDEX whose offsets stand at table.
fn table_at(font: &[u8], table: usize, count: usize, size: usize) -> Result<Index, Refusal>
    requires { (0 < count) × (count < 65536) × (table ≤ length font.now) }
    ensures { result ≡ table_at font.now table count size }
{
    if size < 1 {
        return Err(Refusal::Malformed);
    }
    if 4 < size {
        return Err(Refusal::Malformed);
    }
    let n = font.len();
    let past = table + (count + 1) * size;
    if n < past {
        return Err(Refusal::Truncated);
    }
    let first = octets::num_at(font, table, size);
    if first != 1 {
        return Err(Refusal::Malformed);
    }
    let base = past - 1;
    let last = judge(font, first, table + size, size, count, n - base)?;
    Ok(Index {
        count,
        size,
        table,
        base,
        end: base + last,
    })
}

// An INDEX of no item at a place: its count alone.
fn empty_at(at: usize) -> Index
    requires { at < 18446744073709551614 }
    ensures { result ≡ empty_at at }
{
    Index {
        count: 0,
        size: 1,
        table: at + 1,
        base: at + 1,
        end: at + 2,
    }
}

// The INDEX at a place of a font, any place.
pub fn read_index(font: &[u8], at: usize) -> Result<Index, Refusal>
    ensures { result ≡ index_at font.now at }
{
    let n = font.len();
    if n < 2 {
        return Err(Refusal::Truncated);
    }
    if n - 2 < at {
        return Err(Refusal::Truncated);
    }
    let count = octets::u16_at(font, at);
    if count == 0 {
        return Ok(empty_at(at));
    }
    if n - 2 == at {
        return Err(Refusal::Truncated);
    }
    let size = octets::u8_at(font, at + 2);
    table_at(font, at + 3, count, size)
}

// The k-th offset of an INDEX, of count + 1.
pub fn offset(font: &[u8], ix: Index, k: usize) -> usize
    requires { (Lies (length font.now) ix) × (k ≤ ix.count) }
    ensures { result ≡ offset_of font.now ix k }
{
    let size = ix.size;
    octets::num_at(font, ix.table + k * size, size)
}

// The k-th item of an INDEX: the part of the caller's bytes itself.
pub fn item(font: &[u8], ix: Index, k: usize) -> &[u8]
    requires { (Good font.now ix) × (k < ix.count) }
    ensures { (result.now ≡ get_or (items_of font.now ix) k []) × (StartsAt result font.entry (item_place font.now ix k)) }
{
    let start = ix.base + offset(font, ix, k);
    let end = ix.base + offset(font, ix, k + 1);
    &font[start..end]
}

// How many bytes the items of an INDEX have together.
pub fn items_total(font: &[u8], ix: Index) -> usize
    requires { Good font.now ix }
    ensures { result ≡ total (items_of font.now ix) }
{
    offset(font, ix, ix.count) - offset(font, ix, 0)
}

// The smallest offset size that holds a number.
pub fn offset_size(v: usize) -> usize
    ensures { result ≡ size_for v }
{
    if v < 256 {
        return 1;
    }
    if v < 65536 {
        return 2;
    }
    if v < 16777216 {
        return 3;
    }
    4
}

// How long an INDEX of count items is that have total bytes together, also where it is too long to be written.
pub fn index_len(count: usize, total: usize) -> usize
    requires { (count ≤ 65544) × (total ≤ 281474976710656) }
    ensures { (result ≡ index_len_lem count total) × (result ≤ 281474977000000) }
{
    if count == 0 {
        return 2;
    }
    3 + ((count + 1) * offset_size(total + 1) + total)
}

// Where the parts of an INDEX go that is written at a place: what reading it back will find.
pub fn index_for(at: usize, count: usize, total: usize) -> Index
    requires { (at < 4294967296) × (count < 65536) × (total < 4294967295) }
    ensures { result ≡ index_for_lem at count total }
{
    if count == 0 {
        return empty_at(at);
    }
    let size = offset_size(total + 1);
    let table = at + 3;
    let past = table + (count + 1) * size;
    Index {
        count,
        size,
        table,
        base: past - 1,
        end: past + total,
    }
}

// Writes what stands before the ends of an INDEX: its count and, where there are items, the offset size and the first offset, 1.
pub fn put_head(out: &mut Out<'_>, count: usize, total: usize)
    requires { (total < 4294967295) × (out.old.at + length (head_bytes count (size_for (total + 1))) ≤ length out.old.bytes.now) }
    ensures { Writes out.old (head_bytes count (size_for (total + 1))) out.new }
{
    if count == 0 {
        out.num(0, 2);
        return;
    }
    let size = offset_size(total + 1);
    out.num(count, 2);
    out.num(size, 1);
    out.num(1, size);
}

// Writes an INDEX of one item.
pub fn put_single(out: &mut Out<'_>, item: &[u8])
    requires { (length item.now < 4294967295) × (out.old.at + length (index_bytes (item.now ∷ [])) ≤ length out.old.bytes.now) }
    ensures { Writes out.old (index_bytes (item.now ∷ [])) out.new }
{
    let n = item.len();
    put_head(&mut *out, 1, n);
    out.num(n + 1, offset_size(n + 1));
    out.copy(item);
}

// Stores the offset of item k's end, of an INDEX that is being written: the item ends where the output stands.
pub fn put_end(out: &mut Out<'_>, ix: Index, k: usize)
    requires { (Lies (length out.old.bytes.now) ix) × (k < ix.count) × (ix.base ≤ out.old.at) }
    ensures { Ends out.old ix k out.new }
{
    let size = ix.size;
    let end = out.at - ix.base;
    octets::put_num(&mut *out.bytes, ix.table + (k + 1) * size, end, size);
}

// Copies item k of an INDEX that is being written, and stores the offset of its end.
pub fn put_item(out: &mut Out<'_>, ix: Index, k: usize, item: &[u8])
    requires { (Lies (length out.old.bytes.now) ix) × (k < ix.count) × (ix.base ≤ out.old.at) × (out.old.at + length item.now ≤ length out.old.bytes.now) }
    ensures { WritesItem out.old ix k item.now out.new }
{
    out.copy(item);
    put_end(out, ix, k);
}
