// The top DICT of a subset, measured first and then written, and the INDEX that holds it alone (the Rust's subset and subset_cid).
// What stands before the offsets is one walk: its sink counts or writes.
#![tactic(auto)]

pub mod offsets;
pub mod top;

ghost use Rattle.std.specs.Prelude.{◌≡◌, true, false, [], ◌∷◌, ◌+◌, ◌≤◌, ◌<◌, length};
ghost use Rattle.octets.specs.Out.{Writes};
ghost use Rattle.decimal.specs.Decimal.{normal};
ghost use Rattle.decimal.specs.Written.{number_bytes};
ghost use Rattle.dict.specs.Op.{is_operator, cid_count, copied_top_entries};
ghost use Rattle.dict.specs.Lookup.{ros_in, cid_count_in};
ghost use Rattle.dict.specs.Held.{entries};
ghost use Rattle.index.specs.Write.{index_bytes};
ghost use Rattle.subset.specs.Codes.{encoding_entry};
ghost use Rattle.subset.specs.Subset.{copied_bytes};
ghost use Rattle.top_dict.specs.Top.{Filled, value_entry, slot_entry, string_entries, ids_bytes, ros_of, carried, code_offsets, named_offsets, glyph_offsets, cid_offsets, top_named, cid_front, top_cid, encoding_len, top_len, single_head};

use crate::offsets::{CidOffsets, NamedOffsets};
use crate::top::Top;
use decimal::whole;
use dict::op::{Op, copied_top_entry, copied_top_string};
use dict::placed::Dict;
use dict_write::sink::{Count, Sink};
use dict_write::{copied, put_offset_entry, put_private_entry};
use octets::out::Out;
use own_strings::slots::Slot;

// An integer.
fn integer<S: Sink>(neg: bool, n: usize, to: &mut S)
    requires { (n < 1000000000000000) × S.room to.old (number_bytes (normal neg n 0 0)) }
    ensures { S.takes to.old (number_bytes (normal neg n 0 0)) to.new }
{
    to.number(whole(neg, n));
}

// An entry of one number.
fn value<S: Sink>(op: usize, n: usize, to: &mut S)
    requires { S.allows op × (n < 1000000000000000) × S.room to.old (value_entry op n) }
    ensures { S.takes to.old (value_entry op n) to.new }
{
    integer(false, n, &mut *to);
    to.op(op);
}

// The string entry of slot j, where there is one.
fn slot<S: Sink>(slots: &[Slot; 8], j: usize, op: usize, to: &mut S)
    requires { (j < 8) × S.allows op × S.room to.old (slot_entry slots.now j op) × Filled slots.now }
    ensures { S.takes to.old (slot_entry slots.now j op) to.new }
{
    match slots[j].sid {
        None => {}
        Some(_) => value(op, slots[j].id, to),
    }
}

// The six string entries.
fn strings<S: Sink>(slots: &[Slot; 8], to: &mut S)
    requires { S.room to.old (string_entries slots.now) × Filled slots.now }
    ensures { S.takes to.old (string_entries slots.now) to.new }
{
    for k in 0..6 {
        slot(slots, 2 + k, copied_top_string(k), &mut *to);
    }
}

// The entries that are copied as they are.
fn copied_entries<S: Sink>(d: &Dict<'_>, to: &mut S)
    requires { S.room to.old (copied_bytes (entries d.now) copied_top_entries) }
    ensures { S.takes to.old (copied_bytes (entries d.now) copied_top_entries) to.new }
{
    for k in 0..6 {
        copied(d, copied_top_entry(k), &mut *to);
    }
}

// The entries that both keyings carry over.
fn carried<S: Sink>(top: &Top<'_>, to: &mut S)
    requires { S.room to.old (carried (entries top.now.dict) top.now.slots.now) }
    ensures { S.takes to.old (carried (entries top.now.dict) top.now.slots.now) to.new }
{
    strings(top.slots, &mut *to);
    copied_entries(&top.dict, to);
}

// The new ids of registry and ordering.
fn ros_ids<S: Sink>(slots: &[Slot; 8], to: &mut S)
    requires { S.room to.old (ids_bytes slots.now) × Filled slots.now }
    ensures { S.takes to.old (ids_bytes slots.now) to.new }
{
    let registry = slots[0].id;
    let ordering = slots[1].id;
    integer(false, registry, &mut *to);
    integer(false, ordering, to);
}

// ROS.
fn ros<S: Sink>(top: &Top<'_>, to: &mut S)
    requires { S.room to.old (ros_of top.now.slots.now (ros_in (entries top.now.dict))) }
    ensures { S.takes to.old (ros_of top.now.slots.now (ros_in (entries top.now.dict))) to.new }
{
    match top.dict.ros() {
        None => {}
        Some(entry) => {
            ros_ids(top.slots, &mut *to);
            integer(entry.supplement.neg, entry.supplement.size, &mut *to);
            to.op(Op::ROS);
        }
    }
}

// CIDCount.
fn count<S: Sink>(d: &Dict<'_>, to: &mut S)
    requires { S.room to.old (value_entry cid_count (cid_count_in (entries d.now))) }
    ensures { S.takes to.old (value_entry cid_count (cid_count_in (entries d.now))) to.new }
{
    value(Op::CID_COUNT, d.cid_count(), to);
}

// What a CID-keyed subset's top DICT holds before its offsets.
fn cid_front<S: Sink>(top: &Top<'_>, to: &mut S)
    requires { S.room to.old (cid_front (entries top.now.dict) top.now.slots.now) }
    ensures { S.takes to.old (cid_front (entries top.now.dict) top.now.slots.now) to.new }
{
    ros(top, &mut *to);
    carried(top, &mut *to);
    count(&top.dict, to);
}

// How many bytes the Encoding's entry takes: none for offset 0, the standard encoding.
fn encoding_len(v: usize) -> usize
    ensures { (result ≡ encoding_len v) × (result ≤ 6) }
{
    if v == 0 {
        return 0;
    }
    6
}

// The length of the top DICT, whatever its offsets are: 23 bytes for those of a name-keyed subset and 6 for its Encoding, 26 for those of a
// CID-keyed one.
pub fn top_len(cid: bool, v: usize, top: &Top<'_>) -> usize
    ensures { (result ≡ top_len cid v (entries top.now.dict) top.now.slots.now) × (result ≤ 60000001058) }
{
    let mut sum = Count { len: 0 };
    if cid {
        cid_front(top, &mut sum);
        return sum.len + 26;
    }
    carried(top, &mut sum);
    sum.len + 23 + encoding_len(v)
}

// The Encoding's entry.
fn put_encoding_entry(v: usize, out: &mut Out<'_>)
    requires { (v < 2147483648) × (out.old.at + length (encoding_entry v) ≤ length out.old.bytes.now) }
    ensures { Writes out.old (encoding_entry v) out.new }
{
    if v == 0 {
        return;
    }
    put_offset_entry(Op::ENCODING, v, out)
}

// The offsets of charset and Encoding.
fn put_code_offsets(to: NamedOffsets, out: &mut Out<'_>)
    requires { out.old.at + length (code_offsets to.charset to.encoding) ≤ length out.old.bytes.now }
    ensures { Writes out.old (code_offsets to.charset to.encoding) out.new }
{
    put_offset_entry(Op::CHARSET, to.charset, &mut *out);
    put_encoding_entry(to.encoding, out)
}

// The offsets of a name-keyed subset.
fn put_named_offsets(to: NamedOffsets, out: &mut Out<'_>)
    requires { out.old.at + length (named_offsets to.charset to.encoding to.charstrings to.size to.private) ≤ length out.old.bytes.now }
    ensures { Writes out.old (named_offsets to.charset to.encoding to.charstrings to.size to.private) out.new }
{
    put_code_offsets(to, &mut *out);
    put_offset_entry(Op::CHARSTRINGS, to.charstrings, &mut *out);
    put_private_entry(to.size, to.private, out)
}

// The first two offsets of a CID-keyed subset.
fn put_glyph_offsets(to: CidOffsets, out: &mut Out<'_>)
    requires { out.old.at + length (glyph_offsets to.charset to.select) ≤ length out.old.bytes.now }
    ensures { Writes out.old (glyph_offsets to.charset to.select) out.new }
{
    put_offset_entry(Op::CHARSET, to.charset, &mut *out);
    put_offset_entry(Op::FD_SELECT, to.select, out)
}

// The offsets of a CID-keyed subset.
fn put_cid_offsets(to: CidOffsets, out: &mut Out<'_>)
    requires { out.old.at + length (cid_offsets to.charset to.select to.glyphs to.dicts) ≤ length out.old.bytes.now }
    ensures { Writes out.old (cid_offsets to.charset to.select to.glyphs to.dicts) out.new }
{
    put_glyph_offsets(to, &mut *out);
    put_offset_entry(Op::CHARSTRINGS, to.glyphs, &mut *out);
    put_offset_entry(Op::FD_ARRAY, to.dicts, out)
}

// The top DICT of a name-keyed subset.
fn put_top_named(top: &Top<'_>, to: NamedOffsets, out: &mut Out<'_>)
    requires { out.old.at + length (top_named (entries top.now.dict) top.now.slots.now to.charset to.encoding to.charstrings to.size to.private) ≤ length out.old.bytes.now }
    ensures { Writes out.old (top_named (entries top.now.dict) top.now.slots.now to.charset to.encoding to.charstrings to.size to.private) out.new }
{
    carried(top, &mut *out);
    put_named_offsets(to, out)
}

// The top DICT of a CID-keyed subset.
fn put_top_cid(top: &Top<'_>, to: CidOffsets, out: &mut Out<'_>)
    requires { out.old.at + length (top_cid (entries top.now.dict) top.now.slots.now to.charset to.select to.glyphs to.dicts) ≤ length out.old.bytes.now }
    ensures { Writes out.old (top_cid (entries top.now.dict) top.now.slots.now to.charset to.select to.glyphs to.dicts) out.new }
{
    cid_front(top, &mut *out);
    put_cid_offsets(to, out)
}

// What stands before the item of an INDEX of one item of n bytes.
fn put_single_head(n: usize, out: &mut Out<'_>)
    requires { (n < 4294967295) × (out.old.at + length (single_head n) ≤ length out.old.bytes.now) }
    ensures { Writes out.old (single_head n) out.new }
{
    index::put_head(&mut *out, 1, n);
    out.num(n + 1, index::offset_size(n + 1))
}

// The INDEX of the top DICT of a name-keyed subset.
pub fn put_named_index(top: &Top<'_>, to: NamedOffsets, out: &mut Out<'_>)
    requires { (top_len false to.encoding (entries top.now.dict) top.now.slots.now < 4294967295)
        × (out.old.at + length (index_bytes (top_named (entries top.now.dict) top.now.slots.now to.charset to.encoding to.charstrings to.size to.private ∷ [])) ≤ length out.old.bytes.now) }
    ensures { Writes out.old (index_bytes (top_named (entries top.now.dict) top.now.slots.now to.charset to.encoding to.charstrings to.size to.private ∷ [])) out.new }
{
    let n = top_len(false, to.encoding, top);
    put_single_head(n, &mut *out);
    put_top_named(top, to, out)
}

// The INDEX of the top DICT of a CID-keyed subset.
pub fn put_cid_index(top: &Top<'_>, to: CidOffsets, out: &mut Out<'_>)
    requires { (top_len true 0 (entries top.now.dict) top.now.slots.now < 4294967295)
        × (out.old.at + length (index_bytes (top_cid (entries top.now.dict) top.now.slots.now to.charset to.select to.glyphs to.dicts ∷ [])) ≤ length out.old.bytes.now) }
    ensures { Writes out.old (index_bytes (top_cid (entries top.now.dict) top.now.slots.now to.charset to.select to.glyphs to.dicts ∷ [])) out.new }
{
    let n = top_len(true, 0, top);
    put_single_head(n, &mut *out);
    put_top_cid(top, to, out)
}
