// The front of a subset (document 01, 'Layout'; the Rust's subset and subset_cid): its strings prepared, and header, names, top DICT and
// strings measured and written.
#![tactic(auto)]

ghost use Rattle.std.specs.Prelude.{◌≡◌, true, false, [], ◌∷◌, ◌++◌, ◌+◌, ◌≤◌, ◌<◌, length, take};
ghost use Rattle.octets.specs.Out.{Writes};
ghost use Rattle.index.specs.Write.{index_bytes};
ghost use Rattle.cff.specs.Loaded.{program};
ghost use Rattle.subset.specs.Subset.{own_by_name, top_by_name, own_by_cid, top_by_cid};
ghost use Rattle.order_window.specs.Stays.{kept_glyphs, Stays};
ghost use Rattle.own_strings.specs.Slots.{own_of, slots_own};
ghost use Rattle.name_strings.specs.Names.{NamesApart};
ghost use Rattle.top_dict.specs.Top.{Offsets};
ghost use Rattle.front.specs.Front.{kept_program, SlotsReady, Measured, front_len, header_bytes, front_bytes, NamedFront, CidFront};

use cff::loaded::Loaded;
use name_strings::slots::GivenSlots;
use name_strings::{count_names, put_slot_strings, put_strings};
use octets::out::Out;
use order_window::window::Kept;
use own_strings::slots::Slot;
use own_strings::{Own, put_slot_ids, put_slots};
use top_dict::offsets::{CidOffsets, NamedOffsets};
use top_dict::top::Top;
use top_dict::{put_cid_index, put_named_index, top_len};

// The string ids of the top DICT given new ones, by the keying of the subset: eight slots; the own strings so far.
fn prepare_slots(font: &Loaded<'_>, cid: bool, slots: &mut [Slot]) -> Own
    requires { (length font.now.bytes.now ≤ 67108864) × (8 ≤ length slots.old) }
    ensures { (SlotsReady (program font.now) cid (take 8 slots.new))
        × (result ≡ own_of (slots_own (program font.now).strings (take 8 slots.new))) }
{
    let top = font.f.top;
    let end = font.f.top_end;
    put_slots(&font.bytes[top..end], cid, &mut *slots);
    put_slot_ids(&font.strings(), slots)
}

// The string ids of the top DICT given new ones: eight slots; the own strings of a name-keyed subset, those of the names of the kept glyphs among them.
pub fn prepare_named(kept: &mut Kept<'_>, slots: &mut [Slot]) -> Own
    requires { (length kept.old.font.now ≤ 67108864) × (NamesApart kept.old.font.now kept.old.o.f kept.old.words.now) × (8 ≤ length slots.old) }
    ensures { (Measured (own_by_name (kept_program kept.old) (kept_glyphs kept.old)) result)
        × (SlotsReady (kept_program kept.old) false (take 8 slots.new)) × (Stays kept.old kept.new) }
{
    let font = Loaded {
        bytes: kept.font,
        f: kept.o.f,
    };
    let own = prepare_slots(&font, false, &mut *slots);
    count_names(kept, &*slots, own)
}

// The string ids of the top DICT given new ones: eight slots; the own strings of a CID-keyed subset.
pub fn prepare_cid(font: &Loaded<'_>, slots: &mut [Slot]) -> Own
    requires { (length font.now.bytes.now ≤ 67108864) × (8 ≤ length slots.old) }
    ensures { (Measured (own_by_cid (program font.now)) result)
        × (SlotsReady (program font.now) true (take 8 slots.new)) }
{
    prepare_slots(font, true, slots)
}

// The length of the front for an Encoding at v, which is 0 or not, and a new name of so many bytes, whatever the offsets are.
pub fn front_len(
    cid: bool,
    v: usize,
    font: &Loaded<'_>,
    name: usize,
    slots: &[Slot],
    own: Own,
) -> usize
    requires { (length font.now.bytes.now ≤ 67108864) × (SlotsReady (program font.now) cid (take 8 slots.now)) × (name ≤ 65535)
        × (own.count ≤ 65544) × (own.total ≤ 4398583382016) }
    ensures { (result ≡ front_len cid v (program font.now).top (take 8 slots.now) name own) × (result ≤ 844424931000004) }
{
    let start = font.f.top;
    let end = font.f.top_end;
    let count = own.count;
    let total = own.total;
    let top = Top::read(&font.bytes[start..end], slots);
    let n = top_len(cid, v, &top);
    4 + index::index_len(1, name) + index::index_len(1, n) + index::index_len(count, total)
}

// The header of a subset of total bytes and the INDEX of its name.
fn put_names(name: &[u8], total: usize, out: &mut Out<'_>)
    requires { (length name.now ≤ 65535) × (out.old.at + length (header_bytes total ++ index_bytes (name.now ∷ [])) ≤ length out.old.bytes.now) }
    ensures { Writes out.old (header_bytes total ++ index_bytes (name.now ∷ [])) out.new }
{
    out.pair(1, 0);
    out.pair(4, index::offset_size(total) as u8);
    index::put_single(out, name);
}

// Where charset, charstrings and Private of a name-keyed subset stand, the Encoding's offset, the size of the Private DICT, and the length of the subset.
// (The offset is the number that the top DICT has, of which 0 and 1 mean the predefined encodings: TN5176, section 12.)
#[derive(Clone, Copy)]
pub struct NamedPlaces {
    pub charset: usize,
    pub encoding: usize,
    pub charstrings: usize,
    pub size: usize,
    pub private: usize,
    pub end: usize,
}

// The front of a name-keyed subset with these places, from the start of the output on.
pub fn put_front_named(
    kept: &mut Kept<'_>,
    name: &[u8],
    slots: &[Slot],
    own: Own,
    at: NamedPlaces,
    out: &mut Out<'_>,
)
    requires { (NamedFront kept.old.font.now kept.old.o.f at.encoding (take 8 slots.now) own kept.old.words.now (length name.now) (length out.old.bytes.now))
        × (Offsets at.charset at.charstrings at.size at.private) × (at.encoding < 2147483648) × (out.old.at ≡ 0) }
    ensures { (Writes out.old
        (front_bytes at.end name.now
        (top_by_name (kept_program kept.old) (own_by_name (kept_program kept.old) (kept_glyphs kept.old))
        at.charset at.encoding at.charstrings at.size at.private)
        (own_by_name (kept_program kept.old) (kept_glyphs kept.old)))
        out.new) × (Stays kept.old kept.new) }
{
    let font = kept.font;
    let start = kept.o.f.top;
    let end = kept.o.f.top_end;
    let top = Top::read(&font[start..end], slots);
    let offsets = NamedOffsets {
        charset: at.charset,
        encoding: at.encoding,
        charstrings: at.charstrings,
        size: at.size,
        private: at.private,
    };
    put_names(name, at.end, &mut *out);
    put_named_index(&top, offsets, &mut *out);
    put_strings(kept, slots, own, out);
}

// Where charset, FDSelect, charstrings, the FD INDEX and the Private parts of a CID-keyed subset stand; and where all ends.
#[derive(Clone, Copy)]
pub struct CidPlaces {
    pub charset: usize,
    pub select: usize,
    pub glyphs: usize,
    pub dicts: usize,
    pub privates: usize,
    pub end: usize,
}

// The front of a CID-keyed subset with these places, from the start of the output on.
pub fn put_front_cid(
    font: &Loaded<'_>,
    name: &[u8],
    slots: &[Slot],
    own: Own,
    at: CidPlaces,
    out: &mut Out<'_>,
)
    requires { (CidFront font.now.bytes.now font.now.f (take 8 slots.now) own (length name.now) (length out.old.bytes.now)) × (Offsets at.charset at.select at.glyphs at.dicts)
        × (out.old.at ≡ 0) }
    ensures { Writes out.old
        (front_bytes at.end name.now
        (top_by_cid (program font.now) (own_by_cid (program font.now)) at.charset at.select at.glyphs at.dicts)
        (own_by_cid (program font.now)))
        out.new }
{
    let start = font.f.top;
    let end = font.f.top_end;
    let top = Top::read(&font.bytes[start..end], slots);
    let offsets = CidOffsets {
        charset: at.charset,
        select: at.select,
        glyphs: at.glyphs,
        dicts: at.dicts,
    };
    let strings = font.strings();
    let given = GivenSlots { strings, slots };
    put_names(name, at.end, &mut *out);
    put_cid_index(&top, offsets, &mut *out);
    put_slot_strings(&given, own, out);
}
