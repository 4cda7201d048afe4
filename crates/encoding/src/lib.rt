// The encoding of a subset (document 02, Wish 4), from the codes of the font and the new ids of the kept glyphs: made in a table of all codes, measured
// and written. The kept glyphs come from windows of their order (document 02, Wish 10), once for all codes.
#![tactic(auto)]

pub mod numbered;

ghost use Rattle.std.specs.Prelude.{◌≡◌, ◌+◌, ◌≤◌, ◌<◌, length, take};
ghost use Rattle.octets.specs.Out.{Writes};
ghost use Rattle.cff.specs.Reads.{program_of};
ghost use Rattle.subset.specs.Codes.{coded_by_lem, coded_if, coded_bytes, pair_bytes};
ghost use Rattle.order_window.specs.Stays.{kept_glyphs, Stays};
ghost use Rattle.encoding.specs.Encoded.{pairs_of, pair_in, pairs_in, coded_in, Encodes, encoding_len, offset_for, own_kept, CanRename, Past, Puts, Renames};

use cff::loaded::Loaded;
use index::items::Items;
use name_strings::slots::GivenSlots;
use octets::out::Out;
use order_window::window::Kept;
use own_strings::slots::Slot;

// What a subset has: no encoding, the Expert one, or so many pairs of a table.
#[derive(Clone, Copy)]
pub enum Encoding {
    Absent,
    Expert,
    Pairs(usize),
}

impl Encoding {
    // How many pairs it has.
    pub fn pairs(self) -> usize
        ensures { result ≡ pairs_of self }
    {
        match self {
            Encoding::Absent => 0,
            Encoding::Expert => 0,
            Encoding::Pairs(n) => n,
        }
    }
}

// The last glyph that has a code, or 0.
fn last_coded(named: &[Option<usize>; 256]) -> usize
    ensures { Past named.now 256 (result + 1) }
{
    let mut last = 0;
    for glyph in named {
        if let Some(g) = *glyph {
            last = last.max(g);
        }
    }
    last
}

// Puts the new id of a glyph into the places of its codes, the last glyph that has one being given.
fn put_id(
    named: &[Option<usize>; 256],
    last: usize,
    glyph: usize,
    id: usize,
    table: &mut [Option<usize>; 256],
)
    requires { Past named.now 256 (last + 1) }
    ensures { Puts named.now table.old glyph id table.new }
{
    if last < glyph {
        return;
    }
    for (code, held) in table.iter_mut().enumerate() {
        if named[code] == Some(glyph) {
            *held = Some(id);
        }
    }
}

// The table of all codes, from the one of their glyphs: each kept glyph in its turn, with the new id of its name. (That the ids fit two bytes is tested
// by by_name.)
fn rename(
    kept: &mut Kept<'_>,
    slots: &[Slot],
    named: &[Option<usize>; 256],
    table: &mut [Option<usize>; 256],
)
    requires { CanRename kept.old.font.now kept.old.o.f kept.old.words.now (take 8 slots.now) }
    ensures { (Renames (program_of kept.old.font.now kept.old.o.f) (own_kept kept.old) (kept_glyphs kept.old) named.now table.new)
        × (Stays kept.old kept.new) × Past table.new 256 4294967296 }
{
    let font = kept.font;
    let strings = Items {
        bytes: font,
        ix: kept.o.f.strings,
    };
    *table = [None; 256];
    let last = last_coded(named);
    let given = GivenSlots { strings, slots };
    let mut own = name_strings::slots_own(&given);
    for i in 0..kept.o.count {
        let w = kept.word(i);
        let id = own_strings::given_id(&strings, &slots[..8], own.count, Some(w / 65536));
        own = own_strings::count_one(&strings, own, w / 65536, id);
        put_id(named, last, w % 65536, id, &mut *table);
    }
}

// How many pairs the table holds.
fn pair_count(table: &[Option<usize>; 256]) -> usize
    ensures { (result ≡ length (pairs_in table.now 256 0)) × (result ≤ 256) }
{
    table.iter().filter(|held| held.is_some()).count()
}

// The encoding of the subset of a name-keyed font, which was asked for.
fn encode_asked(kept: &mut Kept<'_>, slots: &[Slot], table: &mut [Option<usize>; 256]) -> Encoding
    requires { CanRename kept.old.font.now kept.old.o.f kept.old.words.now (take 8 slots.now) }
    ensures { (Encodes
        (coded_by_lem (program_of kept.old.font.now kept.old.o.f) (kept_glyphs kept.old) (own_kept kept.old)
        (program_of kept.old.font.now kept.old.o.f).coding)
        table.new result)
        × (Stays kept.old kept.new) × (length table.new ≡ 256) × (Past table.old 256 4294967296 → Past table.new 256 4294967296) }
{
    let f = kept.o.f;
    let at = f.encoding;
    if at == 0 {
        return Encoding::Absent;
    }
    if at == 1 {
        return Encoding::Expert;
    }
    let mut named = [None; 256];
    codes::fill(
        &Loaded {
            bytes: kept.font,
            f,
        },
        &mut named,
    );
    rename(kept, slots, &named, &mut *table);
    Encoding::Pairs(pair_count(&*table))
}

// The encoding of the subset of a name-keyed font, where it is asked for: of the kept glyphs by the new ids of their names, the slots holding the strings
// that the subset uses before them. The table holds ids of at most four bytes, if it did.
pub fn encode(
    kept: &mut Kept<'_>,
    ask: bool,
    slots: &[Slot],
    table: &mut [Option<usize>],
) -> Encoding
    requires { CanRename kept.old.font.now kept.old.o.f kept.old.words.now (take 8 slots.now) × (256 ≤ length table.old) }
    ensures { (Encodes (coded_if ask (program_of kept.old.font.now kept.old.o.f) (kept_glyphs kept.old) (own_kept kept.old)) table.new result)
        × (Stays kept.old kept.new) × (Past table.old 256 4294967296 → Past table.new 256 4294967296) }
{
    let Some(first) = table.first_chunk_mut() else {
        unreachable!()
    };
    if ask {
        return encode_asked(kept, slots, first);
    }
    Encoding::Absent
}

// How many bytes it has.
pub fn encoding_len(e: Encoding) -> usize
    requires { pairs_of e ≤ 256 }
    ensures { (result ≡ encoding_len e) × (result ≤ 771) }
{
    match e {
        Encoding::Absent => 0,
        Encoding::Expert => 0,
        Encoding::Pairs(n) => 3 + 3 * n,
    }
}

// Its offset, its bytes standing at a place.
pub fn encoding_at(e: Encoding, at: usize) -> usize
    ensures { result ≡ offset_for e at }
{
    match e {
        Encoding::Absent => 0,
        Encoding::Expert => 1,
        Encoding::Pairs(_) => at,
    }
}

// Writes the pair of a code, if there is one.
fn put_one(code: usize, held: Option<usize>, out: &mut Out<'_>)
    requires { (code < 256) × (out.old.at + length (pair_bytes (pair_in code held)) ≤ length out.old.bytes.now) }
    ensures { Writes out.old (pair_bytes (pair_in code held)) out.new }
{
    match held {
        None => {}
        Some(id) => {
            out.byte(code as u8);
            out.num(id, 2);
        }
    }
}

// Writes all pairs of the table, codes rising.
fn put_pairs(table: &[Option<usize>], out: &mut Out<'_>)
    requires { (length table.now ≡ 256) × (out.old.at + length (pair_bytes (pairs_in table.now 256 0)) ≤ length out.old.bytes.now) }
    ensures { Writes out.old (pair_bytes (pairs_in table.now 256 0)) out.new }
{
    for (code, &held) in table.iter().enumerate() {
        put_one(code, held, &mut *out);
    }
}

// Writes the encoding. Nothing is written for the predefined ones.
pub fn put_encoding(e: Encoding, table: &[Option<usize>], out: &mut Out<'_>)
    requires { Encodes (coded_in e table.now) table.now e × (pairs_of e ≤ 255)
        × (out.old.at + length (coded_bytes (coded_in e table.now)) ≤ length out.old.bytes.now) × (256 ≤ length table.now) }
    ensures { Writes out.old (coded_bytes (coded_in e table.now)) out.new }
{
    match e {
        Encoding::Absent => {}
        Encoding::Expert => {}
        Encoding::Pairs(n) => {
            out.pair(0x80, 0);
            out.byte(n as u8);
            put_pairs(&table[..256], out);
        }
    }
}
