// The parts of a CID-keyed subset (document 01, 'Layout'): where they stand, and each written behind the other.
#![tactic(auto)]

pub mod cid;

ghost use Rattle.std.specs.Prelude.{◌≡◌, ◌+◌, ◌≤◌, length};
ghost use Rattle.octets.specs.Octets.{Wrote};
ghost use Rattle.octets.specs.Out.{Writes};
ghost use Rattle.cid_parts.specs.Cid.{places_by, PartsSmall};
ghost use Rattle.cid_parts.specs.Subset.{places_in, subset_in, head_in, glyphs_in, tail_in, EndsIn, Remains};

use crate::cid::CidSubset;
use cff::loaded::Loaded;
use fds::table::FdTable;
use front::CidPlaces;
use octets::out::Out;
use private_dicts::fd_array::FdArray;
use private_dicts::part::NO_PART;

// The places of parts of these lengths: k glyphs have a charset of format 0, and so many FDs Font DICTs, each with a Private of 11 bytes, and
// FontMatrix entries of so many bytes together.
fn place_parts(
    front: usize,
    globals: usize,
    k: usize,
    select: usize,
    glyphs: usize,
    count: usize,
    matrices: usize,
    all: usize,
) -> CidPlaces
    requires { PartsSmall front globals k select glyphs count matrices all }
    ensures { result ≡ places_by front globals k select glyphs count matrices all }
{
    let at1 = front + globals;
    let at2 = at1 + (1 + 2 * (k - 1));
    let at3 = at2 + select;
    let at4 = at3 + glyphs;
    let at5 = at4 + index::index_len(count, matrices + 11 * count);
    CidPlaces {
        charset: at1,
        select: at2,
        glyphs: at3,
        dicts: at4,
        privates: at5,
        end: at5 + all,
    }
}

// Measures the parts of the subset: where they stand.
pub fn places_cid(c: &mut CidSubset<'_>) -> CidPlaces
    ensures { (result ≡ places_in c.old) × (Remains c.old c.new) }
{
    let parts = c.parts;
    let own = parts.cut.own;
    let count = parts.cut.count;
    let r = parts.cut.plan;
    let k = r.order.count;
    let font = Loaded {
        bytes: c.kept.font,
        f: r.order.f,
    };
    let fds = FdTable {
        font,
        used: parts.used,
        table: parts.table,
    };
    let mut measured = [NO_PART; 256];
    let all = fds::parts::part_sizes(r.how.way, &fds, parts.totals, &mut measured);
    let mut listed = [0usize; 256];
    fds::parts::list_used(parts.used, &mut listed);
    let array = FdArray {
        font,
        fds: &listed[..count],
    };
    let matrices = private_dicts::matrices_len(&array);
    let front = front::front_len(true, 0, &font, parts.name.len(), parts.slots, own);
    let globals = parts::globals_len(r);
    let select = glyph_tables::select::select_len(&mut c.kept, parts.used);
    let glyphs = parts::glyphs_len(r);
    place_parts(front, globals, k, select, glyphs, count, matrices, all)
}

// Front, globals and charset, from the start of out on; the place after them.
fn put_head(c: &mut CidSubset<'_>, at: CidPlaces, out: &mut [u8]) -> usize
    requires { (at ≡ places_in c.old) × (at.end ≤ 67108864) × (at.end ≤ length out.old) }
    ensures { (Wrote out.old 0 (head_in c.old) out.new result) × (Remains c.old c.new) }
{
    let parts = c.parts;
    let cut = parts.cut;
    let bytes = c.kept.font;
    let words = c.kept.words;
    let font = Loaded {
        bytes,
        f: cut.plan.order.f,
    };
    let mut to = Out {
        bytes: &mut *out,
        at: 0,
    };
    front::put_front_cid(&font, parts.name, parts.slots, cut.own, at, &mut to);
    parts::put_globals(
        cut.plan,
        bytes,
        parts.used,
        words,
        parts.table,
        parts.rows,
        &mut to,
    );
    glyph_tables::put_charset_cid(&mut c.kept, &mut to);
    to.at
}

// FDSelect and charstrings.
fn put_glyphs(c: &mut CidSubset<'_>, out: &mut Out<'_>)
    requires { (out.old.at + length (glyphs_in c.old) ≤ 67108864) × (out.old.at + length (glyphs_in c.old) ≤ length out.old.bytes.now) }
    ensures { (Writes out.old (glyphs_in c.old) out.new) × (Remains c.old c.new) }
{
    let parts = c.parts;
    let rows = parts.rows;
    let r = parts.cut.plan;
    glyph_tables::select::put_select(&mut c.kept, parts.used, &mut *out);
    glyph_bodies::put_charstrings(&mut c.kept, r.how, parts.table, rows, r.glyphs_total, out)
}

// The FD INDEX and the Private parts, of which the first stands at `from`.
fn put_tail(c: &CidSubset<'_>, from: usize, out: &mut Out<'_>)
    requires { (EndsIn c.now from) × (out.old.at + length (tail_in c.now from) ≤ 67108864) × (out.old.at + length (tail_in c.now from) ≤ length out.old.bytes.now) }
    ensures { Writes out.old (tail_in c.now from) out.new }
{
    let parts = c.parts;
    let cut = parts.cut;
    let how = cut.plan.how;
    let words = c.kept.words;
    let font = Loaded {
        bytes: c.kept.font,
        f: cut.plan.order.f,
    };
    let fds = FdTable {
        font,
        used: parts.used,
        table: parts.table,
    };
    let mut measured = [NO_PART; 256];
    fds::parts::part_sizes(how.way, &fds, parts.totals, &mut measured);
    let mut listed = [0usize; 256];
    fds::parts::list_used(parts.used, &mut listed);
    let array = FdArray {
        font,
        fds: &listed[..cut.count],
    };
    private_dicts::put_font_dicts(&array, &measured, from, &mut *out);
    fds::privates::put_privates(how, &fds, words, parts.totals, parts.rows, out)
}

// The subset, from the start of out on; the place after it.
pub fn put_parts(c: &mut CidSubset<'_>, at: CidPlaces, out: &mut [u8]) -> usize
    requires { (at ≡ places_in c.old) × (at.end ≤ 67108864) × (at.end ≤ length out.old) }
    ensures { (Wrote out.old 0 (subset_in c.old) out.new result) × (Remains c.old c.new) }
{
    let p = put_head(&mut *c, at, &mut *out);
    let mut to = Out {
        bytes: &mut *out,
        at: p,
    };
    put_glyphs(&mut *c, &mut to);
    put_tail(&*c, at.privates, &mut to);
    to.at
}
