// The parts of a name-keyed subset (document 01, 'Layout'): where they stand, and each written behind the other.
#![tactic(auto)]

pub mod named;

ghost use Rattle.std.specs.Prelude.{◌+◌, ◌≤◌, length};
ghost use Rattle.octets.specs.Octets.{Wrote};
ghost use Rattle.octets.specs.Out.{Writes};
ghost use Rattle.named_parts.specs.Named.{NamedReady};
ghost use Rattle.named_parts.specs.Subset.{tables_in, glyphs_in, subset_in, PlacedBy, PlacedIn, Remains};

use crate::named::NamedSubset;
use cff::loaded::Loaded;
use encoding::{Encoding, encoding_at, encoding_len, put_encoding};
use fds::table::FdTable;
use front::NamedPlaces;
use octets::out::Out;
use outcome::tables::Parts;
use parts::{globals_len, glyphs_len, put_globals};
use private_dicts::part::NO_PART;

// Charset and encoding.
fn put_tables(c: &mut NamedSubset<'_>, out: &mut Out<'_>)
    requires { out.old.at + length (tables_in c.old) ≤ length out.old.bytes.now }
    ensures { (Writes out.old (tables_in c.old) out.new) × (Remains c.old c.new) }
{
    let slots = c.parts.slots;
    name_strings::put_charset_named(&mut c.kept, slots, &mut *out);
    put_encoding(c.encoding, c.codes, out)
}

// Charstrings and Private.
fn put_glyphs(c: &mut NamedSubset<'_>, out: &mut Out<'_>)
    requires { (out.old.at + length (glyphs_in c.old) ≤ 67108864) × (out.old.at + length (glyphs_in c.old) ≤ length out.old.bytes.now) }
    ensures { (Writes out.old (glyphs_in c.old) out.new) × (Remains c.old c.new) }
{
    let parts = c.parts;
    let rows = parts.rows;
    let r = parts.cut.plan;
    let how = r.how;
    let words = c.kept.words;
    let font = Loaded {
        bytes: c.kept.font,
        f: r.order.f,
    };
    let fds = FdTable {
        font,
        used: parts.used,
        table: parts.table,
    };
    glyph_bodies::put_charstrings(
        &mut c.kept,
        how,
        parts.table,
        rows,
        r.glyphs_total,
        &mut *out,
    );
    fds::privates::put_privates(how, &fds, words, parts.totals, rows, out)
}

// The subset in the front of the output; the place after it.
pub fn put_named(c: &mut NamedSubset<'_>, at: NamedPlaces, out: &mut [u8]) -> usize
    requires { (PlacedIn c.old at) × (at.end ≤ 67108864) × (at.end ≤ length out.old) }
    ensures { (Wrote out.old 0 (subset_in c.old) out.new result) × (Remains c.old c.new) }
{
    let parts = c.parts;
    let cut = parts.cut;
    let font = c.kept.font;
    let words = c.kept.words;
    let mut to = Out {
        bytes: &mut *out,
        at: 0,
    };
    front::put_front_named(&mut c.kept, parts.name, parts.slots, cut.own, at, &mut to);
    put_globals(
        cut.plan,
        font,
        parts.used,
        words,
        parts.table,
        parts.rows,
        &mut to,
    );
    put_tables(&mut *c, &mut to);
    put_glyphs(c, &mut to);
    to.at
}

// Measures the parts of the subset: where they stand. (It takes no `NamedSubset`, whose window it does not read. Of the words, which have the bits that
// the plan goes by, and of the codes only the contract speaks.)
pub fn places_named(
    font: &[u8],
    words: &[u32],
    parts: &Parts<'_>,
    encoding: Encoding,
    codes: &[Option<usize>],
) -> NamedPlaces
    requires { NamedReady font.now words.now parts.now.cut.plan.order parts.now encoding codes.now }
    ensures { PlacedBy font.now words.now parts.now encoding codes.now result }
{
    let own = parts.cut.own;
    let r = parts.cut.plan;
    let font = Loaded {
        bytes: font,
        f: r.order.f,
    };
    let fds = FdTable {
        font,
        used: parts.used,
        table: parts.table,
    };
    let mut measured = [NO_PART; 256];
    let privates = fds::parts::part_sizes(r.how.way, &fds, parts.totals, &mut measured);
    let v = encoding_at(encoding, 1);
    let front = front::front_len(false, v, &font, parts.name.len(), parts.slots, own);
    let charset = front + globals_len(r);
    let codes = charset + (1 + 2 * (r.order.count - 1));
    let charstrings = codes + encoding_len(encoding);
    let private = charstrings + glyphs_len(r);
    let size = measured[0].size;
    let end = private + privates;
    NamedPlaces {
        charset,
        encoding: encoding_at(encoding, codes),
        charstrings,
        size,
        private,
        end,
    }
}
