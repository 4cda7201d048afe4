// The charstring of a glyph by the way: its length, and its bytes.
ghost use Rattle.std.specs.Prelude.{◌≡◌, true, ◌+◌, ◌≤◌, ◌<◌, length};
ghost use Rattle.octets.specs.Out.{Writes};
ghost use Rattle.mask_rows.specs.MaskRows.{CoversOrNone, HasOrNone};
ghost use Rattle.mask_rows.specs.SameRoom.{SameRoom};
ghost use Rattle.order_window.specs.Stays.{Stays};
ghost use Rattle.renumber.specs.Turn.{sized_of, body_of_lem};
ghost use Rattle.bodies.specs.Ways.{holds};
ghost use Rattle.bodies.specs.Sizes.{AtMost};
ghost use Rattle.glyph_bodies.specs.Glyphs.{in_order};
ghost use Rattle.glyph_bodies.specs.Written.{glyph_in, written, Bodied};

use crate::charstrings::Charstring;
use bodies::Manner;
use index::Index;
use long_bodies::long_body::LongBody;
use mask_rows::Window;
use mask_rows::lent::Lent;
use octets::out::Out;
use order_window::window::Kept;
use renumber::body::{Body, rows_known};
use unfold::Site;

// The charstrings of a font, and how they are written.
#[derive(Clone, Copy)]
pub struct Source {
    pub how: Manner,
    pub ix: Index,
}

// A glyph, and its FD.
#[derive(Clone, Copy)]
pub struct Glyph {
    pub number: usize,
    pub fd: usize,
}

// The i-th kept glyph. (`word` is inlined: a call for each glyph would take about as long as the copy of a short charstring.)
pub fn glyph_at(kept: &mut Kept<'_>, i: usize) -> Glyph
    requires { i < kept.old.o.count }
    ensures { (result ≡ glyph_in kept.old i) × Stays kept.old kept.new }
{
    let number = kept.word(i) % 65536;
    let fd = charset::fd_select::fd_of(kept.font, kept.o.f.select, number) as usize;
    Glyph { number, fd }
}

// The charstring of a glyph with what its renumbering reads.
fn body_of<'a>(one: &Charstring<'a>) -> Body<'a>
    ensures { Bodied one.now result }
{
    let how = one.from.how;
    let number = one.glyph.number;
    let locals = one.table[one.glyph.fd];
    let code = index::item(one.font, one.from.ix, number);
    let rows = rows_known(one.rows, how.rising);
    let site = Site::Glyph(number as u16);
    Body::new(code, one.words, locals, how.globals, rows, site)
}

// How long the charstring of a glyph is by the way, or that its renumbering fails.
pub fn charstring_len(one: &Charstring<'_>) -> Option<usize>
    ensures { (result ≡ sized_of (written one.now)) × (AtMost 335544320 result) }
{
    let body = body_of(one);
    bodies::body_len(one.from.how.way, &body)
}

// The same charstrings by a record that rises.
fn in_order(from: Source) -> Source
    ensures { result ≡ in_order from }
{
    let ix = from.ix;
    let how = from.how;
    let globals = how.globals;
    let how = Manner {
        way: how.way,
        globals,
        rising: true,
    };
    Source { how, ix }
}

// The same where the glyph has more rows than a window holds.
fn long_len(one: &Charstring<'_>, lent: &mut Lent<'_>) -> Option<usize>
    ensures { (result ≡ sized_of (written one.now)) × (AtMost 335544320 result) × SameRoom lent.old lent.new }
{
    let body = body_of(one);
    let long = LongBody { body: &body };
    bodies::long_body_len(one.from.how.way, &long, lent)
}

// The same by a part of the record that has the rows of the glyph, or by all of it where the part begins behind the glyph; a longer one takes the part's place.
pub fn windowed_len(
    one: &Charstring<'_>,
    masks: Option<Window>,
    lent: &mut Lent<'_>,
) -> Option<usize>
    requires { (CoversOrNone one.now.rows.now lent.old.bytes.now 2 0 masks) × (HasOrNone one.now.glyph.number masks) }
    ensures { (result ≡ sized_of (written one.now)) × (AtMost 335544320 result) × (CoversOrNone one.now.rows.now lent.new.bytes.now 2 0 masks)
        × SameRoom lent.old lent.new }
{
    let Some(masks) = masks else {
        return long_len(one, lent);
    };
    if one.glyph.number < masks.from {
        return charstring_len(one);
    }
    let part = Charstring {
        from: in_order(one.from),
        glyph: one.glyph,
        font: one.font,
        words: one.words,
        table: one.table,
        rows: lent.rows(masks.len),
    };
    charstring_len(&part)
}

// The charstring of a glyph by the way.
pub fn put_charstring(one: &Charstring<'_>, out: &mut Out<'_>)
    requires { (holds (written one.now) ≡ true) × (out.old.at + length (body_of_lem (written one.now)) ≤ length out.old.bytes.now) }
    ensures { Writes out.old (body_of_lem (written one.now)) out.new }
{
    let body = body_of(one);
    bodies::put_body(one.from.how.way, &body, out)
}

// The same where the glyph has more rows than a window holds.
fn put_long(one: &Charstring<'_>, out: &mut Out<'_>, lent: &mut Lent<'_>)
    requires { (holds (written one.now) ≡ true) × (out.old.at + length (body_of_lem (written one.now)) ≤ length out.old.bytes.now) }
    ensures { (Writes out.old (body_of_lem (written one.now)) out.new) × SameRoom lent.old lent.new }
{
    let body = body_of(one);
    let long = LongBody { body: &body };
    bodies::put_long_body(one.from.how.way, &long, out, lent)
}

// The same by a part of the record that has the rows of the glyph, or by all of it where the part begins behind the glyph; a longer one takes the part's place.
pub fn put_windowed(
    one: &Charstring<'_>,
    masks: Option<Window>,
    out: &mut Out<'_>,
    lent: &mut Lent<'_>,
)
    requires { (CoversOrNone one.now.rows.now lent.old.bytes.now 2 0 masks) × (HasOrNone one.now.glyph.number masks)
        × (holds (written one.now) ≡ true) × (out.old.at + length (body_of_lem (written one.now)) ≤ length out.old.bytes.now) }
    ensures { (Writes out.old (body_of_lem (written one.now)) out.new) × (CoversOrNone one.now.rows.now lent.new.bytes.now 2 0 masks)
        × SameRoom lent.old lent.new }
{
    let Some(masks) = masks else {
        return put_long(one, out, lent);
    };
    if one.glyph.number < masks.from {
        return put_charstring(one, out);
    }
    let part = Charstring {
        from: in_order(one.from),
        glyph: one.glyph,
        font: one.font,
        words: one.words,
        table: one.table,
        rows: lent.rows(masks.len),
    };
    put_charstring(&part, out)
}
