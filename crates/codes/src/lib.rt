// The glyphs of the codes of a custom encoding (TN5176, section 12; document 02, Wish 4), in a table of all codes. Each naming is stored in its turn, so
// that the last glyph that a code names stands there in the end.
#![tactic(auto)]

ghost use Rattle.std.specs.Prelude.{◌≡◌, ◌+◌, ◌*◌, ◌≤◌, ◌<◌, ltb, eqb, length, take, drop, None, Some};
ghost use Rattle.octets.specs.Pick.{pick};
ghost use Rattle.charset.specs.Codes.{codes_from, range_from, ranges_from, supplied_from, namings_at};
ghost use Rattle.find.specs.Find.{glyph_with_text};
ghost use Rattle.cff.specs.Loaded.{program};
ghost use Rattle.subset.specs.Codes.{string_glyph};
ghost use Rattle.codes.specs.Filled.{stored, filled, Fills};

use cff::loaded::Loaded;

// A code names a glyph by its number, of n glyphs: nothing where there is no such code or glyph.
fn name_glyph(table: &mut [Option<usize>; 256], n: usize, code: usize, glyph: usize)
    ensures { table.new ≡ stored table.old code (pick (ltb glyph n) (Some glyph) None) }
{
    if n <= glyph {
        return;
    }
    if 256 <= code {
        return;
    }
    table[code] = Some(glyph);
}

// Format 0: count codes, of the glyphs from 1 on.
fn fill_codes(font: &[u8], at: usize, count: usize, n: usize, table: &mut [Option<usize>; 256])
    requires { (at + count ≤ length font.now) × (count < 256) }
    ensures { Fills n table.old (codes_from 1 (take count (drop at font.now))) table.new }
{
    for (i, code) in font[at..at + count].iter().enumerate() {
        name_glyph(table, n, usize::from(*code), i + 1);
    }
}

// A range of count codes from one on, of the glyphs from one on.
fn fill_range(n: usize, first: usize, from: usize, count: usize, table: &mut [Option<usize>; 256])
    requires { (first < 256) × (from ≤ 65536) × (count ≤ 256) }
    ensures { Fills n table.old (range_from count first from) table.new }
{
    for i in 0..count {
        name_glyph(table, n, first + i, from + i);
    }
}

// Format 1: count ranges, of the glyphs from 1 on; a glyph at a code above 255 counts.
fn fill_ranges(font: &[u8], at: usize, count: usize, n: usize, table: &mut [Option<usize>; 256])
    requires { (at + count * 2 ≤ length font.now) × (count < 256) }
    ensures { Fills n table.old (ranges_from count 1 (drop at font.now)) table.new }
{
    let mut next = 1;
    for i in 0..count {
        let first = octets::u8_at(font, at + 2 * i);
        let many = octets::u8_at(font, at + 2 * i + 1) + 1;
        fill_range(n, first, next, many, table);
        next += many;
    }
}

// The codes or ranges of a format. The kind, 0 or 1, is a number, for an entry has so many bytes and one more.
fn fill_first(
    font: &[u8],
    at: usize,
    kind: usize,
    count: usize,
    n: usize,
    table: &mut [Option<usize>; 256],
)
    requires { (kind ≤ 1) × (at + count * (kind + 1) ≤ length font.now) × (count < 256) }
    ensures { Fills n table.old
        (pick (eqb kind 0) (codes_from 1 (take count (drop at font.now))) (ranges_from count 1 (drop at font.now)))
        table.new }
{
    if kind == 0 {
        return fill_codes(font, at, count, n, table);
    }
    fill_ranges(font, at, count, n, table)
}

// The glyph that finding gives for a text, if it finds one.
fn glyph_of_text(font: &Loaded<'_>, text: &[u8]) -> Option<usize>
    ensures { result ≡ glyph_with_text (program font.now).strings text.now 0 (program font.now).ids }
{
    let sid = strings::sid_of(text);
    find::find_text(&font.ids(), &font.strings(), text, sid)
}

// The glyph that finding gives for the string of an id: past the font's strings the empty one; if it finds one.
fn glyph_of_string(font: &Loaded<'_>, sid: usize) -> Option<usize>
    ensures { result ≡ string_glyph (program font.now) sid }
{
    let text = name_order::text_at(&font.strings(), sid);
    glyph_of_text(font, text)
}

// A code names the glyph of a string.
fn name_string(font: &Loaded<'_>, code: usize, sid: usize, table: &mut [Option<usize>; 256])
    ensures { table.new ≡ stored table.old code (string_glyph (program font.now) sid) }
{
    let n = font.f.charstrings.count;
    let found = glyph_of_string(font, sid);
    match found {
        None => {}
        Some(g) => name_glyph(table, n, code, g),
    }
}

// The supplements: count codes with a string id each.
fn fill_supplements(font: &Loaded<'_>, at: usize, count: usize, table: &mut [Option<usize>; 256])
    requires { at + count * 3 ≤ length font.now.bytes.now }
    ensures { table.new ≡ filled (program font.now) table.old (supplied_from count (drop at font.now.bytes.now)) }
{
    for i in 0..count {
        let code = octets::u8_at(font.bytes, at + 3 * i);
        let sid = octets::u16_at(font.bytes, at + 3 * i + 1);
        name_string(font, code, sid, table);
    }
}

// All that the encoding of a font says, which has one of its own: the codes or ranges, and then the supplements.
fn fill_all(font: &Loaded<'_>, table: &mut [Option<usize>; 256])
    requires { (length font.now.bytes.now ≤ 67108864) × (2 ≤ font.now.f.encoding) }
    ensures { table.new ≡ filled (program font.now) table.old (namings_at font.now.bytes.now font.now.f.encoding) }
{
    let n = font.f.charstrings.count;
    let at = font.f.encoding;
    let format = octets::u8_at(font.bytes, at);
    let kind = format % 128;
    let count = octets::u8_at(font.bytes, at + 1);
    let behind = at + 2 + count * (kind + 1);
    fill_first(font.bytes, at + 2, kind, count, n, table);
    if format / 128 == 0 {
        return;
    }
    fill_supplements(font, behind + 1, octets::u8_at(font.bytes, behind), table)
}

// The same in the first 256 places of a table.
pub fn fill(font: &Loaded<'_>, table: &mut [Option<usize>])
    requires { (length font.now.bytes.now ≤ 67108864) × (2 ≤ font.now.f.encoding) × (256 ≤ length table.old) }
    ensures { table.new ≡ filled (program font.now) table.old (namings_at font.now.bytes.now font.now.f.encoding) }
{
    if let Some(first) = table.first_chunk_mut() {
        fill_all(font, first);
    }
}
