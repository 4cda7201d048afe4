// The numbers that a font gives each glyph: its string id or CID (the charset, here), its font dictionary (`fd_select`), and the checks of
// its code (`encoding`). Tables are read in place, with positions by value; a pass over all glyphs goes by a cursor.
#![tactic(auto)]

pub mod encoding;
pub mod fd_select;
pub mod fd_writer;
pub mod ids;
pub mod iter;

ghost use Rattle.std.specs.Prelude.{◌≡◌, ◌+◌, ◌≤◌, ◌<◌, length, drop, get_or, Ok};
ghost use Rattle.charset.specs.Listed.{numbers_of};
ghost use Rattle.charset.specs.Charset.{ids_from, charset_at};
ghost use Rattle.charset.specs.Ids.{ids};
ghost use Rattle.charset.specs.CharsetPlaces.{table_at, predefined, charset_answer, charset_start, next_id, ReadyId};

use ids::Ids;
use refusal::Refusal;

// A charset of a font: the first `own` glyphs have their own numbers as ids, glyph 0 alone where there is a table, all of them where the
// charset is the predefined one; the others stand in ranges from `at` on, whose nLeft has `width` bytes.
#[derive(Clone, Copy)]
pub struct Charset {
    pub own: usize,
    pub width: usize,
    pub at: usize,
}

// A place between two glyphs: the range under way, with its next id and how many ids are left in it, and where the next range stands.
#[derive(Clone, Copy)]
pub struct CharsetCursor {
    pub id: usize,
    pub left: usize,
    pub width: usize,
    pub at: usize,
}

// A glyph's id, and the cursor behind the glyph.
#[derive(Clone, Copy)]
pub struct IdStep {
    pub id: usize,
    pub next: CharsetCursor,
}

// The predefined charset ISOAdobe.
pub fn predefined() -> Charset
    ensures { result ≡ predefined }
{
    Charset {
        own: 65536,
        width: 0,
        at: 0,
    }
}

// Checks the ranges of a charset for count glyphs: each range is there, and no id of them is above 65535.
fn check_ranges(font: &[u8], c: Charset, count: u16) -> Result<Charset, Refusal>
    requires { (c.width ≤ 2) × (c.at ≤ length font.now) }
    ensures { result ≡ charset_answer c (ids_from c.width count 0 0 (drop c.at font.now)) }
{
    let len = font.len();
    let width = c.width;
    let mut q = c.at;
    let mut k = count as usize;
    while 0 < k {
        if len - q < 2 + width {
            return Err(Refusal::Truncated);
        }
        let first = octets::u16_at(font, q);
        let left = octets::num_at(font, q + 2, width);
        if k <= left {
            if 65536 < first + k {
                return Err(Refusal::Malformed);
            }
            return Ok(c);
        }
        if 65535 < first + left {
            return Err(Refusal::Malformed);
        }
        q = q + 2 + width;
        k = k - 1 - left;
    }
    Ok(c)
}

// The charset of a font of n glyphs, at a place.
pub fn read_charset(font: &[u8], at: usize, n: usize) -> Result<Charset, Refusal>
    requires { (0 < n) × (n < 65536) }
    ensures { result ≡ charset_answer (table_at font.now at) (charset_at font.now at n) }
{
    let len = font.len();
    if len <= at {
        return Err(Refusal::Truncated);
    }
    let format = octets::u8_at(font, at);
    if 2 < format {
        return Err(Refusal::Malformed);
    }
    let ranges = at + 1;
    let c = Charset {
        own: 1,
        width: format,
        at: ranges,
    };
    if format == 0 {
        if (len - ranges) / 2 < n - 1 {
            return Err(Refusal::Truncated);
        }
        return Ok(c);
    }
    check_ranges(font, c, (n - 1) as u16)
}

// Where a charset begins: before glyph 0.
pub fn charset_start(c: Charset) -> CharsetCursor
    ensures { result ≡ charset_start c }
{
    CharsetCursor {
        id: 0,
        left: c.own,
        width: c.width,
        at: c.at,
    }
}

// The id where a cursor stands, and the cursor behind it.
pub fn next_id(font: &[u8], u: CharsetCursor) -> IdStep
    requires { ReadyId font.now u }
    ensures { (result ≡ next_id font.now u) × (result.id < 65536) }
{
    let at = u.at;
    let width = u.width;
    let left = u.left;
    let id = u.id;
    if left == 0 {
        let first = octets::u16_at(font, at);
        let more = octets::num_at(font, at + 2, width);
        return IdStep {
            id: first,
            next: CharsetCursor {
                id: first + 1,
                left: more,
                width,
                at: at + 2 + width,
            },
        };
    }
    IdStep {
        id,
        next: CharsetCursor {
            id: id + 1,
            left: left - 1,
            width,
            at,
        },
    }
}

// The id of the g-th glyph of the ranges from a place on, of which n have ids.
fn id_in_ranges(font: &[u8], at: usize, width: usize, n: usize, g: usize) -> usize
    requires { (width ≤ 2) × (n < 65536) × (g < n)
        × (ids_from width n 0 0 (drop at font.now) ≡ Ok (numbers_of (ids_from width n 0 0 (drop at font.now)))) }
    ensures { (result ≡ get_or (numbers_of (ids_from width n 0 0 (drop at font.now))) g 0) × (result < 65536) }
{
    let mut q = at;
    let mut i = g;
    let mut left = octets::num_at(font, q + 2, width);
    while left < i {
        q = q + 2 + width;
        i = i - 1 - left;
        left = octets::num_at(font, q + 2, width);
    }
    octets::u16_at(font, q) + i
}

// The id of a glyph.
pub fn id_of(glyphs: &Ids<'_>, gid: usize) -> usize
    requires { gid < glyphs.now.n }
    ensures { (result ≡ get_or (ids glyphs.now) gid 0) × (result < 65536) }
{
    let own = glyphs.charset.own;
    let width = glyphs.charset.width;
    let at = glyphs.charset.at;
    if gid < own {
        return gid;
    }
    let g = gid - own;
    if width == 0 {
        return octets::u16_at(glyphs.bytes, at + 2 * g);
    }
    id_in_ranges(glyphs.bytes, at, width, glyphs.n - own, g)
}
