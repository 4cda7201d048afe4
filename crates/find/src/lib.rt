// The glyph of a name or a CID (the Rust's `gid` and `gid_of_cid`): the first glyph that has it, by one pass over the glyphs.
#![tactic(auto)]

ghost use Rattle.std.specs.Prelude.{◌≡◌, ◌≤◌};
ghost use Rattle.index.specs.Items.{items};
ghost use Rattle.strings.specs.Text.{same_text_lem};
ghost use Rattle.strings.specs.Strings.{string_text, sid_of};
ghost use Rattle.charset.specs.Ids.{ids};
ghost use Rattle.find.specs.Find.{glyph_with_id, glyph_with_text, has_id};

use charset::ids::Ids;
use index::items::Items;

// The text of a string id that is not standard: a part of the font, the empty text where the font has no such string.
pub fn own_text<'a>(strings: &Items<'a>, id: usize) -> &'a [u8]
    requires { 391 ≤ id }
    ensures { result.now ≡ string_text (items strings.now) id }
{
    let k = id - 391;
    if k < strings.ix.count {
        return index::item(strings.bytes, strings.ix, k);
    }
    &strings.bytes[0..0]
}

// Whether the text of a string id is the name; `sid` is the name's own id among the standard strings. It is asked of each glyph: as a call of its own it
// makes finding a name a quarter slower.
#[inline(always)]
pub fn is_named(strings: &Items<'_>, id: usize, name: &[u8], sid: Option<usize>) -> bool
    requires { sid ≡ sid_of name.now }
    ensures { result ≡ same_text_lem (string_text (items strings.now) id) name.now }
{
    if id < 391 {
        return is_standard(id, sid);
    }
    strings::same_text(own_text(strings, id), name)
}

// Whether a standard string has the id.
fn is_standard(id: usize, sid: Option<usize>) -> bool
    ensures { result ≡ has_id id sid }
{
    sid == Some(id)
}

// The first of the glyphs that has the string id or CID, if one has.
pub fn find_id(glyphs: &Ids<'_>, id: usize) -> Option<usize>
    ensures { result ≡ glyph_with_id id 0 (ids glyphs.now) }
{
    glyphs.iter().position(|here| here == id)
}

// The first of the glyphs that has the name, if one has; `sid` is the name's own id among the standard strings.
pub fn find_text(
    glyphs: &Ids<'_>,
    strings: &Items<'_>,
    name: &[u8],
    sid: Option<usize>,
) -> Option<usize>
    requires { sid ≡ sid_of name.now }
    ensures { result ≡ glyph_with_text (items strings.now) name.now 0 (ids glyphs.now) }
{
    glyphs
        .iter()
        .position(|here| is_named(strings, here, name, sid))
}
