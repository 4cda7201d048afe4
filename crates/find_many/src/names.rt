// The glyphs of many names, with one reading of the font. The names stand one behind the other, and a slice has their lengths.
ghost use Rattle.std.specs.Prelude.{◌≡◌, not, map, ◌≤◌, ◌<◌, ltb, length};
ghost use Rattle.octets.specs.Lists.{sum_of};
ghost use Rattle.octets.specs.Octets.{put};
ghost use Rattle.cff.specs.Font.{read_font};
ghost use Rattle.cff.specs.Loaded.{program};
ghost use Rattle.find_many.specs.Many.{of_name, names_by, names_in, names_found, Finds};

use cff::loaded::Loaded;
use refusal::Refusal;

// The glyph of a name in a font that was read, 65536 where it is absent; no glyph of a CID-keyed font has a name.
fn name_in(font: &Loaded<'_>, name: &[u8]) -> u32
    ensures { result ≡ of_name (program font.now) name.now }
{
    if font.f.cid {
        return 65536;
    }
    let sid = strings::sid_of(name);
    let found = find::find_text(&font.ids(), &font.strings(), name, sid);
    match found {
        None => 65536,
        Some(g) => g as u32,
    }
}

// Whether names of these lengths stand in so many bytes.
fn fit(bytes: usize, lens: &[u32]) -> bool
    ensures { result ≡ not (ltb bytes (sum_of lens.now)) }
{
    let mut left = bytes;
    for len in lens {
        let n = *len as usize;
        if left < n {
            return false;
        }
        left -= n;
    }
    true
}

// Puts the glyph of each name to the front of the lent words.
fn put_names(font: &Loaded<'_>, names: &[u8], lens: &[u32], glyphs: &mut [u32])
    requires { (sum_of lens.now ≤ length names.now) × (length lens.now ≤ length glyphs.old) }
    ensures { glyphs.new ≡ put glyphs.old 0 (map (of_name (program font.now)) (names_by lens.now names.now)) }
{
    let mut at = 0;
    for (i, len) in lens.iter().enumerate() {
        let end = at + *len as usize;
        glyphs[i] = name_in(font, &names[at..end]);
        at = end;
    }
}

// The glyphs of the names in a font that was read.
fn names_in(
    font: &Loaded<'_>,
    names: &[u8],
    lens: &[u32],
    glyphs: &mut [u32],
) -> Result<(), Refusal>
    ensures { Finds (names_in (program font.now) names.now lens.now) glyphs.old glyphs.new result }
{
    if fit(names.len(), lens) {
        if glyphs.len() < lens.len() {
            return Err(Refusal::Output);
        }
        put_names(font, names, lens, glyphs);
        return Ok(());
    }
    Err(Refusal::Truncated)
}

// The glyph of each name, 65536 where it is absent, in the front of the lent words; or the refusal: reading's, that of lengths that are more
// together than the names have bytes, that of too few words.
pub fn find_names(
    font: &[u8],
    names: &[u8],
    lens: &[u32],
    glyphs: &mut [u32],
) -> Result<(), Refusal>
    ensures { Finds (names_found (read_font font.now) names.now lens.now) glyphs.old glyphs.new result }
{
    let font = cff::set::load(font)?;
    names_in(&font, names, lens, glyphs)
}
