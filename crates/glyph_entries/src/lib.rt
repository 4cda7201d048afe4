// What whoever writes a PDF asks of a font's glyphs: the name or CID of a glyph and its FD, and where an item stands. The font is a file, an
// OpenType one or a bare font (document 02, Wish 9).
#![tactic(auto)]

pub mod places;

ghost use Rattle.std.specs.Prelude.{[], ◌∷◌, length};
ghost use Rattle.cff.specs.Font.{read_font};
ghost use Rattle.cff.specs.Loaded.{program};
ghost use Rattle.glyph_entries.specs.Glyph.{told, glyph_in, glyph_of, Tells};

use cff::loaded::Loaded;
use refusal::Refusal;

// Writes a name to the lent bytes, and what else is told of a glyph to the lent words.
fn give(
    keying: u64,
    id: usize,
    fd: u8,
    text: &[u8],
    name: &mut [u8],
    answer: &mut [u64],
) -> Result<(), Refusal>
    ensures { Tells (told text.now (keying ∷ id ∷ fd ∷ length text.now ∷ []))
        name.old name.new answer.old answer.new result }
{
    if name.len() < text.len() {
        return Err(Refusal::Output);
    }
    if answer.len() < 4 {
        return Err(Refusal::Output);
    }
    let end = octets::put_bytes(name, 0, text);
    answer[0] = keying;
    answer[1] = id as u64;
    answer[2] = fd as u64;
    answer[3] = end as u64;
    Ok(())
}

// A glyph of a font that was read: its name, where the font is name-keyed, and four words: 1 for a CID-keyed font, its CID or string id, its FD
// and the length of its name.
fn glyph_in(font: &Loaded<'_>, g: usize, name: &mut [u8], answer: &mut [u64]) -> Result<(), Refusal>
    ensures { Tells (glyph_in (program font.now) g) name.old name.new answer.old answer.new result }
{
    let n = font.f.charstrings.count;
    if n <= g {
        return Err(Refusal::NoSuchNumber);
    }
    let id = charset::id_of(&font.ids(), g);
    let fd = charset::fd_select::fd_of(font.bytes, font.f.select, g);
    if font.f.cid {
        return give(1, id, fd, &font.bytes[0..0], name, answer);
    }
    let text = name_order::text_at(&font.strings(), id);
    give(0, id, fd, text, name, answer)
}

// What is told of a glyph, or the refusal: reading's, that of a number past the font's glyphs, that of too few bytes or words.
pub fn glyph(font: &[u8], number: usize, name: &mut [u8], answer: &mut [u64]) -> Result<(), Refusal>
    ensures { Tells (glyph_of (read_font font.now) number) name.old name.new answer.old answer.new result }
{
    let font = cff::set::load(font)?;
    glyph_in(&font, number, name, answer)
}
