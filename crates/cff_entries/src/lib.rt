// What is asked of a font (the Rust's CffProgram): the entries read, find and item, and the numbers of keyings and kinds of items. The font is
// a file, an OpenType one or a bare font (document 02, Wish 9).
#![tactic(auto)]

ghost use Rattle.std.specs.Prelude.{◌≡◌};
ghost use Rattle.octets.specs.Pick.{pick};
ghost use Rattle.opentype.specs.Opentype.{place_of};
ghost use Rattle.cff.specs.Font.{read_font};
ghost use Rattle.cff.specs.Find.{read_as, find_name, find_cid, name_as, cid_as, item_refusal_lem, item_of};
ghost use Rattle.cff.specs.Loaded.{program};
ghost use Rattle.cff.specs.Place.{LiesIn};
ghost use Rattle.cff_entries.specs.Kinds.{kind_of};

use cff::loaded::Loaded;
use cff::{Counts, ItemKind};
use refusal::Refusal;

// Reads a font: its counts, its keying and W, or the refusal.
pub fn read(font: &[u8]) -> Result<Counts, Refusal>
    ensures { result ≡ read_as (read_font font.now) }
{
    let f = cff::set::read_font(font)?;
    let charstrings = f.charstrings;
    let globals = f.globals;
    let strings = f.strings;
    let work = cff::font::work_size(f);
    Ok(Counts {
        glyphs: charstrings.count,
        globals: globals.count,
        strings: strings.count,
        cid: f.cid,
        work,
    })
}

// The glyph of a name in a font that was read; no glyph of a CID-keyed font has one.
fn name_in(font: &Loaded<'_>, name: &[u8]) -> Option<usize>
    ensures { result ≡ find_name (program font.now) name.now }
{
    if font.f.cid {
        return None;
    }
    let texts = font.strings();
    find::find_text(&font.ids(), &texts, name, strings::sid_of(name))
}

// The glyph of a CID in a font that was read; no glyph of a name-keyed font has one.
fn cid_in(font: &Loaded<'_>, cid: usize) -> Option<usize>
    ensures { result ≡ find_cid (program font.now) cid }
{
    if font.f.cid {
        return find::find_id(&font.ids(), cid);
    }
    None
}

// Finds the glyph of a name, or the refusal of the font.
pub fn find_name(font: &[u8], name: &[u8]) -> Result<Option<usize>, Refusal>
    ensures { result ≡ name_as (read_font font.now) name.now }
{
    let font = cff::set::load(font)?;
    Ok(name_in(&font, name))
}

// Finds the glyph of a CID, or the refusal of the font.
pub fn find_cid(font: &[u8], cid: usize) -> Result<Option<usize>, Refusal>
    ensures { result ≡ cid_as (read_font font.now) cid }
{
    let font = cff::set::load(font)?;
    Ok(cid_in(&font, cid))
}

// An item of an INDEX: the part of the caller's bytes itself, empty where the lookup is refused.
pub fn item(font: &[u8], kind: ItemKind, number: usize) -> &[u8]
    ensures { (result.now ≡ item_of (read_font font.now) kind number)
        × (LiesIn font.now (place_of font.now) kind number result font.entry) }
{
    let read = cff::set::read_font(font);
    match read {
        Err(_) => &font[0..0],
        Ok(f) => {
            let ix = cff::font::index_in(f, kind);
            if number < ix.count {
                return index::item(cff::set::table(font, f), ix, number);
            }
            &font[0..0]
        }
    }
}

// The refusal of a lookup of an item, if it is refused: reading's, then where there is no such number.
pub fn item_refusal(font: &[u8], kind: ItemKind, number: usize) -> Result<(), Refusal>
    ensures { result ≡ item_refusal_lem (read_font font.now) kind number }
{
    let f = cff::set::read_font(font)?;
    let ix = cff::font::index_in(f, kind);
    if number < ix.count {
        return Ok(());
    }
    Err(Refusal::NoSuchNumber)
}

// The kind of items of a number below 3.
pub fn kind_of(kind: u8) -> ItemKind
    ensures { result ≡ kind_of kind }
{
    match kind {
        0 => ItemKind::Charstring,
        1 => ItemKind::Global,
        _ => ItemKind::Text,
    }
}

// 1 for a CID-keyed font, 0 for a name-keyed one. (Definitions say it by `pick`, which this clause brings to those who call it.)
pub fn keying(cid: bool) -> u64
    ensures { result ≡ pick cid 1 0 }
{
    u64::from(cid)
}
