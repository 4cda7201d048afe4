// Where an item of an INDEX stands in the caller's bytes, as a place and a length: for whoever keeps the bytes and wants the item without a copy.
ghost use Rattle.std.specs.Prelude.{◌≡◌};
ghost use Rattle.cff.specs.Font.{read_font};
ghost use Rattle.cff.specs.Find.{item_refusal_lem, item_of};
ghost use Rattle.glyph_entries.specs.Place.{Shows};

use cff::ItemKind;
use refusal::Refusal;

// The place of an item in the file, and its length, in two words; or the refusal: reading's, that of a number of no item, that of too few words.
pub fn item_place(
    font: &[u8],
    kind: ItemKind,
    number: usize,
    answer: &mut [u64],
) -> Result<(), Refusal>
    ensures { Shows font.now (item_refusal_lem (read_font font.now) kind number) (item_of (read_font font.now) kind number)
        answer.old answer.new result }
{
    let f = cff::set::read_font(font)?;
    let ix = cff::font::index_in(f, kind);
    if ix.count <= number {
        return Err(Refusal::NoSuchNumber);
    }
    if answer.len() < 2 {
        return Err(Refusal::Output);
    }
    let table = cff::set::table(font, f);
    let item = index::item(table, ix, number);
    let at = index::offset(table, ix, number);
    answer[0] = (f.start + (ix.base + at)) as u64;
    answer[1] = item.len() as u64;
    Ok(())
}
