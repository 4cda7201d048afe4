// What is asked of single glyphs, of many names or CIDs with one reading of the font, and where an item stands, for C and Rust to link. 11 stands for lent bytes or words
// that are too few, after every other refusal.
ghost use Rattle.cff.specs.Font.{read_font};
ghost use Rattle.cff.specs.Find.{item_of};
ghost use Rattle.cff_entries.specs.Kinds.{kind_of};
ghost use Rattle.glyph_entries.specs.Glyph.{glyph_of, Tells};
ghost use Rattle.find_many.specs.Many.{names_found, cids_found, Finds};
ghost use Rattle.glyph_entries.specs.Place.{Shows};
ghost use Rattle.capi.specs.Capi.{ForC, lookup_refusal};

use refusal::number_or_0;

// The name of a glyph, copied to the start of the lent bytes, and four words: 1 for a CID-keyed font and 0 for a name-keyed one, the glyph's CID or
// string id, its FD, and the length of its name.
#[unsafe(no_mangle)]
pub extern "C" fn cff_glyph(font: &[u8], glyph: u64, name: &mut [u8], answer: &mut [u64]) -> u8
    ensures { ForC (Tells (glyph_of (read_font font.now) glyph) name.old name.new answer.old answer.new) result }
{
    number_or_0(glyph_entries::glyph(font, glyph as usize, name, answer))
}

// Finds the glyph of each name, 65536 where it is absent. The names stand one behind the other; their lengths are lent beside them.
#[unsafe(no_mangle)]
pub extern "C" fn cff_find_names(
    font: &[u8],
    names: &[u8],
    lengths: &[u32],
    glyphs: &mut [u32],
) -> u8
    ensures { ForC (Finds (names_found (read_font font.now) names.now lengths.now) glyphs.old glyphs.new) result }
{
    number_or_0(find_many::names::find_names(font, names, lengths, glyphs))
}

// Finds the glyph of each CID, 65536 where it is absent.
#[unsafe(no_mangle)]
pub extern "C" fn cff_find_cids(font: &[u8], cids: &[u16], glyphs: &mut [u32]) -> u8
    ensures { ForC (Finds (cids_found (read_font font.now) cids.now) glyphs.old glyphs.new) result }
{
    number_or_0(find_many::cids::find_cids(font, cids, glyphs))
}

// Where an item stands in the caller's bytes: two words, its place and its length. The refusals are those of `cff_item_refusal`, then 11.
#[unsafe(no_mangle)]
pub extern "C" fn cff_item_place(font: &[u8], kind: u8, number: u64, answer: &mut [u64]) -> u8
    ensures { ForC (Shows font.now (lookup_refusal (read_font font.now) kind number) (item_of (read_font font.now) (kind_of kind) number)
        answer.old answer.new) result }
{
    if kind < 3 {
        let kind = cff_entries::kind_of(kind);
        let n = number as usize;
        return number_or_0(glyph_entries::places::item_place(font, kind, n, answer));
    }
    number_or_0(crate::lookup(font, kind, number))
}
