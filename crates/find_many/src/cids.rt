// The glyphs of many CIDs, with one reading of the font and one pass over its charset: each glyph goes to the slot of its CID unless there is one.
ghost use Rattle.std.specs.Prelude.{◌≡◌, map, ℕ, ◌≤◌, ◌<◌, length};
ghost use Rattle.octets.specs.Octets.{put};
ghost use Rattle.charset.specs.Ids.{ids};
ghost use Rattle.find.specs.Find.{glyph_with_id};
ghost use Rattle.cff.specs.Font.{read_font};
ghost use Rattle.cff.specs.Loaded.{program};
ghost use Rattle.find_many.specs.Many.{number_for, of_cid, cids_found, Finds, Slots, none};

use cff::loaded::Loaded;
use charset::ids::Ids;
use refusal::Refusal;

// Puts the first of the glyphs with each id into the slot of the id.
// (With `glyphs.iter().enumerate()`, proved too, `find_cids` over 65,535 glyphs took 6 to 9 % longer: clang then writes each slot again.)
fn fill(glyphs: &Ids<'_>, slots: &mut [u32])
    requires { Slots none slots.old }
    ensures { Slots (λ id. number_for (glyph_with_id id 0 (ids glyphs.now))) slots.new }
{
    let mut u = charset::charset_start(glyphs.charset);
    for g in 0..glyphs.n {
        let s = charset::next_id(glyphs.bytes, u);
        let id = s.id;
        u = s.next;
        if slots[id] == 65536 {
            slots[id] = g as u32;
        }
    }
}

// The slots of all CIDs of a font that was read: none has a glyph in a name-keyed font.
fn slots_in(font: &Loaded<'_>, slots: &mut [u32])
    requires { Slots none slots.old }
    ensures { Slots (of_cid (program font.now)) slots.new }
{
    if font.f.cid {
        fill(&font.ids(), slots);
    }
}

// Puts what the slot of each CID has to the front of the lent words.
fn put_cids(slots: &[u32], cids: &[u16], glyphs: &mut [u32])
    requires { (length slots.now ≡ 65536) × (length cids.now ≤ length glyphs.old) }
    ensures { (number : ℕ → ℕ) → Slots number slots.now
        → glyphs.new ≡ put glyphs.old 0 (map number cids.now) }
{
    for (i, cid) in cids.iter().enumerate() {
        glyphs[i] = slots[*cid as usize];
    }
}

// The glyph of each CID, 65536 where it is absent, in the front of the lent words; or the refusal: reading's, that of too few words.
// A slot for each CID: 256 KiB.
pub fn find_cids(font: &[u8], cids: &[u16], glyphs: &mut [u32]) -> Result<(), Refusal>
    ensures { Finds (cids_found (read_font font.now) cids.now) glyphs.old glyphs.new result }
{
    let font = cff::set::load(font)?;
    if glyphs.len() < cids.len() {
        return Err(Refusal::Output);
    }
    let mut slots = [65536u32; 65536];
    slots_in(&font, &mut slots);
    put_cids(&slots, cids, glyphs);
    Ok(())
}
