// Whether finding gives the kept glyphs (document 01, refusal 7): the first glyph that has a name or a CID is the one found. The kept ones are flagged
// by a bit for each glyph.
#![tactic(auto)]

pub mod marks;

ghost use Rattle.std.specs.Prelude.{◌≡◌, true, ◌≤◌, ◌<◌, length};
ghost use Rattle.octets.specs.Lists.{all_below};
ghost use Rattle.octets.specs.Pick.{pick};
ghost use Rattle.index.specs.Items.{items};
ghost use Rattle.charset.specs.Ids.{ids};
ghost use Rattle.cff.specs.Loaded.{program};
ghost use Rattle.subset.specs.Kept.{kept_of};
ghost use Rattle.subset.specs.Cut.{all_found_lem};
ghost use Rattle.kept.specs.Packed.{all_of, text_found, name_found};
ghost use Rattle.first_glyphs.specs.Bits.{Unseen};
ghost use Rattle.first_glyphs.specs.Flagged.{flagged_of};
ghost use Rattle.found.specs.Flags.{Unset};
ghost use Rattle.found.specs.Hash.{told};

use cff::loaded::Loaded;
use charset::ids::Ids;
use first_glyphs::flagged::Flagged;
use index::items::Items;

// A pass over the names may look for fewer than this many of them among all glyphs, and only for names of at most 127 bytes.
const LOOKS: usize = 17;

// What a pass tells: whether all glyphs are found, or that it looked too often to say.
// (It stays an enum: an Option of a bool is no plainer, since None would not say that the pass gave up.)
#[derive(Clone, Copy)]
pub enum Told {
    Yes,
    No,
    Open,
}

// Whether finding a name gives glyph g.
fn text_found(glyphs: &Ids<'_>, strings: &Items<'_>, name: &[u8], g: usize) -> bool
    ensures { result ≡ text_found (items strings.now) (ids glyphs.now) name.now g }
{
    let sid = strings::sid_of(name);
    find::find_text(glyphs, strings, name, sid) == Some(g)
}

// Whether finding the name of glyph g gives that glyph.
fn name_found(glyphs: &Ids<'_>, strings: &Items<'_>, g: usize) -> bool
    requires { g < glyphs.now.n }
    ensures { result ≡ name_found (items strings.now) (ids glyphs.now) g }
{
    let id = charset::id_of(glyphs, g);
    let name = name_order::text_at(strings, id);
    text_found(glyphs, strings, name, g)
}

// Whether finding the name of a glyph gives that glyph, where its flag is set; of a new name it does.
fn flagged_found(glyphs: &Ids<'_>, strings: &Items<'_>, g: usize, flag: bool, new: bool) -> bool
    requires { (g < glyphs.now.n) × (new ≡ true → name_found (items strings.now) (ids glyphs.now) g ≡ true) }
    ensures { result ≡ pick flag (name_found (items strings.now) (ids glyphs.now) g) true }
{
    if new {
        return true;
    }
    if flag {
        return name_found(glyphs, strings, g);
    }
    true
}

// A place among the flags behind the last word of them that is not 0.
fn words_end(flagged: &Flagged<'_>) -> usize
    ensures { (result ≤ flagged.now.glyphs.n) × Unset flagged.now.flags.now result flagged.now.glyphs.n }
{
    let n = flagged.glyphs.n;
    let words = bits::words_for(n);
    match flagged.flags[..words].iter().rposition(|w| *w != 0) {
        Some(q) => n.min(32 * (q + 1)),
        None => 0,
    }
}

// A place among the flags behind the last that is set.
fn flags_end(flagged: &Flagged<'_>) -> usize
    ensures { (result ≤ flagged.now.glyphs.n) × Unset flagged.now.flags.now result flagged.now.glyphs.n }
{
    for g in (0..words_end(flagged)).rev() {
        if bits::has_bit(flagged.flags, 0, g) {
            return g + 1;
        }
    }
    0
}

// How many looks through all glyphs are left with the one for a glyph: one less where its flag is set and its name is not new, and none where
// that name is long.
fn looks_left(looks: usize, flag: bool, new: bool, size: usize) -> usize
    requires { 0 < looks }
    ensures { result ≤ looks }
{
    if new {
        return looks;
    }
    if flag {
        if 127 < size {
            return 0;
        }
        return looks - 1;
    }
    looks
}

// Whether finding the name of each flagged glyph gives that glyph, by one pass up to the last of them. The caller lends marks of which none is set
// and words `seen` with a bit for each id: only the first glyph of an id is found, so each string is read once. Only a name whose marks are both there
// is looked for among all glyphs. Where that were to happen too often, the answer is open.
fn names_met(
    flagged: &Flagged<'_>,
    strings: &Items<'_>,
    marks: &mut [u32],
    seen: &mut [u32],
) -> Told
    requires { (length marks.old ≡ 4096) × Unseen seen.old }
    ensures { told result (all_of (name_found (items strings.now) (ids flagged.now.glyphs)) (flagged_of flagged.now))
        ≡ all_of (name_found (items strings.now) (ids flagged.now.glyphs)) (flagged_of flagged.now) }
{
    let glyphs = &flagged.glyphs;
    let end = flags_end(flagged);
    let mut looks = LOOKS;
    for (g, sid) in glyphs.first(end).iter().enumerate() {
        let flag = bits::has_bit(flagged.flags, 0, g);
        if first_glyphs::see(&mut *seen, sid) {
            if flag {
                return Told::No;
            }
        } else {
            let name = name_order::text_at(strings, sid);
            let new = marks::meet(&mut *marks, marks::hash_of(name));
            looks = looks_left(looks, flag, new, name.len());
            if looks == 0 {
                return Told::Open;
            }
            if !flagged_found(glyphs, strings, g, flag, new) {
                return Told::No;
            }
        }
    }
    Told::Yes
}

// Whether finding the name of each flagged glyph gives that glyph.
pub fn names_found(flagged: &Flagged<'_>, strings: &Items<'_>) -> bool
    ensures { result ≡ all_of (name_found (items strings.now) (ids flagged.now.glyphs)) (flagged_of flagged.now) }
{
    // A bit for each of the 65,536 values of either half of a hash: 16 KiB.
    let mut marks = [0u32; 4096];
    // A bit for each id: 8 KiB.
    let mut seen = [0u32; 2048];
    let met = names_met(flagged, strings, &mut marks, &mut seen);
    match met {
        Told::Yes => true,
        Told::No => false,
        Told::Open => first_glyphs::names_sorted(flagged, strings),
    }
}

// Whether finding the name or the CID of glyph 0 and of each glyph to keep gives that glyph: refusal 7 where not.
pub fn all_found(font: &Loaded<'_>, keep: &[u16]) -> bool
    requires { all_below font.now.f.charstrings.count keep.now ≡ true }
    ensures { result ≡ all_found_lem (program font.now) (kept_of font.now.f.charstrings.count keep.now) }
{
    let glyphs = font.ids();
    // A bit for each glyph: 8 KiB.
    let mut flags = [0u32; 2048];
    order::mark(keep, &mut flags, glyphs.n);
    let flagged = Flagged {
        glyphs,
        flags: &flags,
    };
    if font.f.cid {
        // A bit for each CID: 8 KiB.
        let mut seen = [0u32; 2048];
        return first_glyphs::cids_found(&flagged, &mut seen);
    }
    names_found(&flagged, &font.strings())
}
