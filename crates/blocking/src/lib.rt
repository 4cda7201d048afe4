// Which glyph costs the small file (document 02, Wish 12): the list traced and its cut measured, and where it is stubbed the same for the list without each
// kept glyph. The list without a glyph has a 0 in its place, since glyph 0 is always kept.
#![tactic(auto)]

pub mod search;

ghost use Rattle.std.specs.Prelude.{◌≡◌, true, ◌-◌, ◌<◌, length, set, None, Some};
ghost use Rattle.octets.specs.Pick.{pick};
ghost use Rattle.octets.specs.Lists.{all_below};
ghost use Rattle.cff.specs.Loaded.{program};
ghost use Rattle.subset.specs.Kept.{those};
ghost use Rattle.outcome.specs.Entry.{answer_of};
ghost use Rattle.subset.specs.declared.Way.TheVariants.{Renumbered};
ghost use Rattle.culprit.specs.Culprit.{has_way, first_of, culprit_in, Blocks};
ghost use Rattle.failing.specs.Failing.{Only};
ghost use Rattle.blocking.specs.Search.{spread, renumbered_in, Tried};
ghost use Rattle.blocking.specs.Stays.{over, cut_by, frees_by, least_by, Stays};

use crate::search::Search;
use asked::Asked;
use cff::opened::Opened;
use failing::list::KeepList;
use faithful::read::Held;
use outcome::Subsetted;
use refusal::Refusal;
use subset::Way;

// A list traced, and its cut measured with what was traced: the way, or the refusal.
fn try_list(search: &mut Search<'_>, keep: &[u16]) -> Result<Subsetted, Refusal>
    ensures { (result ≡ answer_of (over (cut_by keep.now) search.old)) × (Stays search.old search.new) }
{
    let font = search.font;
    let slice = &mut *search.slice;
    let r = tracer::trace_font(&font, keep, &mut *slice)?;
    let rows = &slice[..r.len];
    let asked = Asked {
        name: search.name,
        rows,
        traced: r.flag == 1,
    };
    let held = Held::of(&font);
    let words = &mut *search.words;
    measure::measure(font.loaded.f.cid, &held, keep, &asked, words)
}

// Whether an answer is that of a renumbered subset.
fn is_renumbered(a: Result<Subsetted, Refusal>) -> bool
    ensures { result ≡ renumbered_in a }
{
    match a {
        Err(_) => false,
        Ok(c) => c.way == Way::Renumbered,
    }
}

// Whether the list without glyph g, traced anew, gives way 0; the list is left as it was.
fn is_freed(search: &mut Search<'_>, list: &mut [u16], g: usize) -> bool
    requires { g < length list.old }
    ensures { (Tried (has_way Renumbered (over (cut_by (set list.old g 0)) search.old)) list.old list.new result) × (Stays search.old search.new) }
{
    let kept = list[g];
    list[g] = 0;
    let a = try_list(search, &*list);
    list[g] = kept;
    is_renumbered(a)
}

// The first glyph but 0 of a list with each glyph at its own place, without which the list has way 0.
fn first_freed(search: &mut Search<'_>, list: &mut [u16]) -> Option<u16>
    requires { length list.old < 65536 }
    ensures { (result ≡ first_of (those (over (frees_by list.old) search.old) (length list.old - 1) 1)) × (Stays search.old search.new) }
{
    for g in 1..list.len() {
        if list[g] != 0 && is_freed(&mut *search, &mut *list, g) {
            return Some(g as u16);
        }
    }
    None
}

// The same where no glyph but g can be the first.
fn one_freed(search: &mut Search<'_>, list: &mut [u16], g: u16) -> Option<u16>
    requires { g < length list.old }
    ensures { (result ≡ pick (over (frees_by list.old) search.old g) (Some g) None) × (Stays search.old search.new) }
{
    let at = g as usize;
    if list[at] == 0 {
        return None;
    }
    if is_freed(search, list, at) {
        return Some(g);
    }
    None
}

// The kept glyph that alone can be the culprit; none where each may be.
fn candidate(search: &mut Search<'_>, keep: &[u16]) -> Option<u16>
    requires { all_below search.old.font.loaded.f.charstrings.count keep.now ≡ true }
    ensures { (Only (program search.old.font.loaded) keep.now result) × (Stays search.old search.new) }
{
    let opened = search.font;
    let slice = &mut *search.slice;
    match tracer::trace_font(&opened, keep, &mut *slice) {
        Err(_) => None,
        Ok(r) => {
            if r.flag == 1 {
                let font = Held::of(&opened);
                let list = KeepList { font, keep };
                let words = &mut *search.words;
                return failing::only_culprit(&list, &slice[..r.len], words);
            }
            None
        }
    }
}

// Each glyph of a keep list at its own place.
fn spread(keep: &[u16], list: &mut [u16])
    requires { all_below (length list.old) keep.now ≡ true }
    ensures { list.new ≡ spread keep.now list.old }
{
    for g in keep {
        list[*g as usize] = *g;
    }
}

// The smallest kept glyph but 0 without which a list has way 0: by so many places as the font has glyphs; where one alone can be the culprit, it alone is tried.
fn least_culprit(search: &mut Search<'_>, keep: &[u16]) -> Option<u16>
    requires { all_below search.old.font.loaded.f.charstrings.count keep.now ≡ true }
    ensures { (result ≡ over (least_by keep.now) search.old) × (Stays search.old search.new) }
{
    let n = search.font.loaded.f.charstrings.count;
    let only = candidate(&mut *search, keep);
    let mut all = [0u16; 65536];
    let list = &mut all[..n];
    spread(keep, &mut *list);
    match only {
        Some(g) => one_freed(search, list, g),
        None => first_freed(search, list),
    }
}

// The answer by the first W work words, which are used, as the record slice is.
fn culprit_in(search: &mut Search<'_>, keep: &[u16]) -> Result<Option<u16>, Refusal>
    ensures { (result ≡ culprit_in (program search.old.font.loaded) search.old.name.now keep.now (length search.old.words.now) (length search.old.slice.now))
        × (Stays search.old search.new) }
{
    let c = try_list(&mut *search, keep)?;
    if c.way == Way::Stubbed {
        return Ok(least_culprit(search, keep));
    }
    Ok(None)
}

// The answer for a font that was read in a file.
fn culprit_font(
    font: &Opened<'_>,
    name: &[u8],
    keep: &[u16],
    work: &mut [u32],
    slice: &mut [u8],
) -> Result<Option<u16>, Refusal>
    ensures { Blocks font.now.file.now name.now keep.now work.old slice.old work.new slice.new result }
{
    early_traced::refusal(font, name.len(), keep, work.len(), &*slice)?;
    let w = cff::font::work_size(font.loaded.f);
    let words = &mut work[..w];
    let mut search = Search {
        font: *font,
        name,
        words: &mut *words,
        slice: &mut *slice,
    };
    let r = culprit_in(&mut search, keep);
    words.fill(0);
    slice.fill(0);
    r
}

// Which glyph costs the small file: for a keep list whose traced subset is stubbed, the smallest kept glyph but 0 such that the list without it, traced
// anew, gives way 0. The subset is by the font's keying and without an encoding.
pub fn blocking_glyph(
    font: &[u8],
    name: &[u8],
    keep: &[u16],
    work: &mut [u32],
    slice: &mut [u8],
) -> Result<Option<u16>, Refusal>
    ensures { Blocks font.now name.now keep.now work.old slice.old work.new slice.new result }
{
    culprit_font(&cff::set::read(font)?, name, keep, work, slice)
}
