// The refusals of a traced cut before the work words are used (document 02, Wish 12): the subset call's own 3, 2, 4, 6 and 7, 11 a traced record longer than
// the lent slice, and 9. Nothing is written: the rows are counted.
#![tactic(auto)]

ghost use Rattle.std.specs.Prelude.{◌≡◌, true, length};
ghost use Rattle.octets.specs.Lists.{all_below};
ghost use Rattle.cff.specs.Loaded.{program};
ghost use Rattle.subset.specs.Kept.{kept_of};
ghost use Rattle.subset.specs.Cut.{all_found_lem};
ghost use Rattle.traced.specs.Traced.{answered, trace_program};
ghost use Rattle.tracer.specs.Tracing.{met, keys_of, Shown};
ghost use Rattle.early_traced.specs.Early.{fits_in, early_of};

use cff::opened::Opened;
use faithful::read::Held;
use interpret::Range;
use refusal::Refusal;
use tracer::count_rows;
use tracer::marked::{Marked, Plain};

// Whether the rows of plain glyphs, of which the first window has so many, have room.
fn fits_first(glyphs: &Plain<'_>, keys: &mut [u64], first: usize, lent: &[u8]) -> bool
    requires { Shown (keys_of glyphs.now) keys.old first }
    ensures { result ≡ fits_in (answered (length lent.now) (met glyphs.now.marked)) }
{
    let room = lent.len() / 10;
    if first == tracer::WINDOW {
        let count = count_rows(glyphs, keys, room);
        if room < count {
            return false;
        }
        return true;
    }
    if room < first {
        return false;
    }
    true
}

// Whether the record of the marked glyphs has room.
fn fits_marked(glyphs: &Marked<'_>, lent: &[u8]) -> bool
    ensures { result ≡ fits_in (answered (length lent.now) (met glyphs.now)) }
{
    let mut keys = [0u64; 65536];
    let all = Range {
        low: 0,
        high: tracer::TOP,
    };
    match tracer::fill(glyphs, all, &mut keys) {
        None => true,
        Some(first) => {
            let plain = Plain { marked: *glyphs };
            fits_first(&plain, &mut keys, first, lent)
        }
    }
}

// Whether the record of glyph 0 and the glyphs of a keep list that passes 6 and 7 has room.
fn record_fits(font: &Held<'_>, keep: &[u16], lent: &[u8]) -> bool
    requires { (all_below font.now.loaded.f.charstrings.count keep.now ≡ true)
        × (all_found_lem (program font.now.loaded) (kept_of font.now.loaded.f.charstrings.count keep.now) ≡ true) }
    ensures { result ≡ fits_in (trace_program (program font.now.loaded) keep.now (length lent.now)) }
{
    let mut marks = [0u32; 65536];
    kept::marks::mark(keep, &mut marks, font.loaded.f.charstrings.count);
    let glyphs = Marked {
        font: *font,
        marks: &marks,
    };
    fits_marked(&glyphs, lent)
}

// The refusal, where there is one.
pub fn refusal(
    font: &Opened<'_>,
    name: usize,
    keep: &[u16],
    words: usize,
    lent: &[u8],
) -> Result<(), Refusal>
    ensures { result ≡ early_of (program font.now.loaded) name keep.now words (length lent.now) }
{
    let loaded = font.loaded;
    let w = cff::font::work_size(loaded.f);
    early_refusals::refusal(
        false,
        loaded.f.cid,
        false,
        &loaded,
        name,
        keep,
        &loaded.bytes[..0],
        1,
        w,
    )?;
    if !record_fits(&Held::of(font), keep, lent) {
        return Err(Refusal::Output);
    }
    if words < w {
        return Err(Refusal::Work);
    }
    Ok(())
}
