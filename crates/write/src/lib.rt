// Subsetting (write.rs: subset, subset_cid): refusals in document 01's order, then the cut by the keying.
#![tactic(auto)]

ghost use Rattle.std.specs.Prelude.{true, false, length};
ghost use Rattle.cff.specs.Loaded.{program};
ghost use Rattle.outcome.specs.Call.{is_cid, asks};
ghost use Rattle.outcome.specs.Entry.{size_of, cut_behind, CutsWith, Cuts, CutsSmall, Cut, Passed};

use asked::Asked;
use cff::opened::Opened;
use faithful::read::Held;
use outcome::Subsetted;
use outcome::call::{Call, Keying, Request};
use refusal::Refusal;

// The cut by the keying that is asked for. Up to here the flag is the byte that the caller gave.
fn cut_glyphs(
    keying: Keying,
    font: &Held<'_>,
    ask: &Request<'_>,
    words: &mut [u32],
    out: &mut [u8],
) -> Result<Subsetted, Refusal>
    requires { Passed (is_cid keying) (asks keying) (program font.now.loaded) (length ask.now.name.now) ask.now.keep.now ask.now.rows.now ask.now.traced (length words.old) }
    ensures { Cut (cut_behind (asks keying) (program font.now.loaded) ask.now.name.now ask.now.keep.now ask.now.rows.now ask.now.traced (length out.old))
        out.old out.new result }
{
    let keep = ask.keep;
    let asked = Asked {
        name: ask.name,
        rows: ask.rows,
        traced: ask.traced == 1,
    };
    match keying {
        Keying::Name { encoding } => {
            by_name::cut_named(font, encoding, keep, &asked, words, out)
        }
        Keying::Cid => by_cid::cut_cid(font, keep, &asked, words, out),
    }
}

// The cut of a font that was read in a file: refused before the work words are used, or with the first W of them, which end as zeros.
fn cut_font(
    c: Call,
    font: &Opened<'_>,
    ask: &Request<'_>,
    work: &mut [u32],
    out: &mut [u8],
) -> Result<Subsetted, Refusal>
    ensures { CutsWith (size_of c.small) (is_cid c.keying) (asks c.keying) font.now.file.now ask.now.name.now ask.now.keep.now ask.now.rows.now ask.now.traced
        work.old out.old work.new out.new result }
{
    let held = Held::of(font);
    early_refusals::refusal(
        c.small,
        c.keying.is_cid(),
        c.keying.asks(),
        &held.loaded,
        ask.name.len(),
        ask.keep,
        ask.rows,
        ask.traced,
        work.len(),
    )?;
    let w = early_refusals::size_of(c.small, &held.loaded);
    let words = &mut work[..w];
    let r = cut_glyphs(c.keying, &held, ask, &mut *words, out);
    words.fill(0);
    r
}

// The subset of a font: glyph 0 and the glyphs of the keep list.
pub fn cut(
    c: Call,
    font: &[u8],
    ask: &Request<'_>,
    work: &mut [u32],
    out: &mut [u8],
) -> Result<Subsetted, Refusal>
    ensures { CutsWith (size_of c.small) (is_cid c.keying) (asks c.keying) font.now ask.now.name.now ask.now.keep.now ask.now.rows.now ask.now.traced
        work.old out.old work.new out.new result }
{
    cut_font(c, &cff::set::read(font)?, ask, work, out)
}

// The subset of a name-keyed font: glyph 0 and the glyphs of the keep list; and where it is asked for, its encoding (document 02, Wish 4).
pub fn subset(
    font: &[u8],
    name: &[u8],
    keep: &[u16],
    rows: &[u8],
    traced: u8,
    encoding: bool,
    work: &mut [u32],
    out: &mut [u8],
) -> Result<Subsetted, Refusal>
    ensures { Cuts false encoding font.now name.now keep.now rows.now traced work.old out.old
        work.new out.new result }
{
    let c = Call::new(Keying::Name { encoding }, false);
    let ask = Request::new(name, keep, rows, traced);
    cut(c, font, &ask, work, out)
}

// The subset of a CID-keyed font.
pub fn subset_cid(
    font: &[u8],
    name: &[u8],
    keep: &[u16],
    rows: &[u8],
    traced: u8,
    work: &mut [u32],
    out: &mut [u8],
) -> Result<Subsetted, Refusal>
    ensures { Cuts true false font.now name.now keep.now rows.now traced work.old out.old
        work.new out.new result }
{
    let c = Call::new(Keying::Cid, false);
    let ask = Request::new(name, keep, rows, traced);
    cut(c, font, &ask, work, out)
}

// The subset of a name-keyed font with few work words: a bit for each glyph and each subroutine (document 02, Wish 10).
pub fn subset_small(
    font: &[u8],
    name: &[u8],
    keep: &[u16],
    rows: &[u8],
    traced: u8,
    encoding: bool,
    work: &mut [u32],
    out: &mut [u8],
) -> Result<Subsetted, Refusal>
    ensures { CutsSmall false encoding font.now name.now keep.now rows.now traced work.old out.old
        work.new out.new result }
{
    let c = Call::new(Keying::Name { encoding }, true);
    let ask = Request::new(name, keep, rows, traced);
    cut(c, font, &ask, work, out)
}

// The subset of a CID-keyed font with few work words.
pub fn subset_cid_small(
    font: &[u8],
    name: &[u8],
    keep: &[u16],
    rows: &[u8],
    traced: u8,
    work: &mut [u32],
    out: &mut [u8],
) -> Result<Subsetted, Refusal>
    ensures { CutsSmall true false font.now name.now keep.now rows.now traced work.old out.old
        work.new out.new result }
{
    let c = Call::new(Keying::Cid, true);
    let ask = Request::new(name, keep, rows, traced);
    cut(c, font, &ask, work, out)
}
