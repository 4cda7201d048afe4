// The cut of a CID-keyed font (the Rust's subset_cid).
#![tactic(auto)]

ghost use Rattle.std.specs.Prelude.{true, false, ◌≤◌, ◌<◌, length, take};
ghost use Rattle.cff.specs.Loaded.{program};
ghost use Rattle.outcome.specs.Entry.{cut_behind, Cut, Passed};
ghost use Rattle.subset.specs.Flag.{flag_of};
ghost use Rattle.by_cid.specs.CidKeptLaws.{CidOrdered};
ghost use Rattle.by_cid.specs.Outcome.{CutsAs, outcome_in};
ghost use Rattle.by_cid.specs.Prepares.{Prepares};

use asked::Asked;
use cff::loaded::Loaded;
use cid_parts::cid::CidSubset;
use cid_parts::{places_cid, put_parts};
use faithful::read::Held;
use order_window::Order;
use order_window::window::Kept;
use outcome::tables::{Parts, Tables};
use outcome::{Prepared, Subsetted};
use own_strings::slots::{NO_SLOT, Slot};
use refusal::Refusal;

// The subset, measured, and then in the front of the output, if it is not too long for a subset or for the output.
fn cut_planned(c: &mut CidSubset<'_>, out: &mut [u8]) -> Result<Subsetted, Refusal>
    ensures { Cut (outcome_in c.old (length out.old)) out.old out.new result }
{
    let how = c.parts.cut.plan.how;
    let at = places_cid(&mut *c);
    let end = at.end;
    if octets::LONGEST < end {
        return Err(Refusal::Subset);
    }
    if out.len() < end {
        return Err(Refusal::Output);
    }
    put_parts(c, at, out);
    Ok(Subsetted {
        way: how.way,
        len: end,
    })
}

// The plan of the cut of the kept glyphs: strings, the FDs in use by their new numbers, and the plan of the bodies.
fn plan_cut(
    o: Order,
    font: &[u8],
    asked: &Asked<'_>,
    words: &mut [u32],
    window: &mut [u32],
    slots: &mut [Slot],
    tables: &mut Tables,
) -> Prepared
    requires { (CidOrdered font.now o words.old window.old) × (8 ≤ length slots.old) }
    ensures { Prepares font.now asked.now.rows.now (flag_of asked.now.traced) o words.old (take 8 slots.new) words.new window.new tables.new result }
{
    let loaded = Loaded {
        bytes: font,
        f: o.f,
    };
    let own = front::prepare_cid(&loaded, slots);
    let mut kept = Kept {
        font,
        words: &*words,
        window: &mut *window,
        o,
    };
    tables.used = [0; 256];
    let count = glyph_tables::fds::rank_fds(&mut kept, &mut tables.used);
    let o = kept.o;
    let plan = parts::plan_all(
        o,
        font,
        asked.rows,
        u8::from(asked.traced),
        &tables.used,
        words,
        window,
        &mut tables.table,
        &mut tables.totals,
    );
    Prepared { plan, own, count }
}

// What the subset of the kept glyphs is written from. Its string ids cannot be refused, since a CID-keyed subset has at most 8 own strings. Three lifetimes,
// since Rattle shortens none behind a reference: with one, no caller could lend arrays of its own.
// by_name `prepare` differs in the middle: one function for both would take each `plan_cut` as a closure over the lent arrays, and is no plainer.
pub fn prepare<'a, 'f: 'a, 'n: 'a>(
    font: &Held<'f>,
    keep: &[u16],
    asked: &Asked<'n>,
    words: &'a mut [u32],
    window: &'a mut [u32],
    slots: &'a mut [Slot],
    tables: &'a mut Tables,
) -> CidSubset<'a>
    requires { (Passed true false (program font.now.loaded) (length asked.now.name.now) keep.now asked.now.rows.now (flag_of asked.now.traced) (length words.old))
        × (0 < length window.old) × (8 ≤ length slots.old) }
    ensures { CutsAs result (cut_behind false (program font.now.loaded) asked.now.name.now keep.now asked.now.rows.now (flag_of asked.now.traced)) }
{
    let bytes = font.loaded.bytes;
    let o = order_window::gather(&font.loaded, keep, &mut *words, &mut *window);
    let cut = plan_cut(
        o,
        bytes,
        asked,
        &mut *words,
        &mut *window,
        &mut *slots,
        &mut *tables,
    );
    let parts = Parts {
        cut,
        name: asked.name,
        slots: &*slots,
        used: &tables.used,
        table: &tables.table,
        totals: &tables.totals,
        rows: asked.rows,
    };
    CidSubset::new(bytes, &*words, window, parts)
}

// The subset in the front of the output, if it is not too long. The work words are used.
pub fn cut_cid(
    font: &Held<'_>,
    keep: &[u16],
    asked: &Asked<'_>,
    words: &mut [u32],
    out: &mut [u8],
) -> Result<Subsetted, Refusal>
    requires { Passed true false (program font.now.loaded) (length asked.now.name.now) keep.now asked.now.rows.now (flag_of asked.now.traced) (length words.old) }
    ensures { Cut (cut_behind false (program font.now.loaded) asked.now.name.now keep.now asked.now.rows.now (flag_of asked.now.traced) (length out.old))
        out.old out.new result }
{
    let mut window = [0u32; 4096];
    let mut slots = [NO_SLOT; 8];
    let mut tables = Tables::new();
    let mut c = prepare(
        font,
        keep,
        asked,
        words,
        &mut window,
        &mut slots,
        &mut tables,
    );
    cut_planned(&mut c, out)
}
