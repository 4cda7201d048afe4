// The plan of a subset (document 01, 'Corners in write.rs'): all subroutines that are reached get their bits in the work words, the way is found, and the bodies
// are measured.
#![tactic(auto)]

pub mod bodies_in;
pub mod sizes;

ghost use Rattle.std.specs.Prelude.{◌≡◌, ◌+◌, ◌≤◌, length};
ghost use Rattle.record.specs.Record.{rows_of};
ghost use Rattle.bits.specs.Bits.{words_for};
ghost use Rattle.cff.specs.Find.{locals_words};
ghost use Rattle.cff.specs.Loaded.{program};
ghost use Rattle.cff.specs.Reads.{program_of};
ghost use Rattle.plan.specs.Ranked.{RanksAll};
ghost use Rattle.order_window.specs.Stays.{kept_glyphs, Stays};
ghost use Rattle.plan.specs.Sizes.{MeasureIn, first_way, Plans};

use crate::sizes::{Totals, measure};
use bodies::Manner;
use fds::in_use::InUse;
use order_window::window::Kept;
use reach::Subrs;
use renumber::Ranks;
use subset::Way;

// Where the bits of the globals stand; whether the record has no number without a subroutine.
#[derive(Clone, Copy)]
pub struct RankedAll {
    pub globals: Ranks,
    pub all: bool,
}

// Sets the bits of the globals in the words behind the bits of the glyphs, and of the locals of each FD in use behind them.
pub fn rank_all(
    fds: &InUse<'_, '_>,
    rows: &[u8],
    words: &mut [u32],
    table: &mut [Ranks],
) -> RankedAll
    requires { (words_for fds.now.font.f.charstrings.count + words_for fds.now.font.f.globals.count + locals_words (program fds.now.font).privates
        ≤ length words.old) × (256 ≤ length table.old) }
    ensures { RanksAll (program fds.now.font) (rows_of rows.now) fds.now.used.now words.old words.new table.new result }
{
    let f = fds.font.f;
    let at = bits::words_for(f.charstrings.count);
    let count = f.globals.count;
    let r = reach::ranks::rank_reached(rows, Subrs::Global, &mut *words, at, count);
    let behind = at + bits::words_for(count);
    let rest = fds::rank_locals(fds, rows, words, behind, table);
    let all = r.all && rest;
    let globals = Ranks {
        at,
        count,
        reached: r.reached,
        low: r.low,
        high: r.high,
    };
    RankedAll { globals, all }
}

// The way, and the bytes of the globals and of the charstrings.
#[derive(Clone, Copy)]
pub struct Plan {
    pub way: Way,
    pub globals_total: usize,
    pub glyphs_total: usize,
}

// The plan by a way and what was measured by it.
fn planned(way: Way, t: Totals) -> Plan
    ensures { result ≡ record { way = way; globals_total = t.globals; glyphs_total = t.glyphs } }
{
    Plan {
        way,
        globals_total: t.globals,
        glyphs_total: t.glyphs,
    }
}

// The way that is tried first: copied by the flag; else renumbered where each number has a subroutine; else stubbed.
pub fn first_way(traced: u8, all: bool) -> Way
    ensures { result ≡ first_way traced all }
{
    if traced == 0 {
        return Way::Copied;
    }
    if all {
        return Way::Renumbered;
    }
    Way::Stubbed
}

// What is answered where stubs fail, which they never do: it is never used.
const NOTHING: Totals = Totals {
    globals: 0,
    glyphs: 0,
};

// Finds the way, the first of which is given, and measures all bodies by it: those of the locals of each FD in use in a table.
pub fn plan_bodies(
    kept: &mut Kept<'_>,
    how: Manner,
    used: &[u32],
    table: &[Ranks],
    rows: &[u8],
    totals: &mut [usize],
) -> Plan
    requires { (MeasureIn kept.old.font.now kept.old.o used.now kept.old.words.now how table.now (rows_of rows.now)) × (256 ≤ length totals.old) }
    ensures { (Plans (program_of kept.old.font.now kept.old.o.f) (rows_of rows.now) kept.old.words.now used.now table.now how.globals (kept_glyphs kept.old)
        how.way totals.new result) × Stays kept.old kept.new }
{
    let m = measure(&mut *kept, how, used, table, rows, &mut *totals);
    if let Some(t) = m {
        return planned(how.way, t);
    }
    let stubbed = Manner {
        way: Way::Stubbed,
        globals: how.globals,
        rising: how.rising,
    };
    let s = measure(kept, stubbed, used, table, rows, totals);
    planned(Way::Stubbed, s.unwrap_or(NOTHING))
}
