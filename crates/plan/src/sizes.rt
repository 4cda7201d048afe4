// The sizes of all bodies by the way.
ghost use Rattle.std.specs.Prelude.{◌≡◌, ◌≤◌, length};
ghost use Rattle.record.specs.Record.{rows_of};
ghost use Rattle.cff.specs.Reads.{program_of};
ghost use Rattle.bodies.specs.Ways.{measured_of};
ghost use Rattle.bodies.specs.Sizes.{Bounded};
ghost use Rattle.fds.specs.Locals.{fds_in};
ghost use Rattle.fds.specs.NewLocals.{MeasuresLocals};
ghost use Rattle.order_window.specs.Stays.{kept_glyphs, Stays};
ghost use Rattle.plan.specs.Held.{program, globals};
ghost use Rattle.plan.specs.Sizes.{across_by, MeasureIn, MeasuresAll};

use crate::bodies_in::BodiesIn;
use bodies::subroutines::Subroutines;
use bodies::subrs::Source;
use bodies::{Manner, NO_RANKS};
use cff::loaded::Loaded;
use fds::table::FdTable;
use order_window::window::Kept;
use reach::Subrs;
use renumber::Ranks;

// The bytes of the globals and of the charstrings.
#[derive(Clone, Copy)]
pub struct Totals {
    pub globals: usize,
    pub glyphs: usize,
}

// The bits by which a global subroutine calls local ones: those of the FD in use where it is the only one, else none.
pub fn across(used: &[u32], table: &[Ranks]) -> Ranks
    requires { (256 ≤ length used.now) × (256 ≤ length table.now) }
    ensures { result ≡ across_by table.now (fds_in used.now) }
{
    let mut count: usize = 0;
    let mut last: usize = 0;
    for fd in 0..256 {
        if used[fd] != 0 {
            count += 1;
            last = fd;
        }
    }
    if count == 1 {
        return table[last];
    }
    NO_RANKS
}

// The bytes of the globals by the way, or that their renumbering fails.
fn globals_total(b: &BodiesIn<'_>) -> Option<usize>
    ensures { (result ≡ measured_of (globals b.now)) × (Bounded result) }
{
    let own = b.how.globals;
    let from = Source {
        way: b.how.way,
        of: Subrs::Global,
        ix: b.o.f.globals,
        own,
        locals: across(b.used, b.table),
        globals: own,
        rising: b.how.rising,
    };
    let all = Subroutines {
        from,
        font: b.font,
        words: b.words,
        rows: b.rows,
    };
    bodies::subrs::subrs_total(&all)
}

// The bytes of the locals of each FD in use by the way, in a table; false where their renumbering fails.
fn locals_totals(b: &BodiesIn<'_>, sums: &mut [usize]) -> bool
    requires { 256 ≤ length sums.old }
    ensures { MeasuresLocals b.now.how.way (program b.now) (rows_of b.now.rows.now) b.now.words.now b.now.table.now b.now.how.globals
        b.now.used.now sums.new result }
{
    let loaded = Loaded {
        bytes: b.font,
        f: b.o.f,
    };
    let fds = FdTable {
        font: loaded,
        used: b.used,
        table: b.table,
    };
    fds::totals::measure_locals(b.how, &fds, b.words, b.rows, sums)
}

// The bytes of all bodies by the way, the bytes of the locals of each FD in use in a table; or that a part fails.
pub fn measure(
    kept: &mut Kept<'_>,
    how: Manner,
    used: &[u32],
    table: &[Ranks],
    rows: &[u8],
    sums: &mut [usize],
) -> Option<Totals>
    requires { (MeasureIn kept.old.font.now kept.old.o used.now kept.old.words.now how table.now (rows_of rows.now)) × (256 ≤ length sums.old) }
    ensures { (MeasuresAll how.way (program_of kept.old.font.now kept.old.o.f) (rows_of rows.now) kept.old.words.now used.now table.now how.globals
        (kept_glyphs kept.old) sums.new result) × Stays kept.old kept.new }
{
    let b = BodiesIn {
        how,
        o: kept.o,
        font: kept.font,
        used,
        words: kept.words,
        table,
        rows,
    };
    let globals = globals_total(&b)?;
    if !locals_totals(&b, sums) {
        return None;
    }
    let glyphs = glyph_bodies::charstrings_total(kept, how, table, rows)?;
    Some(Totals { globals, glyphs })
}
