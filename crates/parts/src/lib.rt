// The bodies of a subset from its plan (document 01, 'Corners in write.rs'): all subroutines ranked, the way found and all bodies measured;
// what is measured and written then is the subset's.
#![tactic(auto)]

ghost use Rattle.std.specs.Prelude.{◌≡◌, ◌+◌, ◌≤◌, length};
ghost use Rattle.octets.specs.Out.{Writes};
ghost use Rattle.octets.specs.Pick.{pick};
ghost use Rattle.index.specs.Write.{index_bytes, index_len_lem};
ghost use Rattle.record.specs.Record.{rows_of};
ghost use Rattle.cff.specs.Reads.{program_of};
ghost use Rattle.subset.specs.Pruned.{pruned};
ghost use Rattle.bodies.specs.Ways.{kept_count};
ghost use Rattle.fds.specs.Locals.{fds_in};
ghost use Rattle.order_window.specs.Window.{glyphs_of, Steady, HoldsAll, Gathered};
ghost use Rattle.parts.specs.Ready.{PlanIn, at_rest, bodies_for, Ready, Summed};

use bodies::Manner;
use bodies::measured::Measured;
use bodies::subroutines::Subroutines;
use bodies::subrs::Source;
use cff::loaded::Loaded;
use fds::in_use::InUse;
use octets::out::Out;
use order_window::Order;
use order_window::window::Kept;
use reach::Subrs;
use renumber::Ranks;

// The kept glyphs, how bodies are written by the way that was found, and the bytes of the globals and of the charstrings by it.
#[derive(Clone, Copy)]
pub struct Planned {
    pub order: Order,
    pub how: Manner,
    pub globals_total: usize,
    pub glyphs_total: usize,
}

// The order that was given, where no loop over it had begun: then it still stands, whatever the window holds by now.
fn standing(given: Order, moved: Order) -> Order
    ensures { result ≡ pick (at_rest given) given moved }
{
    let held = given.held;
    if held.from == 0 && (held.walk.done == 0 || held.walk.done == given.count) {
        return given;
    }
    moved
}

// Ranks all subroutines in the work words behind the bits of the glyphs, finds the way, and measures all bodies by it: those of the locals of
// each FD in use in a table. A window that holds all kept glyphs is left as it was; of another the order that was given still stands.
pub fn plan_all(
    o: Order,
    font: &[u8],
    rows: &[u8],
    traced: u8,
    used: &[u32],
    words: &mut [u32],
    window: &mut [u32],
    table: &mut [Ranks],
    totals: &mut [usize],
) -> Planned
    requires { (PlanIn font.now o used.now words.old window.old) × (256 ≤ length table.old) × (256 ≤ length totals.old) }
    ensures { (Ready font.now (rows_of rows.now) used.now words.new result table.new)
        × (Summed font.now (rows_of rows.now) used.now words.new result table.new totals.new)
        × (Gathered font.now words.new window.new result.order) × (result.order.f ≡ o.f) × (result.order.count ≡ o.count)
        × (glyphs_of font.now o.f words.new ≡ glyphs_of font.now o.f words.old)
        × (record { way = result.how.way; bodies = bodies_for font.now (rows_of rows.now) used.now words.new result }
        ≡ pruned (program_of font.now o.f) (rows_of rows.now) (fds_in used.now) (glyphs_of font.now o.f words.old) traced)
        × (HoldsAll o → (result.order ≡ o) × (window.new ≡ window.old))
        × (Steady font.now o.f words.old window.old o.held → Gathered font.now words.new window.new o)
        × (Steady font.now o.f words.old window.old o.held → result.order ≡ o) }
{
    let loaded = Loaded {
        bytes: font,
        f: o.f,
    };
    let fds = InUse { font: loaded, used };
    let ranked = plan::rank_all(&fds, rows, &mut *words, &mut *table);
    let rising = reach::masks::rises(rows);
    let globals = ranked.globals;
    let first = Manner {
        way: plan::first_way(traced, ranked.all),
        globals,
        rising,
    };
    let mut kept = Kept {
        font,
        words,
        window,
        o,
    };
    let found = plan::plan_bodies(&mut kept, first, used, table, rows, totals);
    let how = Manner {
        way: found.way,
        globals,
        rising,
    };
    Planned {
        order: standing(o, kept.o),
        how,
        globals_total: found.globals_total,
        glyphs_total: found.glyphs_total,
    }
}

// The length of the INDEX of the global subroutines, also where it is too long to be written.
pub fn globals_len(r: Planned) -> usize
    requires { (kept_count r.how.way r.how.globals.reached r.how.globals.count ≤ 65535) × (r.globals_total ≤ 281474976710656) }
    ensures { (result ≡ index_len_lem (kept_count r.how.way r.how.globals.reached r.how.globals.count) r.globals_total)
        × (result ≤ 281474977000000) }
{
    let own = r.how.globals;
    let count = bodies::subrs::kept_count(r.how.way, own.reached, own.count);
    index::index_len(count, r.globals_total)
}

// The length of the INDEX of the charstrings, also where it is too long to be written.
pub fn glyphs_len(r: Planned) -> usize
    requires { (r.order.count ≤ 65535) × (r.glyphs_total ≤ 281474976710656) }
    ensures { (result ≡ index_len_lem r.order.count r.glyphs_total) × (result ≤ 281474977000000) }
{
    index::index_len(r.order.count, r.glyphs_total)
}

// Writes the INDEX of the global subroutines from `at` on; the place after it. They call local ones by the ranks of the only FD in use.
pub fn put_globals(
    r: Planned,
    font: &[u8],
    used: &[u32],
    words: &[u32],
    table: &[Ranks],
    rows: &[u8],
    out: &mut Out<'_>,
)
    requires { (Ready font.now (rows_of rows.now) used.now words.now r table.now)
        × (out.old.at + length (index_bytes (bodies_for font.now (rows_of rows.now) used.now words.now r).globals) ≤ 67108864)
        × (out.old.at + length (index_bytes (bodies_for font.now (rows_of rows.now) used.now words.now r).globals) ≤ length out.old.bytes.now) }
    ensures { Writes out.old (index_bytes (bodies_for font.now (rows_of rows.now) used.now words.now r).globals) out.new }
{
    let f = r.order.f;
    let ix = f.globals;
    let how = r.how;
    let own = how.globals;
    let locals = plan::sizes::across(used, table);
    let of = Subrs::Global;
    let from = Source {
        way: how.way,
        of,
        ix,
        own,
        locals,
        globals: own,
        rising: how.rising,
    };
    let all = Subroutines {
        from,
        font,
        words,
        rows,
    };
    let m = Measured {
        all,
        total: r.globals_total,
    };
    bodies::subrs::put_subrs(&m, out)
}
