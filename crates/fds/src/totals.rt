// The new local subroutines of the FDs in use, measured by the way.
ghost use Rattle.std.specs.Prelude.{◌≡◌, ◌≤◌, length};
ghost use Rattle.record.specs.Record.{rows_of};
ghost use Rattle.cff.specs.Loaded.{program};
ghost use Rattle.bodies.specs.Ways.{measured_of};
ghost use Rattle.bodies.specs.Sizes.{Bounded};
ghost use Rattle.fds.specs.NewLocals.{locals_with, FdIn, MeasuresLocals, LocalsIn};

use crate::table::FdTable;
use bodies::Manner;
use bodies::subroutines::Subroutines;
use bodies::subrs::Source;
use private_dicts::fd::Fd;
use reach::Subrs;
use renumber::Ranks;

// The bytes of the new local subroutines of an FD, by the way; or that their renumbering fails.
fn locals_total(how: Manner, at: &Fd<'_>, words: &[u32], own: Ranks, rows: &[u8]) -> Option<usize>
    requires { FdIn at.now.font.bytes.now (program at.now.font) words.now own how.globals (rows_of rows.now) how.rising at.now.fd }
    ensures { (result ≡ measured_of (locals_with how.way (program at.now.font) (rows_of rows.now) words.now own how.globals at.now.fd))
        × (Bounded result) }
{
    let q = private_dicts::fd_private(at);
    let from = Source {
        way: how.way,
        of: Subrs::Local(at.fd),
        ix: q.locals,
        own,
        locals: own,
        globals: how.globals,
        rising: how.rising,
    };
    let all = Subroutines {
        from,
        font: at.font.bytes,
        words,
        rows,
    };
    bodies::subrs::subrs_total(&all)
}

// The bytes of the new local subroutines of each FD in use, by the way; false where their renumbering fails.
// (No one walk with `put_privates`: that writes a Private DICT before the locals of each FD, and cannot fail.)
pub fn measure_locals(
    how: Manner,
    fds: &FdTable<'_, '_>,
    words: &[u32],
    rows: &[u8],
    totals: &mut [usize],
) -> bool
    requires { (LocalsIn (program fds.now.font) fds.now.used.now words.now fds.now.table.now how.globals (rows_of rows.now) how.rising)
        × (256 ≤ length totals.old) }
    ensures { MeasuresLocals how.way (program fds.now.font) (rows_of rows.now) words.now fds.now.table.now how.globals fds.now.used.now totals.new result }
{
    let font = fds.font;
    let used = fds.used;
    for fd in 0..256 {
        if used[fd] != 0 {
            let own = fds.table[fd];
            let at = Fd { font, fd };
            match locals_total(how, &at, words, own, rows) {
                Some(t) => totals[fd] = t,
                None => return false,
            }
        }
    }
    true
}
