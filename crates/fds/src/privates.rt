// The Private parts of the FDs in use, written by the way: each Private DICT with its new local subroutines behind it.
ghost use Rattle.std.specs.Prelude.{length};
ghost use Rattle.octets.specs.Out.{Writes};
ghost use Rattle.record.specs.Record.{rows_of};
ghost use Rattle.cff.specs.Loaded.{program};
ghost use Rattle.fds.specs.Locals.{fds_in};
ghost use Rattle.fds.specs.NewLocals.{FdIn, LocalsIn};
ghost use Rattle.fds.specs.NewParts.{part_with, PartRoom, parts_for, PartsRoom};

use crate::table::FdTable;
use bodies::Manner;
use bodies::measured::Measured;
use bodies::subroutines::Subroutines;
use bodies::subrs::Source;
use octets::out::Out;
use private_dicts::fd::Fd;
use private_dicts::held::PrivateDict;
use reach::Subrs;
use renumber::Ranks;

// The Private part of an FD.
fn put_part(
    how: Manner,
    of: &Fd<'_>,
    words: &[u32],
    own: Ranks,
    rows: &[u8],
    total: usize,
    out: &mut Out<'_>,
)
    requires { (FdIn of.now.font.bytes.now (program of.now.font) words.now own how.globals (rows_of rows.now) how.rising of.now.fd)
        × (PartRoom how.way (program of.now.font) (rows_of rows.now) words.now own how.globals total out.old.at (length out.old.bytes.now) of.now.fd) }
    ensures { Writes out.old (part_with how.way (program of.now.font) (rows_of rows.now) words.now own how.globals of.now.fd) out.new }
{
    let bytes = of.font.bytes;
    let q = private_dicts::fd_private(of);
    let dict = PrivateDict { bytes, q };
    let left = bodies::subrs::kept_count(how.way, own.reached, own.count);
    private_dicts::put_dict(&dict, left, &mut *out);
    if left == 0 {
        return;
    }
    let from = Source {
        way: how.way,
        of: Subrs::Local(of.fd),
        ix: q.locals,
        own,
        locals: own,
        globals: how.globals,
        rising: how.rising,
    };
    let all = Subroutines {
        from,
        font: bytes,
        words,
        rows,
    };
    let m = Measured { all, total };
    bodies::subrs::put_subrs(&m, out)
}

// The Private parts of the FDs in use.
pub fn put_privates(
    how: Manner,
    fds: &FdTable<'_, '_>,
    words: &[u32],
    totals: &[usize],
    rows: &[u8],
    out: &mut Out<'_>,
)
    requires { (LocalsIn (program fds.now.font) fds.now.used.now words.now fds.now.table.now how.globals (rows_of rows.now) how.rising)
        × (PartsRoom how.way (program fds.now.font) (rows_of rows.now) words.now fds.now.table.now how.globals fds.now.used.now totals.now out.old.at
        (length out.old.bytes.now)) }
    ensures { Writes out.old (parts_for how.way (program fds.now.font) (rows_of rows.now) words.now fds.now.table.now how.globals (fds_in fds.now.used.now)) out.new }
{
    let font = fds.font;
    let used = fds.used;
    for fd in 0..256 {
        if used[fd] != 0 {
            let own = fds.table[fd];
            let of = Fd { font, fd };
            put_part(how, &of, words, own, rows, totals[fd], &mut *out);
        }
    }
}
