// Everything that goes over the FDs in use: the bits of their local subroutines in the work words, and their Private DICTs with the new
// local subroutines behind them.
#![tactic(auto)]

pub mod in_use;
pub mod parts;
pub mod privates;
pub mod table;
pub mod totals;

ghost use Rattle.std.specs.Prelude.{◌≡◌, ◌+◌, ◌≤◌, ◌<◌, length};
ghost use Rattle.octets.specs.Octets.{put};
ghost use Rattle.record.specs.Record.{rows_of};
ghost use Rattle.bits.specs.Bits.{words_for};
ghost use Rattle.cff.specs.Find.{locals_words};
ghost use Rattle.cff.specs.Loaded.{program};
ghost use Rattle.subset.specs.Kept.{locals_of};
ghost use Rattle.fds.specs.Locals.{fd_bits, ranked_locals, RanksLocals};

use crate::in_use::InUse;
use private_dicts::fd::Fd;
use reach::Subrs;
use renumber::Ranks;

// The bits of the local subroutines of an FD, and whether the record has no other number.
#[derive(Clone, Copy)]
pub struct RankedLocals {
    pub own: Ranks,
    pub all: bool,
}

// Sets the bits of the locals of an FD in the words from `at` on.
fn rank_fd(of: &Fd<'_>, rows: &[u8], words: &mut [u32], at: usize) -> RankedLocals
    requires { (of.now.fd < 256) × (at + words_for (length (locals_of (program of.now.font) of.now.fd)) ≤ length words.old) }
    ensures { (words.new ≡ put words.old at (fd_bits (program of.now.font) (rows_of rows.now) of.now.fd))
        × (result ≡ ranked_locals (program of.now.font) (rows_of rows.now) at of.now.fd) × (result.own.count < 65536) }
{
    let q = private_dicts::fd_private(of);
    let count = q.locals.count;
    let r = reach::ranks::rank_reached(rows, Subrs::Local(of.fd), words, at, count);
    let own = Ranks {
        at,
        count,
        reached: r.reached,
        low: r.low,
        high: r.high,
    };
    RankedLocals { own, all: r.all }
}

// Sets the bits of the locals of each FD in use, one FD behind the other from `at` on; whether no number is without a subroutine.
pub fn rank_locals(
    fds: &InUse<'_, '_>,
    rows: &[u8],
    words: &mut [u32],
    at: usize,
    table: &mut [Ranks],
) -> bool
    requires { (at < 4294967296) × (at + locals_words (program fds.now.font).privates ≤ length words.old) × (256 ≤ length table.old) }
    ensures { RanksLocals (program fds.now.font) (rows_of rows.now) fds.now.used.now at words.old words.new table.new result }
{
    let font = fds.font;
    let used = fds.used;
    let mut place = at;
    let mut all = true;
    for fd in 0..256 {
        if used[fd] != 0 {
            let of = Fd { font, fd };
            let r = rank_fd(&of, rows, &mut *words, place);
            table[fd] = r.own;
            all = all && r.all;
            place += bits::words_for(r.own.count);
        }
    }
    all
}
