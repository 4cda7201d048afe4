// The Private parts of the FDs in use: each Private DICT with its new local subroutines behind it, measured first and then written.
ghost use Rattle.std.specs.Prelude.{◌≡◌, ◌≤◌, ◌<◌, length};
ghost use Rattle.octets.specs.Octets.{put};
ghost use Rattle.cff.specs.Loaded.{program};
ghost use Rattle.fds.specs.Locals.{fds_in};
ghost use Rattle.fds.specs.Parts.{subrs_len, part_by, PartsFit, SizesParts};

use crate::table::FdTable;
use bodies::subrs::kept_count;
use private_dicts::fd::Fd;
use private_dicts::held::PrivateDict;
use private_dicts::part::Part;
use subset::Way;

// The FDs in use, rising, from the front of fds on; how many they are.
pub fn list_used(used: &[u32], fds: &mut [usize]) -> usize
    requires { (256 ≤ length used.now) × (256 ≤ length fds.old) }
    ensures { (fds.new ≡ put fds.old 0 (fds_in used.now)) × (result ≡ length (fds_in used.now)) × (result ≤ 256) }
{
    let mut j: usize = 0;
    for fd in 0..256 {
        if used[fd] != 0 {
            fds[j] = fd;
            j += 1;
        }
    }
    j
}

// How long the INDEX of so many local subroutines is; 0 where there are none.
fn subrs_len(left: usize, total: usize) -> usize
    requires { (left < 65536) × (total ≤ 281474976710656) }
    ensures { (result ≡ subrs_len left total) × (result ≤ 281475000000000) }
{
    if left == 0 {
        return 0;
    }
    index::index_len(left, total)
}

// The part of an FD with so many local subroutines that have so many bytes together.
fn part_of(at: &Fd<'_>, left: usize, total: usize) -> Part
    requires { (length at.now.font.bytes.now ≤ 67108864) × (left < 65536) × (total ≤ 281474976710656) }
    ensures { (result ≡ part_by (program at.now.font) left total at.now.fd) × (result.len ≤ 281482000000000) }
{
    let dict = PrivateDict {
        bytes: at.font.bytes,
        q: private_dicts::fd_private(at),
    };
    let size = private_dicts::dict_len(&dict, left);
    let len = size + subrs_len(left, total);
    Part { size, len }
}

// The parts of the FDs in use by new number, from the front of parts on; how long they are together.
pub fn part_sizes(way: Way, fds: &FdTable<'_, '_>, totals: &[usize], parts: &mut [Part]) -> usize
    requires { (256 ≤ length totals.now) × (PartsFit (program fds.now.font) way fds.now.table.now totals.now fds.now.used.now)
        × (256 ≤ length parts.old) }
    ensures { SizesParts (program fds.now.font) way fds.now.table.now totals.now fds.now.used.now parts.old parts.new result }
{
    let font = fds.font;
    let used = fds.used;
    let mut all: usize = 0;
    let mut j: usize = 0;
    for fd in 0..256 {
        if used[fd] != 0 {
            let own = fds.table[fd];
            let left = kept_count(way, own.reached, own.count);
            let at = Fd { font, fd };
            let part = part_of(&at, left, totals[fd]);
            parts[j] = part;
            all += part.len;
            j += 1;
        }
    }
    all
}
