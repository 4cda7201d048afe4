// The Private DICTs of a subset and the Font DICTs of a CID-keyed one, measured first and then written (the Rust's subset and subset_cid).
#![tactic(auto)]

pub mod fd;
pub mod fd_array;
pub mod held;
pub mod part;

ghost use Rattle.std.specs.Prelude.{◌≡◌, ◌++◌, ℕ, ◌+◌, ◌≤◌, ◌<◌, length, get_or, Ok};
ghost use Rattle.octets.specs.Out.{Writes};
ghost use Rattle.dict.specs.Places.{entries_of};
ghost use Rattle.dict.specs.Lookup.{last_of};
ghost use Rattle.dict.specs.Op.{font_matrix};
ghost use Rattle.dict_write.specs.Written.{copied_entry, private_entry};
ghost use Rattle.index.specs.Write.{total, index_bytes};
ghost use Rattle.cff.specs.Reads.{GoodPrivate, fd_private};
ghost use Rattle.cff.specs.Loaded.{program};
ghost use Rattle.cff.specs.Reads as reads;
ghost use Rattle.subset.specs.Kept.{private_of};
ghost use Rattle.subset.specs.Subset.{matrix_of};
ghost use Rattle.private_dicts.specs.Privates.{FdRead, private_dict_by, matrices_by, font_dicts_by, Placed};
ghost use Rattle.private_dicts.specs.Held.{entries};

use crate::fd::Fd;
use crate::fd_array::FdArray;
use crate::held::PrivateDict;
use crate::part::Part;
use cff::private::PrivateAt;
use cff::table::Table;
use dict::nowhere;
use dict::op::Op;
use dict_write::{
    copied_len, private_len, put_copied, put_offset_entry, put_private, put_private_entry,
};
use octets::out::Out;

// The Private DICT of the FD with bytes d, which was read before.
fn read_fd(font: &[u8], d: &[u8]) -> PrivateAt
    requires { (2 ≤ length font.now) × (FdRead font.now d.now) }
    ensures { GoodPrivate font.now result × (Ok (reads.private_of font.now result) ≡ fd_private font.now d.now) }
{
    let read = cff::private::private_at(&Table { bytes: font }, d);
    match read {
        Err(_) => cff::private::no_private(),
        Ok(q) => q,
    }
}

// The Private DICT of an FD; in a name-keyed font the one.
pub fn fd_private(at: &Fd<'_>) -> PrivateAt
    ensures { GoodPrivate at.now.font.bytes.now result × (reads.private_of at.now.font.bytes.now result ≡ private_of (program at.now.font) at.now.fd) }
{
    let font = at.font.bytes;
    let f = at.font.f;
    let cid = f.cid;
    if cid {
        return read_fd(font, index::item(font, f.dicts, at.fd));
    }
    f.private
}

// The length of the Private DICT with bytes d and so many local subroutines behind it: 6 bytes for Subrs where there are some.
fn bytes_len(d: &[u8], left: usize) -> usize
    requires { length d.now ≤ 67108864 }
    ensures { (result ≡ length (private_dict_by (entries_of d.now) left)) × (result ≤ 6912212998) }
{
    let n = private_len(d);
    if left == 0 {
        return n;
    }
    n + 6
}

// The length of a Private DICT with so many local subroutines behind it.
pub fn dict_len(p: &PrivateDict<'_>, left: usize) -> usize
    ensures { (result ≡ length (private_dict_by (entries p.now) left)) × (result ≤ 6912212998) }
{
    let q = p.q;
    let d = &p.bytes[q.start..q.start + q.size];
    bytes_len(d, left)
}

// The Private DICT with bytes d and so many local subroutines behind it.
fn put_bytes(d: &[u8], left: usize, out: &mut Out<'_>)
    requires { (length (private_dict_by (entries_of d.now) left) < 2147483648) × (out.old.at + length (private_dict_by (entries_of d.now) left) ≤ length out.old.bytes.now) }
    ensures { Writes out.old (private_dict_by (entries_of d.now) left) out.new }
{
    let at = out.at;
    put_private(d, &mut *out);
    if left == 0 {
        return;
    }
    put_offset_entry(Op::SUBRS, out.at - at + 6, out)
}

// A Private DICT with so many local subroutines behind it.
pub fn put_dict(p: &PrivateDict<'_>, left: usize, out: &mut Out<'_>)
    requires { (length (private_dict_by (entries p.now) left) < 2147483648) × (out.old.at + length (private_dict_by (entries p.now) left) ≤ length out.old.bytes.now) }
    ensures { Writes out.old (private_dict_by (entries p.now) left) out.new }
{
    let q = p.q;
    let d = &p.bytes[q.start..q.start + q.size];
    put_bytes(d, left, out)
}

// The Font DICT of the FD with a new number.
fn font_dict<'a>(a: &FdArray<'a, '_>, k: usize) -> &'a [u8]
    requires { k < length a.now.fds.now }
    ensures { (last_of font_matrix (entries_of result.now) ≡ matrix_of (program a.now.font) (get_or a.now.fds.now k 0)) × (length result.now ≤ 67108864) }
{
    index::item(a.font.bytes, a.font.f.dicts, a.fds[k])
}

// The length of the FontMatrix of a Font DICT, as it is copied.
fn matrix_len(d: &[u8]) -> usize
    requires { length d.now ≤ 67108864 }
    ensures { (result ≡ length (copied_entry font_matrix (last_of font_matrix (entries_of d.now)))) × (result ≤ 7000000000) }
{
    copied_len(&nowhere(d), Op::FONT_MATRIX)
}

// The length of the FontMatrix entries of all FDs.
pub fn matrices_len(a: &FdArray<'_, '_>) -> usize
    ensures { (result ≡ total (matrices_by (program a.now.font) a.now.fds.now)) × (result ≤ 1792000000000) }
{
    let mut len: usize = 0;
    for k in 0..a.fds.len() {
        len += matrix_len(font_dict(a, k));
    }
    len
}

// A Font DICT of a subset: the FontMatrix of one of the font, and a Private DICT of a size at a place.
fn put_font_dict(d: &[u8], size: usize, place: usize, out: &mut Out<'_>)
    requires { (size < 2147483648) × (place < 2147483648)
        × (out.old.at + length (copied_entry font_matrix (last_of font_matrix (entries_of d.now)) ++ private_entry size place) ≤ length out.old.bytes.now) }
    ensures { Writes out.old (copied_entry font_matrix (last_of font_matrix (entries_of d.now)) ++ private_entry size place) out.new }
{
    put_copied(&nowhere(d), Op::FONT_MATRIX, &mut *out);
    put_private_entry(size, place, out)
}

// The FD INDEX: the Font DICTs of all FDs, for these parts, which stand one behind the other, the first at `from`.
pub fn put_font_dicts(a: &FdArray<'_, '_>, parts: &[Part], from: usize, out: &mut Out<'_>)
    requires { (Placed (program a.now.font) a.now.fds.now parts.now from) × (out.old.at < 4294967296)
        × (out.old.at + length (index_bytes (font_dicts_by (program a.now.font) a.now.fds.now parts.now from)) ≤ length out.old.bytes.now) }
    ensures { Writes out.old (index_bytes (font_dicts_by (program a.now.font) a.now.fds.now parts.now from)) out.new }
{
    let count = a.fds.len();
    let total = matrices_len(a) + 11 * count;
    let ix = index::index_for(out.at, count, total);
    index::put_head(&mut *out, count, total);
    out.at = ix.base + 1;
    let mut place = from;
    for k in 0..count {
        let part = parts[k];
        put_font_dict(font_dict(a, k), part.size, place, &mut *out);
        index::put_end(&mut *out, ix, k);
        place += part.len;
    }
}
