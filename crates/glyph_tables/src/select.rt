// The FDSelect of a subset (document 01, 'Layout'): the FDs of the glyphs that are written, by their new numbers; measured, and written.
ghost use Rattle.std.specs.Prelude.{◌≡◌, ◌+◌, ◌≤◌, length};
ghost use Rattle.octets.specs.Out.{Writes};
ghost use Rattle.charset.specs.FdPlaces.{fd_of, GoodSelect};
ghost use Rattle.charset.specs.FdSelectBytes.{fd_ranges, fd_select_bytes};
ghost use Rattle.order_window.specs.Stays.{Stays};
ghost use Rattle.glyph_tables.specs.Tables.{fds_kept, new_fd_by, new_fds_by, HasNumber, Numbered};

use charset::fd_select::FdSelect;
use charset::fd_writer::{Count, Sink};
use octets::out::Out;
use order_window::window::Kept;

// The new number of the FD of a glyph.
fn new_fd(font: &[u8], select: FdSelect, g: usize, table: &[u32]) -> u8
    requires { (GoodSelect font.now select) × HasNumber table.now (fd_of font.now select g) }
    ensures { result ≡ new_fd_by table.now (fd_of font.now select g) }
{
    let fd = charset::fd_select::fd_of(font, select, g) as usize;
    let rank = table[fd];
    (rank - 1) as u8
}

// The ranges of the FDSelect of the kept glyphs.
fn each_range<S: Sink>(kept: &mut Kept<'_>, table: &[u32], to: &mut S)
    requires { (Numbered table.now (fds_kept kept.old)) × S.room to.old (fd_ranges (new_fds_by table.now (fds_kept kept.old))) }
    ensures { S.takes to.old (fd_ranges (new_fds_by table.now (fds_kept kept.old))) to.new × Stays kept.old kept.new }
{
    let font = kept.font;
    let f = kept.o.f;
    let mut last: Option<u8> = None;
    for i in 0..kept.o.count {
        let g = kept.word(i) % 65536;
        let fd = new_fd(font, f.select, g, table);
        if last != Some(fd) {
            to.range(i, fd);
            last = Some(fd);
        }
    }
}

// How many bytes the FDSelect of the kept glyphs has.
pub fn select_len(kept: &mut Kept<'_>, table: &[u32]) -> usize
    requires { Numbered table.now (fds_kept kept.old) }
    ensures { (result ≡ length (fd_select_bytes (new_fds_by table.now (fds_kept kept.old)))) × Stays kept.old kept.new }
{
    let mut count = Count { ranges: 0 };
    each_range(kept, table, &mut count);
    5 + 3 * count.ranges
}

// Writes it: the ranges, then the format and their count in front of them, and the count of glyphs behind.
pub fn put_select(kept: &mut Kept<'_>, table: &[u32], out: &mut Out<'_>)
    requires { (Numbered table.now (fds_kept kept.old)) × (out.old.at ≤ 67108864)
        × (out.old.at + length (fd_select_bytes (new_fds_by table.now (fds_kept kept.old))) ≤ length out.old.bytes.now) }
    ensures { (Writes out.old (fd_select_bytes (new_fds_by table.now (fds_kept kept.old))) out.new) × Stays kept.old kept.new }
{
    let start = out.at;
    out.at = start + 3;
    each_range(&mut *kept, table, &mut *out);
    let end = out.at;
    out.at = start;
    out.byte(3);
    out.num((end - start - 3) / 3, 2);
    out.at = end;
    out.num(kept.o.count, 2);
}
