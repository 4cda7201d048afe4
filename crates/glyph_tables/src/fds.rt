// The FDs in use and their new numbers (document 01, 'Layout'): the FDs of the glyphs that are written are marked, and each mark becomes the
// new number of its FD, plus 1.
ghost use Rattle.std.specs.Prelude.{◌≡◌, ◌≤◌, length};
ghost use Rattle.octets.specs.Octets.{put};
ghost use Rattle.subset.specs.Kept.{is_in};
ghost use Rattle.bits.specs.Bits.{count_below};
ghost use Rattle.reach.specs.Reach.{ranks_of};
ghost use Rattle.order_window.specs.Stays.{Stays};
ghost use Rattle.glyph_tables.specs.Tables.{fds_kept, marked_fds};

use order_window::window::Kept;

// Marks the FDs of the kept glyphs.
fn mark_fds(kept: &mut Kept<'_>, marks: &mut [u32])
    requires { length marks.old ≡ 256 }
    ensures { (marks.new ≡ marked_fds (fds_kept kept.old) marks.old) × Stays kept.old kept.new }
{
    let font = kept.font;
    let f = kept.o.f;
    for i in 0..kept.o.count {
        let g = kept.word(i) % 65536;
        let fd = charset::fd_select::fd_of(font, f.select, g) as usize;
        marks[fd] = 1;
    }
}

// Sets all 256 words of a table to the new numbers of FDs, plus 1, or 0 for an FD that no kept glyph has; returns how many are in use.
fn rank_all(kept: &mut Kept<'_>, table: &mut [u32]) -> usize
    requires { length table.old ≡ 256 }
    ensures { (table.new ≡ ranks_of (λ d. is_in d (fds_kept kept.old)) 0 256) × (result ≡ count_below (λ d. is_in d (fds_kept kept.old)) 256)
        × Stays kept.old kept.new }
{
    table.fill(0);
    mark_fds(kept, &mut *table);
    reach::ranks::rank_marks(table)
}

// The same for the first 256 words of a table.
pub fn rank_fds(kept: &mut Kept<'_>, table: &mut [u32]) -> usize
    requires { 256 ≤ length table.old }
    ensures { (table.new ≡ put table.old 0 (ranks_of (λ d. is_in d (fds_kept kept.old)) 0 256))
        × (result ≡ count_below (λ d. is_in d (fds_kept kept.old)) 256) × Stays kept.old kept.new }
{
    rank_all(kept, &mut table[0..256])
}
