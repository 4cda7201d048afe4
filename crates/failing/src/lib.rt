// Which glyph alone can be the culprit (document 02, Wish 12): a kept glyph whose charstring cannot be renumbered by the rows that the kept glyphs meet.
// Without any other glyph it still cannot.
#![tactic(auto)]

pub mod list;
pub mod renumbering;

ghost use Rattle.std.specs.Prelude.{◌≡◌, true, ◌∷◌, ◌≤◌, ◌<◌, length, get_or, set, replicate};
ghost use Rattle.unfold.specs.Unfold.{glyph};
ghost use Rattle.record.specs.Record.{rows_of};
ghost use Rattle.small.specs.Small.{small_size};
ghost use Rattle.cff.specs.Loaded.{program};
ghost use Rattle.bodies.specs.Ways.{holds};
ghost use Rattle.fds.specs.Locals.{in_use_lem};
ghost use Rattle.culprit.specs.NarrowLaws.{body_at};
ghost use Rattle.failing.specs.Failing.{FdsMarked, first_failing, Recorded, Only};

use crate::list::KeepList;
use crate::renumbering::Renumbering;
use bodies::NO_RANKS;
use faithful::read::Held;
use fds::in_use::InUse;
use reach::rows::Rows;
use renumber::body::Body;
use unfold::Site;

// Marks the FD of a glyph as in use.
fn mark_fd(font: &Held<'_>, g: usize, used: &mut [u32])
    requires { (g < font.now.loaded.f.charstrings.count) × (256 ≤ length used.old) }
    ensures { used.new ≡ set used.old (get_or (program font.now.loaded).fds g 0) 1 }
{
    let select = font.loaded.f.select;
    let fd = charset::fd_select::fd_of(font.loaded.bytes, select, g) as usize;
    used[fd] = 1;
}

// Marks the FDs of the kept glyphs.
fn mark_fds(list: &KeepList<'_, '_>, used: &mut [u32])
    requires { used.old ≡ replicate 256 0 }
    ensures { FdsMarked (program list.now.font.loaded) list.now.keep.now used.new }
{
    let font = &list.font;
    mark_fd(font, 0, &mut *used);
    for g in list.keep {
        mark_fd(font, *g as usize, &mut *used);
    }
}

// Whether the charstring of a glyph can be renumbered.
fn is_made(by: &Renumbering<'_, '_>, g: usize) -> bool
    requires { (g < by.now.list.font.loaded.f.charstrings.count)
        × (in_use_lem by.now.used.now (get_or (program by.now.list.font.loaded).fds g 0) ≡ true) }
    ensures { result ≡ holds (body_at (program by.now.list.font.loaded) (rows_of by.now.rows.bytes.now) (glyph g)) }
{
    let font = by.list.font.loaded;
    let select = font.f.select;
    let charstrings = font.f.charstrings;
    let fd = charset::fd_select::fd_of(font.bytes, select, g) as usize;
    let locals = by.table[fd];
    let rows = by.rows;
    let body = Body {
        code: index::item(font.bytes, charstrings, g),
        words: by.words,
        locals,
        globals: by.globals,
        rows,
        site: Site::Glyph(g as u16),
    };
    renumbered::renumbered_len(&body).is_some()
}

// The first kept glyph whose charstring cannot be renumbered.
fn first_failing(by: &Renumbering<'_, '_>) -> Option<u16>
    ensures { result ≡ first_failing (program by.now.list.font.loaded) (rows_of by.now.rows.bytes.now) (0 ∷ by.now.list.keep.now) }
{
    if !is_made(by, 0) {
        return Some(0);
    }
    let keep = by.list.keep;
    for i in 0..keep.len() {
        let g = keep[i];
        if !is_made(by, g as usize) {
            return Some(g);
        }
    }
    None
}

// The glyph that alone can be the culprit, where one is found. The work words are used.
pub fn only_culprit(list: &KeepList<'_, '_>, rows: &[u8], words: &mut [u32]) -> Option<u16>
    requires { (small_size (program list.now.font.loaded) ≤ length words.old) × (Recorded (program list.now.font.loaded) list.now.keep.now rows.now) }
    ensures { Only (program list.now.font.loaded) list.now.keep.now result }
{
    let mut used = [0u32; 256];
    mark_fds(list, &mut used);
    let mut table = [NO_RANKS; 256];
    let fds = InUse {
        font: list.font.loaded,
        used: &used,
    };
    let ranked = plan::rank_all(&fds, rows, &mut *words, &mut table);
    if ranked.all {
        let rows = Rows {
            bytes: rows,
            rising: reach::masks::rises(rows),
        };
        let by = Renumbering {
            list: *list,
            used: &used,
            globals: ranked.globals,
            words: &*words,
            table: &table,
            rows,
        };
        return first_failing(&by);
    }
    None
}
