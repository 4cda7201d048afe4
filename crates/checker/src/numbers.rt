// Whether each subroutine that a record lists as reached exists (document 02, Wish 6), by a table of how many there are in each FD in use (none for another).
ghost use Rattle.std.specs.Prelude.{◌≡◌, ◌<◌};
ghost use Rattle.record.specs.Record.{rows_of};
ghost use Rattle.cff.specs.Loaded.{program};
ghost use Rattle.subset.specs.Kept.{fds_of, used_fds};
ghost use Rattle.reach.specs.Reach.{row_in};
ghost use Rattle.tracer.specs.Tracing.{fd_for, marked_in};
ghost use Rattle.accepted.specs.Accepted.{each_row, number_is};
ghost use Rattle.checker.specs.Checking.{below, number_fits, Unlimited, Known, Limited, Limits};

use faithful::read::Held;
use private_dicts::fd::Fd;
use reach::Row;
use tracer::marked::Marked;

// Puts how many local subroutines the FD of glyph g has to its place; a Private DICT is read once.
fn put_limit(font: &Held<'_>, g: usize, limits: &mut [Option<usize>; 256])
    requires { (g < font.now.loaded.f.charstrings.count) × (Known (program font.now.loaded) limits.old) }
    ensures { Limited (program font.now.loaded) (fd_for font.now g) limits.old limits.new }
{
    let fd = charset::fd_select::fd_of(font.loaded.bytes, font.loaded.f.select, g) as usize;
    if limits[fd].is_none() {
        let at = Fd {
            font: font.loaded,
            fd,
        };
        limits[fd] = Some(private_dicts::fd_private(&at).locals.count);
    }
}

// The same for the FDs of all marked glyphs.
fn put_limits(glyphs: &Marked<'_>, limits: &mut [Option<usize>; 256])
    requires { Unlimited limits.old }
    ensures { Limits (program glyphs.now.font.loaded) (fds_of (program glyphs.now.font.loaded) (marked_in glyphs.now)) limits.new }
{
    for g in 0..glyphs.font.loaded.f.charstrings.count {
        if glyphs.marks[g] != 0 {
            put_limit(&glyphs.font, g, &mut *limits);
        }
    }
}

// Whether a number is below a limit, if there is one.
fn is_below(number: usize, limit: Option<usize>) -> bool
    ensures { result ≡ below number limit }
{
    match limit {
        None => true,
        Some(many) => number < many,
    }
}

// Whether the subroutine of a row exists, where the row lists one.
fn number_fits(r: Row, globals: usize, limits: &[Option<usize>; 256]) -> bool
    ensures { result ≡ number_fits globals limits.now (row_in r) }
{
    let fd = r.fd as usize;
    if r.kind == 0 {
        return is_below(r.number as usize, limits[fd]);
    }
    if r.kind == 1 {
        return (r.number as usize) < globals;
    }
    true
}

// The same of all rows of a record.
fn numbers_fit(rows: &[u8], globals: usize, limits: &[Option<usize>; 256]) -> bool
    ensures { result ≡ each_row (number_fits globals limits.now) (rows_of rows.now) }
{
    (0..rows.len() / 10).all(|i| number_fits(reach::row_at(rows, i), globals, limits))
}

// Whether each subroutine that the record lists exists, those of FDs that no marked glyph has aside.
pub fn numbers_are(glyphs: &Marked<'_>, rows: &[u8]) -> bool
    ensures { result ≡ each_row (number_is (program glyphs.now.font.loaded) (used_fds (program glyphs.now.font.loaded) (marked_in glyphs.now))) (rows_of rows.now) }
{
    let mut limits = [None; 256];
    put_limits(glyphs, &mut limits);
    numbers_fit(rows, glyphs.font.loaded.f.globals.count, &limits)
}
