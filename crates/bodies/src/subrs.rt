// The subroutines of an INDEX, the globals or the locals of an FD, by the way (the Rust's renumber and stubbed): where they are renumbered,
// only those that are reached are written; where they are stubbed, each other one is a return.
ghost use Rattle.std.specs.Prelude.{◌≡◌, true, ◌+◌, ◌≤◌, ◌<◌, length};
ghost use Rattle.octets.specs.Out.{Writes};
ghost use Rattle.index.specs.Write.{index_bytes};
ghost use Rattle.mask_rows.specs.MaskRows.{HasOrNone};
ghost use Rattle.unfold.specs.Sites.{site_of};
ghost use Rattle.renumber.specs.Ranks.{Ranked};
ghost use Rattle.renumber.specs.Turn.{sized_of, body_of_lem};
ghost use Rattle.bodies.specs.Ways.{holds, measured_of, reached_in, site_in, is_stub, kept_count};
ghost use Rattle.bodies.specs.Sizes.{AtMost, Bounded, len_at};
ghost use Rattle.bodies.specs.Windows.{source_in_order};
ghost use Rattle.bodies.specs.Written.{kept_of, subr_of, subrs_of, new_subrs_of, written, Bodied, Shows};

use crate::measured::Measured;
use crate::subroutines::{Subr, Subroutines};
use index::Index;
use long_bodies::long_body::LongBody;
use mask_rows::Window;
use mask_rows::lent::Lent;
use octets::out::Out;
use reach::Subrs;
use renumber::Ranks;
use renumber::body::{Body, rows_known};
use subset::Way;
use unfold::Site;

// Subroutines, and how they are written: the way, their INDEX, their bits, the bits of those that they call, and whether the rows rise.
#[derive(Clone, Copy)]
pub struct Source {
    pub way: Way,
    pub of: Subrs,
    pub ix: Index,
    pub own: Ranks,
    pub locals: Ranks,
    pub globals: Ranks,
    pub rising: bool,
}

// Whether a subroutine is reached, by its bit.
fn is_reached(all: &Subroutines<'_>, k: usize) -> bool
    ensures { result ≡ reached_in all.now.words.now all.now.from.own k }
{
    let own = all.from.own;
    k < own.count && bits::has_bit(all.words, own.at, k)
}

// Whether a subroutine is written.
fn is_kept(all: &Subroutines<'_>, k: usize) -> bool
    ensures { result ≡ kept_of all.now k }
{
    all.from.way != Way::Renumbered || is_reached(all, k)
}

// Whether a subroutine stands as a return.
fn is_stub(all: &Subroutines<'_>, k: usize) -> bool
    ensures { result ≡ is_stub all.now.from.way (reached_in all.now.words.now all.now.from.own) k }
{
    all.from.way == Way::Stubbed && !is_reached(all, k)
}

// A subroutine as the record names it.
fn site_for(one: &Subr<'_>) -> Site
    ensures { site_of result ≡ site_in one.now.of.now.from.of one.now.k }
{
    let of = one.of.from.of;
    match of {
        Subrs::Global => Site::Global(one.k as u16),
        Subrs::Local(fd) => Site::Local {
            fd: fd as u8,
            number: one.k as u16,
        },
    }
}

// A subroutine with what its renumbering reads, by the bits of those that it calls.
fn body_of<'a>(one: &Subr<'a>, locals: Ranks, globals: Ranks) -> Body<'a>
    requires { (Ranked one.now.of.now.words.now locals) × (Ranked one.now.of.now.words.now globals) }
    ensures { Bodied one.now locals globals result }
{
    let all = one.of;
    let code = index::item(all.font, all.from.ix, one.k);
    let rows = rows_known(all.rows, all.from.rising);
    let site = site_for(one);
    Body::new(code, all.words, locals, globals, rows, site)
}

// How long a subroutine is as it is written, or that its renumbering fails.
fn written_len(one: &Subr<'_>) -> Option<usize>
    ensures { (result ≡ sized_of (written one.now)) × (AtMost 335544320 result) }
{
    let all = one.of;
    if is_stub(all, one.k) {
        return Some(1);
    }
    let body = body_of(one, all.from.locals, all.from.globals);
    crate::body_len(all.from.way, &body)
}

// The same, 0 for a subroutine that is not written.
fn subr_len(one: &Subr<'_>) -> Option<usize>
    ensures { (result ≡ len_at (kept_of one.now.of.now) (subr_of one.now.of.now) one.now.k) × (AtMost 335544320 result) }
{
    if is_kept(one.of, one.k) {
        return written_len(one);
    }
    Some(0)
}

// The window for a subroutine.
fn advance(window: Option<Window>, one: &Subr<'_>, lent: &mut Lent<'_>) -> Option<Window>
    requires { Shows one.now.of.now lent.old.bytes.now window }
    ensures { (Shows one.now.of.now lent.new.bytes.now result) × (HasOrNone one.now.k result) }
{
    let rows = one.of.rows;
    let of = one.of.from.of;
    match of {
        Subrs::Global => mask_rows::advance(window, rows, 4, 0, one.k, lent),
        Subrs::Local(fd) => mask_rows::advance(window, rows, 3, fd, one.k, lent),
    }
}

// The same subroutines by a record that rises.
fn in_order(from: Source) -> Source
    ensures { result ≡ source_in_order from }
{
    let of = from.of;
    let ix = from.ix;
    let own = from.own;
    let locals = from.locals;
    let globals = from.globals;
    Source {
        way: from.way,
        of,
        ix,
        own,
        locals,
        globals,
        rising: true,
    }
}

// How long a subroutine is as it is written, or that its renumbering fails, where it has more rows than a window holds.
fn long_written(one: &Subr<'_>, lent: &mut Lent<'_>) -> Option<usize>
    ensures { (result ≡ sized_of (written one.now)) × (AtMost 335544320 result) }
{
    let all = one.of;
    if is_stub(all, one.k) {
        return Some(1);
    }
    let measured = body_of(one, all.from.locals, all.from.globals);
    let long = LongBody { body: &measured };
    crate::long_body_len(all.from.way, &long, lent)
}

// The same, 0 for a subroutine that is not written.
fn long_len(one: &Subr<'_>, lent: &mut Lent<'_>) -> Option<usize>
    ensures { (result ≡ len_at (kept_of one.now.of.now) (subr_of one.now.of.now) one.now.k) × (AtMost 335544320 result) }
{
    if is_kept(one.of, one.k) {
        return long_written(one, lent);
    }
    Some(0)
}

// How long a subroutine is, by a window of the record that has its rows, or by all of it where the window begins behind it; a longer one takes the window's place.
// (glyph_bodies has the same of charstrings: a trait for both would be longer, since each has its own clauses of what it asks of the font and the words, and of
// what a part of the record says of it.)
fn windowed_len(one: &Subr<'_>, window: Option<Window>, lent: &mut Lent<'_>) -> Option<usize>
    requires { (Shows one.now.of.now lent.old.bytes.now window) × (HasOrNone one.now.k window) }
    ensures { (result ≡ len_at (kept_of one.now.of.now) (subr_of one.now.of.now) one.now.k) × (AtMost 335544320 result)
        × (Shows one.now.of.now lent.new.bytes.now window) }
{
    let Some(window) = window else {
        return long_len(one, lent);
    };
    if one.k < window.from {
        return subr_len(one);
    }
    let all = one.of;
    let k = one.k;
    let part = Subroutines {
        from: in_order(all.from),
        font: all.font,
        words: all.words,
        rows: lent.rows(window.len),
    };
    subr_len(&Subr { of: &part, k })
}

// Their bytes together, by windows of a record that does not rise.
fn windows_total(all: &Subroutines<'_>, lent: &mut Lent<'_>) -> Option<usize>
    ensures { (result ≡ measured_of (subrs_of all.now)) × (Bounded result) }
{
    let mut window = None;
    let mut total: usize = 0;
    for k in 0..all.from.ix.count {
        let one = Subr { of: &*all, k };
        window = advance(window, &one, &mut *lent);
        let len = windowed_len(&one, window, &mut *lent)?;
        total += len;
    }
    Some(total)
}

// The same, with the window on the stack.
fn total_by_windows(all: &Subroutines<'_>) -> Option<usize>
    ensures { (result ≡ measured_of (subrs_of all.now)) × (Bounded result) }
{
    let mut keys = [0u64; 9216];
    let mut bytes = [0u8; 81920];
    let mut lent = Lent {
        keys: &mut keys,
        bytes: &mut bytes,
    };
    windows_total(all, &mut lent)
}

// The bytes of some subroutines together, by the way, each by the whole record; or that their renumbering fails. Which
// are written is asked here: most are not where few glyphs are kept, and a call for each would be felt.
fn total_directly(all: &Subroutines<'_>) -> Option<usize>
    ensures { (result ≡ measured_of (subrs_of all.now)) × (Bounded result) }
{
    let mut total: usize = 0;
    for k in 0..all.from.ix.count {
        if is_kept(all, k) {
            let len = written_len(&Subr { of: &*all, k })?;
            total += len;
        }
    }
    Some(total)
}

// The bytes of some subroutines together, by the way; or that their renumbering fails. Masks are asked for only where they are renumbered.
pub fn subrs_total(all: &Subroutines<'_>) -> Option<usize>
    ensures { (result ≡ measured_of (subrs_of all.now)) × (Bounded result) }
{
    if all.from.rising {
        return total_directly(all);
    }
    if all.from.way == Way::Renumbered {
        return total_by_windows(all);
    }
    total_directly(all)
}

// A subroutine as it is written.
fn put_subr(one: &Subr<'_>, out: &mut Out<'_>)
    requires { (holds (written one.now) ≡ true) × (out.old.at + length (body_of_lem (written one.now)) ≤ length out.old.bytes.now) }
    ensures { Writes out.old (body_of_lem (written one.now)) out.new }
{
    let all = one.of;
    if is_stub(all, one.k) {
        return out.num(11, 1);
    }
    let body = body_of(one, all.from.locals, all.from.globals);
    crate::put_body(all.from.way, &body, out)
}

// The number of subroutines that are written.
pub fn kept_count(way: Way, reached: usize, count: usize) -> usize
    ensures { result ≡ kept_count way reached count }
{
    if way == Way::Renumbered {
        return reached;
    }
    count
}

// The same where it has more rows than a window holds.
fn put_long(one: &Subr<'_>, out: &mut Out<'_>, lent: &mut Lent<'_>)
    requires { (holds (written one.now) ≡ true) × (out.old.at + length (body_of_lem (written one.now)) ≤ length out.old.bytes.now) }
    ensures { Writes out.old (body_of_lem (written one.now)) out.new }
{
    let all = one.of;
    if is_stub(all, one.k) {
        return out.num(11, 1);
    }
    let written = body_of(one, all.from.locals, all.from.globals);
    let long = LongBody { body: &written };
    crate::put_long_body(all.from.way, &long, out, lent)
}

// The same by a window of the record that has the rows of the subroutine, or by all of it where the window begins behind it; a longer one takes the window's place.
fn put_windowed(one: &Subr<'_>, window: Option<Window>, out: &mut Out<'_>, lent: &mut Lent<'_>)
    requires { (Shows one.now.of.now lent.old.bytes.now window) × (HasOrNone one.now.k window)
        × (holds (written one.now) ≡ true) × (out.old.at + length (body_of_lem (written one.now)) ≤ length out.old.bytes.now) }
    ensures { (Writes out.old (body_of_lem (written one.now)) out.new) × (Shows one.now.of.now lent.new.bytes.now window) }
{
    let Some(window) = window else {
        return put_long(one, out, lent);
    };
    if one.k < window.from {
        return put_subr(one, out);
    }
    let all = one.of;
    let k = one.k;
    let part = Subroutines {
        from: in_order(all.from),
        font: all.font,
        words: all.words,
        rows: lent.rows(window.len),
    };
    put_subr(&Subr { of: &part, k }, out)
}

// Their INDEX, by windows of a record that does not rise.
fn put_windows(m: &Measured<'_>, out: &mut Out<'_>, lent: &mut Lent<'_>)
    requires { (out.old.at < 4294967296) × (out.old.at + length (index_bytes (new_subrs_of m.now.all)) ≤ length out.old.bytes.now) }
    ensures { Writes out.old (index_bytes (new_subrs_of m.now.all)) out.new }
{
    let all = &m.all;
    let n = all.from.ix.count;
    let count = kept_count(all.from.way, all.from.own.reached, n);
    let ix = index::index_for(out.at, count, m.total);
    index::put_head(&mut *out, count, m.total);
    out.at = ix.base + 1;
    let mut window = None;
    let mut put: usize = 0;
    for k in 0..n {
        if is_kept(all, k) {
            let one = Subr { of: &*all, k };
            window = advance(window, &one, &mut *lent);
            put_windowed(&one, window, &mut *out, &mut *lent);
            index::put_end(&mut *out, ix, put);
            put += 1;
        }
    }
}

// The same, with the window on the stack.
fn put_by_windows(m: &Measured<'_>, out: &mut Out<'_>)
    requires { (out.old.at < 4294967296) × (out.old.at + length (index_bytes (new_subrs_of m.now.all)) ≤ length out.old.bytes.now) }
    ensures { Writes out.old (index_bytes (new_subrs_of m.now.all)) out.new }
{
    let mut keys = [0u64; 9216];
    let mut bytes = [0u8; 81920];
    let mut lent = Lent {
        keys: &mut keys,
        bytes: &mut bytes,
    };
    put_windows(m, out, &mut lent)
}

// Their INDEX, each by the whole record.
fn put_directly(m: &Measured<'_>, out: &mut Out<'_>)
    requires { (out.old.at < 4294967296) × (out.old.at + length (index_bytes (new_subrs_of m.now.all)) ≤ length out.old.bytes.now) }
    ensures { Writes out.old (index_bytes (new_subrs_of m.now.all)) out.new }
{
    let all = &m.all;
    let n = all.from.ix.count;
    let count = kept_count(all.from.way, all.from.own.reached, n);
    let ix = index::index_for(out.at, count, m.total);
    index::put_head(&mut *out, count, m.total);
    out.at = ix.base + 1;
    let mut j: usize = 0;
    for k in 0..n {
        if is_kept(all, k) {
            put_subr(&Subr { of: &*all, k }, &mut *out);
            index::put_end(&mut *out, ix, j);
            j += 1;
        }
    }
}

// Their INDEX.
pub fn put_subrs(m: &Measured<'_>, out: &mut Out<'_>)
    requires { (out.old.at < 4294967296) × (out.old.at + length (index_bytes (new_subrs_of m.now.all)) ≤ length out.old.bytes.now) }
    ensures { Writes out.old (index_bytes (new_subrs_of m.now.all)) out.new }
{
    if m.all.from.rising {
        return put_directly(m, out);
    }
    if m.all.from.way == Way::Renumbered {
        return put_by_windows(m, out);
    }
    put_directly(m, out)
}
