// A glyph run by recursion (document 01: 'Tracer enters a called subroutine by recursion, remaining depth falling from 10'), each row that it
// meets noted in a window of a range (document 02, Wish 1).
#![tactic(auto)]

pub mod callees;
pub mod mask;

ghost use Rattle.std.specs.Prelude.{◌≡◌, [], ◌∷◌, ◌≤◌, ◌<◌, length};
ghost use Rattle.unfold.specs.Unfold.{entered, masked, is_glyph, unfold_glyph};
ghost use Rattle.row_window.specs.Key.{key_of_lem};
ghost use Rattle.turns.specs.Turns.{of_kind};
ghost use Rattle.interpret.specs.Trace.{body_for};
ghost use Rattle.unfold.specs.Sites.{site_of};
ghost use Rattle.interpret.specs.Run.{site_in, globals_in, locals_in, whole_of, call_of, key_for, Notes, Tells, Meets};

use crate::callees::Callees;
use crate::mask::Mask;
use index::Index;
use row_window::filling::Filling;
use turns::{Counts, Kind, Turn, turn_at};
use unfold::Site;

// The subroutines that a glyph can call: the global ones, and the local ones of its FD.
#[derive(Clone, Copy)]
pub struct Subrs {
    pub globals: Index,
    pub locals: Index,
    pub fd: u8,
}

// The keys from low up to high, which is not among them.
#[derive(Clone, Copy)]
pub struct Range {
    pub low: u64,
    pub high: u64,
}

// A body does what no plain glyph does.
#[derive(Clone, Copy, PartialEq, Eq)]
pub struct NotPlain;

// How a body's run ends where it is plain: by return with the counts then, or by endchar.
// (It stays an enum: endchar ends the glyph as it should, and is no Option's None.)
#[derive(Clone, Copy)]
pub enum End {
    Returned(Counts),
    Ended,
}

// A row as one number, of which the kind, a number too, is the highest part. (Kind and FD are no struct: each call names both.)
fn row_key(kind: u8, fd: u8, number: u16, mask: Mask) -> u64
    requires { kind ≤ 4 }
    ensures { result ≡ key_of_lem kind fd number mask.offset mask.len }
{
    let body = (kind as u64 * 256 + fd as u64) * 65536 + number as u64;
    (body * 4294967296 + mask.offset as u64) * 16 + mask.len as u64
}

// The key of a subroutine entered.
fn entered_key(site: Site) -> u64
    ensures { result ≡ key_for (entered (site_of site)) }
{
    let none = Mask { offset: 0, len: 0 };
    match site {
        Site::Glyph(g) => row_key(2, 0, g, none),
        Site::Local { fd, number } => row_key(0, fd, number, none),
        Site::Global(k) => row_key(1, 0, k, none),
    }
}

// The key of a mask met.
fn mask_key(site: Site, mask: Mask) -> u64
    ensures { result ≡ key_for (masked (site_of site) mask.offset mask.len) }
{
    match site {
        Site::Glyph(g) => row_key(2, 0, g, mask),
        Site::Local { fd, number } => row_key(3, fd, number, mask),
        Site::Global(k) => row_key(4, 0, k, mask),
    }
}

// Whether a body is a glyph's own.
fn is_glyph(site: Site) -> bool
    ensures { result ≡ is_glyph (site_of site) }
{
    match site {
        Site::Glyph(_) => true,
        Site::Local { fd: _, number: _ } => false,
        Site::Global(_) => false,
    }
}

// Notes a subroutine entered.
fn note_entered(site: Site, range: Range, filling: &mut Filling<'_>)
    ensures { Notes range (entered (site_of site) ∷ []) filling.old filling.new }
{
    filling.note(range.low, range.high, entered_key(site));
}

// Notes a mask met.
fn note_mask(site: Site, offset: u32, len: u8, range: Range, filling: &mut Filling<'_>)
    requires { len < 16 }
    ensures { Notes range (masked (site_of site) offset len ∷ []) filling.old filling.new }
{
    let key = mask_key(site, Mask { offset, len });
    filling.note(range.low, range.high, key);
}

// The subroutine that a call enters.
fn site_for(fd: u8, kind: Kind, number: u16) -> Site
    ensures { result ≡ site_in fd kind number }
{
    match kind {
        Kind::Local => Site::Local { fd, number },
        Kind::Global => Site::Global(number),
    }
}

// Its bytes: a part of the font.
fn subr<'a>(from: &Callees<'a>, kind: Kind, number: usize) -> &'a [u8]
    requires { number < of_kind kind from.now.q.locals.count from.now.q.globals.count }
    ensures { result.now ≡ body_for (globals_in from.now.font.now from.now.q) (locals_in from.now.font.now from.now.q) kind number }
{
    match kind {
        Kind::Local => index::item(from.font, from.q.locals, number),
        Kind::Global => index::item(from.font, from.q.globals, number),
    }
}

// A subroutine entered: noted, and run one call deeper, where that is not too deep.
#[cycle(enter_run_body)]
fn enter(
    from: &Callees<'_>,
    depth: usize,
    kind: Kind,
    number: usize,
    x: Counts,
    range: Range,
    filling: &mut Filling<'_>,
) -> Result<End, NotPlain>
    requires { number < of_kind kind from.now.q.locals.count from.now.q.globals.count }
    ensures { Tells (call_of from.now.font.now from.now.q depth kind number x) range filling.old filling.new result }
{
    if depth == 0 {
        return Err(NotPlain);
    }
    let site = site_for(from.q.fd, kind, number as u16);
    note_entered(site, range, filling);
    let body = subr(from, kind, number);
    run_body(from, depth - 1, site, body, x, range, filling)
}

// A body run from its start, with calls `depth` deep at most.
#[cycle(enter_run_body)]
fn run_body(
    from: &Callees<'_>,
    depth: usize,
    site: Site,
    code: &[u8],
    start: Counts,
    range: Range,
    filling: &mut Filling<'_>,
) -> Result<End, NotPlain>
    requires { length code.now ≤ 67108864 }
    ensures { Tells (whole_of from.now.font.now from.now.q depth site code.now start) range filling.old filling.new result }
{
    let own = is_glyph(site);
    let globals = from.q.globals;
    let locals = from.q.locals;
    let mut at: usize = 0;
    let mut prev: usize = 0;
    let mut x = start;
    while at < code.len() {
        match turn_at(code, at, prev, x, locals.count, globals.count, own) {
            Turn::Breaks => return Err(NotPlain),
            Turn::Returns(counts) => return Ok(End::Returned(counts)),
            Turn::Ends => return Ok(End::Ended),
            Turn::Goes { next, last, after } => {
                x = after;
                prev = last;
                at = next;
            }
            Turn::Masks { len, after } => {
                note_mask(site, at as u32, len as u8, range, filling);
                x = after;
                at = at + 1 + len;
                prev = at;
            }
            Turn::Calls {
                kind,
                number,
                after,
            } => match enter(from, depth, kind, number, after, range, filling)? {
                End::Ended => return Ok(End::Ended),
                End::Returned(then) => {
                    x = then;
                    at += 1;
                    prev = at;
                }
            },
        }
    }
    Err(NotPlain)
}

// A glyph, by the subroutines of its FD, run from its charstring: whether it is plain, and then the rows that it meets are noted in the window; where
// it is not plain, nothing is said of the rows in it. The lent keys stay either way. An empty one is plain.
pub fn run_glyph(
    from: &Callees<'_>,
    g: u16,
    code: &[u8],
    range: Range,
    filling: &mut Filling<'_>,
) -> bool
    requires { length code.now ≤ 67108864 }
    ensures { Meets (unfold_glyph (globals_in from.now.font.now from.now.q) (locals_in from.now.font.now from.now.q) from.now.q.fd g code.now)
        range filling.old filling.new result }
{
    if code.len() == 0 {
        return true;
    }
    let fresh = Counts {
        args: 0,
        stems: 0,
        spent: 0,
    };
    match run_body(from, 10, Site::Glyph(g), code, fresh, range, filling) {
        Ok(End::Ended) => true,
        Ok(End::Returned(_)) => false,
        Err(_) => false,
    }
}
