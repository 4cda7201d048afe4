// Charstrings and subroutines of a subset, by the way, renumbered, stubbed or copied (document 01, 'Corners in write.rs'); and the INDEXes of subroutines.
// Each is measured first, then written item by item.
#![tactic(auto)]

pub mod measured;
pub mod subroutines;
pub mod subrs;

ghost use Rattle.std.specs.Prelude.{◌≡◌, true, ◌+◌, ◌*◌, ◌≤◌, false, length};
ghost use Rattle.octets.specs.Out.{Writes};
ghost use Rattle.mask_rows.specs.SameRoom.{SameRoom};
ghost use Rattle.renumber.specs.Turn.{sized_of};
ghost use Rattle.bodies.specs.Ways.{holds, by_way, new_by_way};
ghost use Rattle.bodies.specs.Sizes.{AtMost};

use long_bodies::long_body::LongBody;
use mask_rows::lent::Lent;
use octets::out::Out;
use renumber::Ranks;
use renumber::body::Body;
use subset::Way;

// No bits.
pub const NO_RANKS: Ranks = Ranks {
    at: 0,
    count: 0,
    reached: 0,
    low: 0,
    high: 0,
};

// How bodies are written: the way, the bits of the globals, and whether the rows rise.
// (`rising` stays here and in `Source` by itself: both are values of a plan, which has no rows; the `Rows` are made where both are at hand.)
#[derive(Clone, Copy)]
pub struct Manner {
    pub way: Way,
    pub globals: Ranks,
    pub rising: bool,
}

// How long a charstring or subroutine is, by the way; or that its renumbering fails.
pub fn body_len(way: Way, body: &Body<'_>) -> Option<usize>
    ensures { (result ≡ sized_of (by_way way body.now)) × (AtMost (5 * length body.now.code.now) result) }
{
    if way == Way::Renumbered {
        return renumbered::renumbered_len(body);
    }
    Some(body.code.len())
}

// The same where it has more rows than a window holds.
pub fn long_body_len(way: Way, one: &LongBody<'_>, lent: &mut Lent<'_>) -> Option<usize>
    ensures { (result ≡ sized_of (by_way way one.now.body.now)) × (AtMost (5 * length one.now.body.now.code.now) result) × SameRoom lent.old lent.new }
{
    if way == Way::Renumbered {
        return long_bodies::renumbered_len(one, lent);
    }
    Some(one.body.code.len())
}

// A charstring or subroutine by the way.
pub fn put_body(way: Way, body: &Body<'_>, out: &mut Out<'_>)
    requires { (holds (by_way way body.now) ≡ true) × (out.old.at + length (new_by_way way body.now) ≤ length out.old.bytes.now) }
    ensures { Writes out.old (new_by_way way body.now) out.new }
{
    if way == Way::Renumbered {
        return renumbered::put_renumbered(body, out);
    }
    out.copy(body.code);
}

// The same where it has more rows than a window holds.
pub fn put_long_body(way: Way, one: &LongBody<'_>, out: &mut Out<'_>, lent: &mut Lent<'_>)
    requires { (holds (by_way way one.now.body.now) ≡ true) × (out.old.at + length (new_by_way way one.now.body.now) ≤ length out.old.bytes.now) }
    ensures { (Writes out.old (new_by_way way one.now.body.now) out.new) × SameRoom lent.old lent.new }
{
    if way == Way::Renumbered {
        return long_bodies::put_renumbered(one, out, lent);
    }
    out.copy(one.body.code);
}
