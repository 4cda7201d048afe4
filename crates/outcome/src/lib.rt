// A call, what it answers and leaves (specs/Entry.antt), where the parts of a subset stand (Layout.antt), and the outcome by the tests of the code:
// what both cuts and the entries share.
#![tactic(auto)]

pub mod call;
pub mod tables;

use own_strings::Own;
use parts::Planned;
use subset::Way;

// What a cut answers that is not refused: the way and the length of the subset.
#[derive(Clone, Copy)]
pub struct Subsetted {
    pub way: Way,
    pub len: usize,
}

// What is prepared of a cut: the plan of its bodies, its own strings, and how many FDs are in use.
#[derive(Clone, Copy)]
pub struct Prepared {
    pub plan: Planned,
    pub own: Own,
    pub count: usize,
}
