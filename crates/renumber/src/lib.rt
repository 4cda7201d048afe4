// Renumbering, token by token (the Rust's renumber_charstring; document 01, 'Corners in write.rs'): what becomes of a call, and runs of tokens
// that stay as they are. The new numbers of subroutines are found by their bits in the work words. Crate `renumbered` measures and writes whole bodies.
#![tactic(auto)]

pub mod body;
pub mod ranking;
pub mod runs;
pub mod turns;

use charstring::{Cursor, Token};
use type2_number::Operand;

// Where the bits of some subroutines stand in the work words, how many subroutines there are, and how many of them are reached: all of them,
// and those below each eighth of the words (16 bits each, four to a number).
#[derive(Clone, Copy)]
pub struct Ranks {
    pub at: usize,
    pub count: usize,
    pub reached: usize,
    pub low: usize,
    pub high: usize,
}

// A token of a body read: the number that is written just before it, the token, and where reading stands.
#[derive(Clone, Copy)]
pub struct Turned {
    pub before: Option<Operand>,
    pub token: Token,
    pub next: Cursor,
}
