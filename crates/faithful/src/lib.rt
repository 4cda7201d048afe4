// Demand 3 over the whole subset: the statement and the theorem of specs/; and a font that was read, with what holds of it.
#![tactic(auto)]

pub mod read;
