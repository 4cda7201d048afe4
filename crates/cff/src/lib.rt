// Reading a font (the Rust's parse_fonts), and the answers of what is asked of one (its CffProgram).
#![tactic(auto)]

pub mod font;
pub mod loaded;
pub mod opened;
pub mod private;
mod remembered;
pub mod set;
pub mod table;

// What reading answers of a font: how many glyphs, global subroutines and strings, whether it is CID-keyed, and the work words a cut takes.
#[derive(Clone, Copy)]
pub struct Counts {
    pub glyphs: usize,
    pub globals: usize,
    pub strings: usize,
    pub cid: bool,
    pub work: usize,
}

// The INDEXes that items are asked of.
#[derive(Clone, Copy)]
pub enum ItemKind {
    Charstring,
    Global,
    Text,
}
