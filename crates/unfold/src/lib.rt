// Plain glyphs and their unfolding (document 01, 'Plain glyphs'): the definitions of specs/Unfold.antt, of which the subset's promises (`faithful`) speak;
// and the bodies that run, as the code names them.
#![tactic(auto)]

// The body that runs, or that a reach record speaks of: a glyph's charstring, a local or a global subroutine.
#[derive(Clone, Copy)]
pub enum Site {
    Glyph(u16),
    Local { fd: u8, number: u16 },
    Global(u16),
}
