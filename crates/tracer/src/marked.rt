// The marked glyphs of a font.
ghost use Rattle.std.specs.Prelude.{◌≤◌, length};
ghost use Rattle.std.proofs.Props.{props};
ghost use Rattle.tracer.specs.Met.{met_in, Plainly};

use faithful::read::Held;

// A mark for each glyph of a font.
#[derive(Clone, Copy)]
pub struct Marked<'a> {
    pub font: Held<'a>,
    pub marks: &'a [u32],
    ghost long: { font.loaded.f.charstrings.count ≤ length marks.now },
}

// Marked glyphs that are all plain.
#[derive(Clone, Copy)]
pub struct Plain<'a> {
    pub marked: Marked<'a>,
    ghost plain: { Plainly (met_in marked.font.loaded.bytes.now marked.font.loaded.f marked.marks.now) } by { Prim.hlevel props },
}
