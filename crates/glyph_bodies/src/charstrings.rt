// The charstring of a glyph, with the bytes of the font, the work words, the table of the FDs and the record.
ghost use Rattle.record.specs.Record.{rows_of};
ghost use Rattle.glyph_bodies.specs.Glyphs.{GlyphIn};
ghost use Rattle.glyph_bodies.specs.Alone.{glyph_in_prop};

use crate::glyphs::{Glyph, Source};
use renumber::Ranks;

#[derive(Clone, Copy)]
pub struct Charstring<'a> {
    pub from: Source,
    pub glyph: Glyph,
    pub font: &'a [u8],
    pub words: &'a [u32],
    pub table: &'a [Ranks],
    pub rows: &'a [u8],
    ghost asked: { GlyphIn font.now words.now table.now from glyph (rows_of rows.now) } by { glyph_in_prop font.now words.now table.now from glyph (rows_of rows.now) },
}
