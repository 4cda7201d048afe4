// The charstrings of the kept glyphs: the glyphs with their window, how bodies are written, and what the table of the FDs and the record say of them.
ghost use Rattle.record.specs.Record.{rows_of};
ghost use Rattle.glyph_bodies.specs.Charstrings.{CharstringsIn};
ghost use Rattle.glyph_bodies.specs.Alone.{charstrings_in_prop};

use bodies::Manner;
use order_window::window::Kept;
use renumber::Ranks;

#[derive(Drop)]
pub struct KeptBodies<'k, 'a> {
    pub kept: &'k mut Kept<'a>,
    pub how: Manner,
    pub table: &'k [Ranks],
    pub rows: &'k [u8],
    ghost asked: { CharstringsIn kept.now.font.now kept.now.words.now table.now kept.now.o how (rows_of rows.now) } by { charstrings_in_prop kept.now.font.now kept.now.words.now table.now kept.now.o how (rows_of rows.now) },
}
