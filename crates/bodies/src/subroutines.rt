// Some subroutines with the bytes that they lie in, the work words and the record; and one of them.
ghost use Rattle.std.specs.Prelude.{◌<◌};
ghost use Rattle.record.specs.Record.{rows_of};
ghost use Rattle.bodies.specs.Sources.{Sourced};
ghost use Rattle.bodies.specs.Alone.{sourced_prop};

use crate::subrs::Source;

// Where they are and how they are written, the bytes of the font, the words with the bits of the subroutines, and the record.
#[derive(Clone, Copy)]
pub struct Subroutines<'a> {
    pub from: Source,
    pub font: &'a [u8],
    pub words: &'a [u32],
    pub rows: &'a [u8],
    ghost sourced: { Sourced from (rows_of rows.now) words.now font.now } by { sourced_prop from (rows_of rows.now) words.now font.now },
}

// One of some subroutines, by its number.
#[derive(Clone, Copy)]
pub struct Subr<'a> {
    pub of: &'a Subroutines<'a>,
    pub k: usize,
    ghost there: { k < of.now.from.ix.count },
}
