// What the charstrings of the kept glyphs are renumbered by.
ghost use Rattle.record.specs.Record.{rows_of};
ghost use Rattle.cff.specs.Loaded.{program};
ghost use Rattle.failing.specs.Failing.{FdsMarked, Asks};
ghost use Rattle.failing.specs.Alone.{fds_marked_prop, asks_prop};

use crate::list::KeepList;
use reach::rows::Rows;
use renumber::Ranks;

// The rows, the words with the bits of all subroutines that they have, and the FDs in use, among which are those of the kept glyphs.
#[derive(Clone, Copy)]
pub struct Renumbering<'a, 'r> {
    pub list: KeepList<'a, 'a>,
    pub used: &'a [u32],
    pub globals: Ranks,
    pub words: &'a [u32],
    pub table: &'a [Ranks],
    pub rows: Rows<'r>,
    ghost marked: { FdsMarked (program list.font.loaded) list.keep.now used.now } by { fds_marked_prop (program list.font.loaded) list.keep.now used.now },
    ghost asks: { Asks list.font.loaded.bytes.now list.font.loaded.f (rows_of rows.bytes.now) used.now words.now globals table.now } by { asks_prop list.font.loaded.bytes.now list.font.loaded.f (rows_of rows.bytes.now) used.now words.now globals table.now },
}
