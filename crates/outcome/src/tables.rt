// The tables of a cut, and all that its subset is made of but the kept glyphs.
ghost use Rattle.std.specs.Prelude.{◌≡◌, replicate};
ghost use Rattle.bodies.specs.Ways.{no_ranks};

use crate::Prepared;
use bodies::NO_RANKS;
use own_strings::slots::Slot;
use renumber::Ranks;

// By FD: which are in use, where the bits of their local subroutines stand, and the bytes of their new ones.
// (A word of `used` is the new number and 1, 0 for none: marks become numbers in place. An `Option<u8>` is no plainer: `new_fd` and `rank_marks` alone have to do with
// the number, and some fifty lines of contracts speak of the words.)
// (Not one array of structs: each of the three is made by a function that is lent it alone, and says of it alone what becomes of it.)
#[derive(Drop)]
pub struct Tables {
    pub used: [u32; 256],
    pub table: [Ranks; 256],
    pub totals: [usize; 256],
}

impl Tables {
    // With nothing in them.
    pub fn new() -> Tables
        ensures { (result.used ≡ replicate 256 0) × (result.table ≡ replicate 256 no_ranks) × (result.totals ≡ replicate 256 0) }
    {
        Tables {
            used: [0; 256],
            table: [NO_RANKS; 256],
            totals: [0; 256],
        }
    }
}

// What is prepared, the new name, slots, of which the first eight are those of the string ids of the top DICT, the tables, and the record.
#[derive(Clone, Copy)]
pub struct Parts<'a> {
    pub cut: Prepared,
    pub name: &'a [u8],
    pub slots: &'a [Slot],
    pub used: &'a [u32],
    pub table: &'a [Ranks],
    pub totals: &'a [usize],
    pub rows: &'a [u8],
}
