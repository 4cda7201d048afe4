// The FDs in use, and a table by FD that tells where the bits of their local subroutines stand.
ghost use Rattle.cff.specs.Reads.{program_of};
ghost use Rattle.fds.specs.NewLocals.{Tables};
ghost use Rattle.fds.specs.Alone.{tables_prop};

use cff::loaded::Loaded;
use renumber::Ranks;

#[derive(Clone, Copy)]
pub struct FdTable<'a, 'b> {
    pub font: Loaded<'a>,
    pub used: &'b [u32],
    pub table: &'b [Ranks],
    ghost held: { Tables font.bytes.now (program_of font.bytes.now font.f) used.now table.now } by { tables_prop font.bytes.now (program_of font.bytes.now font.f) used.now table.now },
}
