// The FDs of a font that a subset has in use: those whose word in a table by FD is not 0.
// (No iterator over them: one was tried, and is no plainer. Each index asks for the bound that `0..256` shows, or, of FDs as bytes, each loop has a cast in place of its test.)
ghost use Rattle.std.specs.Prelude.{◌≤◌, length};
ghost use Rattle.cff.specs.Reads.{program_of};
ghost use Rattle.fds.specs.Locals.{UsedOf};
ghost use Rattle.fds.specs.Alone.{used_of_prop};

use cff::loaded::Loaded;

#[derive(Clone, Copy)]
pub struct InUse<'a, 'b> {
    pub font: Loaded<'a>,
    pub used: &'b [u32],
    ghost long: { 256 ≤ length used.now },
    ghost of: { UsedOf (length (program_of font.bytes.now font.f).privates) used.now } by { used_of_prop (length (program_of font.bytes.now font.f).privates) used.now },
}
