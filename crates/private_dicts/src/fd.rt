// One FD of a font that was read; in a name-keyed font the one.
ghost use Rattle.std.specs.Prelude.{◌<◌, length};
ghost use Rattle.cff.specs.Reads.{program_of};

use cff::loaded::Loaded;

#[derive(Clone, Copy)]
pub struct Fd<'a> {
    pub font: Loaded<'a>,
    pub fd: usize,
    ghost there: { fd < length (program_of font.bytes.now font.f).privates },
}
