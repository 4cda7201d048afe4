// A font that was read, with the file that it was read in.
ghost use Rattle.octets.specs.Octets.{Octets};
ghost use Rattle.cff.specs.File.{InFile};
ghost use Rattle.cff.specs.Alone.{in_file_prop};

use crate::loaded::Loaded;

// A file, and the font that was read in it.
#[derive(Clone, Copy)]
pub struct Opened<'a> {
    pub file: &'a [u8],
    pub loaded: Loaded<'a>,
    ghost octets: { Octets file.now },
    ghost in_file: { InFile file.now loaded.f loaded.bytes.now } by { in_file_prop file.now loaded.f loaded.bytes.now },
}
