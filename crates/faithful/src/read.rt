// A font that was read, with what holds of its program.
ghost use Rattle.faithful.specs.FontHeld.{FontHeld};
ghost use Rattle.faithful.specs.Alone.{held_prop};

use cff::loaded::Loaded;
use cff::opened::Opened;

#[derive(Clone, Copy)]
pub struct Held<'a> {
    pub loaded: Loaded<'a>,
    ghost held: { FontHeld loaded.bytes.now loaded.f } by { held_prop loaded.bytes.now loaded.f },
}

impl<'a> Held<'a> {
    ghost use Rattle.std.specs.Prelude.{◌≡◌};
    ghost use Rattle.cff.specs.File.{InFile};

    // A font that was read in its file.
    pub fn of(font: &Opened<'a>) -> Self
        ensures { (InFile font.now.file.now result.loaded.f result.loaded.bytes.now) × (result.loaded ≡ font.now.loaded) }
    {
        Held {
            loaded: font.loaded,
        }
    }
}
