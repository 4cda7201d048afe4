// A font that was read, with the bytes of its table.
ghost use Rattle.std.specs.Prelude.{◌≡◌};
ghost use Rattle.cff.specs.Reads.{GoodFont};
ghost use Rattle.cff.specs.Alone.{good_font_prop};

use crate::font::Font;
use charset::ids::Ids;
use index::items::Items;

// The bytes of a font's table, and the font that was read in them.
#[derive(Clone, Copy)]
pub struct Loaded<'a> {
    pub bytes: &'a [u8],
    pub f: Font,
    ghost good: { GoodFont bytes.now f } by { good_font_prop bytes.now f },
}

impl<'a> Loaded<'a> {
    // The strings of the font's own.
    pub fn strings(&self) -> Items<'a>
        ensures { (result.bytes.now ≡ self.now.bytes.now) × (result.ix ≡ self.now.f.strings) }
    {
        Items {
            bytes: self.bytes,
            ix: self.f.strings,
        }
    }

    // The ids of its glyphs.
    pub fn ids(&self) -> Ids<'a>
        ensures { (result.bytes.now ≡ self.now.bytes.now) × (result.charset ≡ self.now.f.charset) × (result.n ≡ self.now.f.charstrings.count) }
    {
        Ids {
            bytes: self.bytes,
            charset: self.f.charset,
            n: self.f.charstrings.count,
        }
    }
}
