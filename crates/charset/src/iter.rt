// The ids of a font's glyphs, one after the other.
ghost use Rattle.charset.specs.Ahead.{Ahead};
ghost use Rattle.charset.specs.Alone.{ahead_prop};

use crate::{Charset, CharsetCursor};

// What is left of a pass over the glyphs: the cursor before the next of them, in the bytes of the font, and how many there are.
#[derive(Clone, Copy)]
pub struct Iter<'a> {
    bytes: &'a [u8],
    cursor: CharsetCursor,
    left: usize,
    ghost stands: { Ahead bytes.now cursor left } by { ahead_prop bytes.now cursor left },
}

impl<'a> Iter<'a> {
    ghost use Rattle.std.specs.Prelude.{◌≡◌};
    ghost use Rattle.charset.specs.CharsetBytes.{Ids as SmallIds};
    ghost use Rattle.charset.specs.CharsetPlaces.{ids_of, GoodCharset};
    ghost use Rattle.charset.specs.Iter.{ids_left};

    // Before the first of n glyphs. The bytes are a parameter, whose type tells that they are octets.
    pub(crate) fn new(bytes: &'a [u8], charset: Charset, n: usize) -> Iter<'a>
        requires { GoodCharset bytes.now charset n }
        ensures all { ids_left result ≡ ids_of bytes.now charset n }
        ensures small { SmallIds (ids_of bytes.now charset n) }
    {
        Iter {
            bytes,
            cursor: crate::charset_start(charset),
            left: n,
        }
    }
}

impl<'a> Iterator for Iter<'a> {
    ghost use Rattle.std.specs.Iterator.{YieldsFirst, at_most};
    ghost use Rattle.charset.specs.Iter.{ids_left};

    type Item = usize;

    ghost next_gives = { YieldsFirst ids_left };

    ghost remaining = { λ s. at_most s.left };

    #[inline(always)]
    fn next(&mut self) -> Option<usize> {
        if self.left == 0 {
            return None;
        }
        let step = crate::next_id(self.bytes, self.cursor);
        *self = Iter {
            bytes: self.bytes,
            cursor: step.next,
            left: self.left - 1,
        };
        Some(step.id)
    }
}
