// The ids of a font's glyphs: its charset, in the bytes of the font, and how many glyphs there are.
ghost use Rattle.charset.specs.CharsetPlaces.{GoodCharset};
ghost use Rattle.charset.specs.Alone.{good_charset_prop};

use crate::Charset;
use crate::iter::Iter;

#[derive(Clone, Copy)]
pub struct Ids<'a> {
    pub bytes: &'a [u8],
    pub charset: Charset,
    pub n: usize,
    ghost good: { GoodCharset bytes.now charset n } by { good_charset_prop bytes.now charset n },
}

impl<'a> Ids<'a> {
    ghost use Rattle.std.specs.Prelude.{◌≡◌, ◌≤◌, take};
    ghost use Rattle.charset.specs.CharsetBytes.{Ids as SmallIds};
    ghost use Rattle.charset.specs.Ids.{ids};
    ghost use Rattle.charset.specs.Iter.{ids_left};

    // The ids, one after the other.
    pub fn iter(&self) -> Iter<'a>
        ensures all { ids_left result ≡ ids self.now }
        ensures small { SmallIds (ids self.now) }
    {
        Iter::new(self.bytes, self.charset, self.n)
    }

    // The first n glyphs.
    pub fn first(&self, n: usize) -> Ids<'a>
        requires { n ≤ self.now.n }
        ensures { ids result ≡ take n (ids self.now) }
    {
        Ids {
            bytes: self.bytes,
            charset: self.charset,
            n,
        }
    }
}
