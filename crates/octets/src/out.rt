// An output and the place where its next byte goes.
ghost use Rattle.std.specs.Prelude.{[], ◌∷◌, ◌+◌, ◌≤◌, length};
ghost use Rattle.octets.specs.Octets.{bytes_of};
ghost use Rattle.octets.specs.Out.{Writes};

use crate::{put_byte, put_bytes, put_num, put_pair};

#[derive(Drop)]
pub struct Out<'a> {
    pub bytes: &'a mut [u8],
    pub at: usize,
}

impl Out<'_> {
    // Stores a byte.
    #[inline(always)]
    pub fn byte(&mut self, b: u8)
        requires { self.old.at + 1 ≤ length self.old.bytes.now }
        ensures { Writes self.old (b ∷ []) self.new }
    {
        self.at = put_byte(&mut *self.bytes, self.at, b);
    }

    // Stores two bytes.
    #[inline(always)]
    pub fn pair(&mut self, a: u8, b: u8)
        requires { self.old.at + 2 ≤ length self.old.bytes.now }
        ensures { Writes self.old (a ∷ b ∷ []) self.new }
    {
        self.at = put_pair(&mut *self.bytes, self.at, a, b);
    }

    // Stores the low size bytes of a number, the highest first.
    #[inline(always)]
    pub fn num(&mut self, value: usize, size: usize)
        requires { self.old.at + size ≤ length self.old.bytes.now }
        ensures { Writes self.old (bytes_of size value) self.new }
    {
        self.at = put_num(&mut *self.bytes, self.at, value, size);
    }

    // Copies src.
    #[inline(always)]
    pub fn copy(&mut self, src: &[u8])
        requires { self.old.at + length src.now ≤ length self.old.bytes.now }
        ensures { Writes self.old src.now self.new }
    {
        self.at = put_bytes(&mut *self.bytes, self.at, src);
    }
}
