// The bytes of an answer, up to 4096 as the fields of a line have them.
ghost use Rattle.std.specs.Prelude.{◌≡◌, ◌+◌, ◌≤◌, ℕ, List, [], ◌∷◌, ◌++◌, length, take};
ghost use Rattle.octets.specs.Octets.{bytes_of};

use std::marker::Model;

#[derive(Drop)]
pub struct Answer {
    bytes: [u8; 4096],
    len: usize,
}

impl Model for Answer {
    ghost Value = { List ℕ };

    ghost view = { λ a. take a.len a.bytes };

    ghost invariant = { λ a. a.len ≤ 4096 };
}

impl Answer {
    pub fn new() -> Answer
        ensures { result ≡ [] }
    {
        Answer {
            bytes: [0; 4096],
            len: 0,
        }
    }

    pub fn one(b: u8) -> Answer
        ensures { result ≡ b ∷ [] }
    {
        let mut answer = Answer::new();
        answer.byte(b);
        answer
    }

    pub fn of(src: &[u8]) -> Answer
        requires { length src.now ≤ 4096 }
        ensures { result ≡ src.now }
    {
        let mut answer = Answer::new();
        answer.copy(src);
        answer
    }

    pub fn bytes(&self) -> &[u8]
        ensures { result.now ≡ self.now }
    {
        &self.bytes[..self.len]
    }

    pub fn byte(&mut self, b: u8)
        requires { length self.old + 1 ≤ 4096 }
        ensures { (self.new ≡ self.old ++ (b ∷ [])) × (length self.new ≡ length self.old + 1) }
    {
        self.len = octets::put_byte(&mut self.bytes, self.len, b);
    }

    // The low size bytes of a number, the highest first.
    pub fn num(&mut self, value: usize, size: usize)
        requires { length self.old + size ≤ 4096 }
        ensures { (self.new ≡ self.old ++ bytes_of size value) × (length self.new ≡ length self.old + size) }
    {
        self.len = octets::put_num(&mut self.bytes, self.len, value, size);
    }

    pub fn copy(&mut self, src: &[u8])
        requires { length self.old + length src.now ≤ 4096 }
        ensures { (self.new ≡ self.old ++ src.now) × (length self.new ≡ length self.old + length src.now) }
    {
        self.len = octets::put_bytes(&mut self.bytes, self.len, src);
    }
}
