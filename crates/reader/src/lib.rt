// The Rust's Reader: a struct that holds the caller's bytes and a position in them (document 01, 'What must change shape').
// Each function over it is thin and proved by hand; the work is that of covered functions on a slice and a position.
#![tactic(auto)]

ghost use Rattle.std.specs.Prelude.{◌≡◌, ◌+◌, ◌≤◌, ◌<◌, ◌^◌, length, take, drop, get_or};
ghost use Rattle.octets.specs.Octets.{num_at};
ghost use Rattle.reader.specs.Moved.{moved};
ghost use Rattle.reader.specs.Header.{header_of};

#[derive(Drop)]
pub struct Reader<'a> {
    pub src: &'a [u8],
    pub at: usize,
}

impl<'a> Reader<'a> {
    // A reader of these bytes at a position.
    pub fn new(src: &'a [u8], at: usize) -> Reader<'a>
        ensures { (result.src ≡ src.entry) × (result.at ≡ at) }
    {
        Reader { src, at }
    }

    // The byte at the position, which moves past it.
    pub fn u8(&mut self) -> usize
        requires { self.old.at < length self.old.src.now }
        ensures { (result ≡ get_or self.old.src.now self.old.at 0) × (result < 256)
            × (self.new ≡ moved self.old 1) }
    {
        let at = self.at;
        self.at = at + 1;
        octets::u8_at(self.src, at)
    }

    // The big-endian number in the two bytes at the position, which moves past them.
    pub fn u16(&mut self) -> usize
        requires { self.old.at + 2 ≤ length self.old.src.now }
        ensures { (result ≡ num_at self.old.src.now self.old.at 2) × (result < 65536)
            × (self.new ≡ moved self.old 2) }
    {
        let at = self.at;
        self.at = at + 2;
        octets::u16_at(self.src, at)
    }

    // The big-endian number in the four bytes at the position, which moves past them.
    pub fn u32(&mut self) -> usize
        requires { self.old.at + 4 ≤ length self.old.src.now }
        ensures { (result ≡ num_at self.old.src.now self.old.at 4) × (result < 4294967296)
            × (self.new ≡ moved self.old 4) }
    {
        let at = self.at;
        self.at = at + 4;
        octets::u32_at(self.src, at)
    }

    // An offset of so many bytes, up to four: the big-endian number at the position, which moves past it.
    pub fn offset(&mut self, size: usize) -> usize
        requires { (size ≤ 4) × (self.old.at + size ≤ length self.old.src.now) }
        ensures { (result ≡ num_at self.old.src.now self.old.at size) × (result < 256 ^ size)
            × (self.new ≡ moved self.old size) }
    {
        let at = self.at;
        self.at = at + size;
        octets::num_at(self.src, at, size)
    }

    // The next n bytes, the part of the caller's own at the position, which moves past them.
    pub fn take(&mut self, n: usize) -> &'a [u8]
        requires { self.old.at + n ≤ length self.old.src.now }
        ensures { (result.now ≡ take n (drop self.old.at self.old.src.now))
            × (result.ref_ptr.0 ≡ self.old.src.ref_ptr.0) × (result.ref_ptr.1 ≡ self.old.src.ref_ptr.1 + self.old.at)
            × (self.new ≡ moved self.old n) }
    {
        let at = self.at;
        self.at = at + n;
        part(self.src, at, n)
    }

    // Moves the position on.
    pub fn skip(&mut self, n: usize)
        requires { self.old.at + n < 2 ^ 64 }
        ensures { self.new ≡ moved self.old n }
    {
        self.at = self.at + n;
    }

    // How many bytes are left.
    pub fn left(self) -> usize
        requires { self.at ≤ length self.src.now }
        ensures { result + self.entry.at ≡ length self.entry.src.now }
    {
        self.src.len() - self.at
    }
}

// The n bytes at a position: the part of the bytes passed that begins there.
pub fn part(src: &[u8], at: usize, n: usize) -> &[u8]
    requires { at + n ≤ length src.now }
    ensures { (result.now ≡ take n (drop at src.now)) × (result.ref_ptr.0 ≡ src.entry.ref_ptr.0) × (result.ref_ptr.1 ≡ src.entry.ref_ptr.1 + at) }
{
    &src[at..at + n]
}

// What is read of a font's header: its major version, and how long it is.
#[derive(Clone, Copy)]
pub struct Header {
    pub major: usize,
    pub size: usize,
}

// The header that a font begins with. Who calls it needs no walk by hand: its parameter is a plain slice.
pub fn read_header(font: &[u8]) -> Header
    requires { 3 ≤ length font.now }
    ensures { result ≡ header_of font.now }
{
    let mut r = Reader::new(font, 0);
    let major = r.u8();
    r.skip(1);
    let size = r.u8();
    Header { major, size }
}
