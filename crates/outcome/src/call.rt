// A call of subsetting: which one it is, and what is asked of the font.
ghost use Rattle.octets.specs.Octets.{Octets};

// The keying of the font that is asked for. With a name-keyed font goes its encoding, where that is asked for (document 02, Wish 4). An Option of that
// would not say the keying.
#[derive(Clone, Copy)]
pub enum Keying {
    Name { encoding: bool },
    Cid,
}

impl Keying {
    ghost use Rattle.std.specs.Prelude.{◌≡◌};
    ghost use Rattle.outcome.specs.Call.{is_cid, asks};

    // Whether it is that of a CID-keyed font.
    pub fn is_cid(self) -> bool
        ensures { result ≡ is_cid self }
    {
        match self {
            Keying::Name { encoding: _ } => false,
            Keying::Cid => true,
        }
    }

    // Whether the encoding is asked for.
    pub fn asks(self) -> bool
        ensures { result ≡ asks self }
    {
        match self {
            Keying::Name { encoding } => encoding,
            Keying::Cid => false,
        }
    }
}

// Which call it is: of which keying, and whether it is the one that asks for few work words, a bit for each glyph and each subroutine (document 02, Wish 10).
#[derive(Clone, Copy)]
pub struct Call {
    pub keying: Keying,
    pub small: bool,
}

impl Call {
    ghost use Rattle.std.specs.Prelude.{◌≡◌};

    pub fn new(keying: Keying, small: bool) -> Call
        ensures { result ≡ record { keying = keying; small = small } }
    {
        Call { keying, small }
    }
}

// What the subset is asked to be: its name, the glyphs to keep, and the rows and the flag of the reach record. The flag is any byte: refusal 8 judges it.
#[derive(Clone, Copy)]
pub struct Request<'a> {
    pub name: &'a [u8],
    pub keep: &'a [u16],
    pub rows: &'a [u8],
    pub traced: u8,
    ghost octets: { Octets rows.now },
}

impl<'a> Request<'a> {
    ghost use Rattle.std.specs.Prelude.{◌≡◌};

    // What is asked, put together: by a function, since rows that are a parameter are known to be octets.
    pub fn new(name: &'a [u8], keep: &'a [u16], rows: &'a [u8], traced: u8) -> Request<'a>
        ensures { (result.name.now ≡ name.now) × (result.keep.now ≡ keep.now) × (result.rows.now ≡ rows.now) × (result.traced ≡ traced) }
    {
        Request {
            name,
            keep,
            rows,
            traced,
        }
    }
}
