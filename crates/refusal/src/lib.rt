// Why a call is refused (documents 01, 'Entries and their refusals', and 02), the counterpart of program.rs, and the number of each refusal.
#![tactic(auto)]

ghost use Rattle.std.specs.Prelude.{◌≡◌};
ghost use Rattle.refusal.specs.Refusal.{number_of, number_or_0, is_refusal};

#[derive(Clone, Copy, PartialEq, Eq)]
pub enum Refusal {
    // A structure ends before what was being read.
    Truncated,
    // Any other fault in a structure.
    Malformed,
    // A form that TN5176 allows and the cut does not handle, or a font of the other keying.
    Unsupported,
    // A font of more than 67,108,864 bytes, or a new name of more than 65,535.
    TooLong,
    // A well-formed real past the limits of document 01.
    Real,
    // No glyph or INDEX item of that number.
    NoSuchNumber,
    // A kept glyph that finding by its name or CID would not give.
    NotFound,
    // A reach record or a traced flag that is not of the form of document 01.
    BadRecord,
    // Fewer work words than W.
    Work,
    // A subset of more than 67,108,864 bytes.
    Subset,
    // A subset longer than the output.
    Output,
    // A new string id above 64,999.
    StringId,
    // An encoding of more than 255 pairs (document 02, Wish 4).
    Pairs,
    // A reach record right in form that is not accepted (document 02, Wish 6).
    NotAccepted,
    // An OpenType file without a table `CFF `.
    NoTable,
}

impl Refusal {
    // The number that a call answers.
    pub fn number(self) -> u8
        ensures { result ≡ number_of self }
    {
        match self {
            Refusal::Truncated => 1,
            Refusal::Malformed => 2,
            Refusal::Unsupported => 3,
            Refusal::TooLong => 4,
            Refusal::Real => 5,
            Refusal::NoSuchNumber => 6,
            Refusal::NotFound => 7,
            Refusal::BadRecord => 8,
            Refusal::Work => 9,
            Refusal::Subset => 10,
            Refusal::Output => 11,
            Refusal::StringId => 12,
            Refusal::Pairs => 13,
            Refusal::NotAccepted => 14,
            Refusal::NoTable => 15,
        }
    }

    // Whether a number is that of a refusal.
    pub fn known(n: u8) -> bool
        ensures { result ≡ is_refusal n }
    {
        1 <= n && n <= 15
    }
}

// What a call answers for C that gives nothing but whether it is refused: 0, or the number of the refusal.
pub fn number_or_0(r: Result<(), Refusal>) -> u8
    ensures { result ≡ number_or_0 r }
{
    match r {
        Ok(()) => 0,
        Err(e) => e.number(),
    }
}
