// What a subset has of an encoding by the number of its kind, any number being one: as an `Encoding` where its kind has a name.
ghost use Rattle.std.specs.Prelude.{◌≡◌, ◌≤◌};
ghost use Rattle.encoding.specs.Numbered.{numbered_len, numbered_offset};

// Kind 0 no encoding, 1 the Expert one, 2 the pairs of a table; and how many pairs. One of another kind has no bytes, and stands where it is put.
#[derive(Clone, Copy)]
pub struct Numbered {
    pub kind: usize,
    pub pairs: usize,
}

// How many bytes it has.
pub fn encoding_len(e: Numbered) -> usize
    requires { e.pairs ≤ 256 }
    ensures { (result ≡ numbered_len e) × (result ≤ 771) }
{
    if e.kind == 2 {
        return 3 + 3 * e.pairs;
    }
    0
}

// Its offset, its bytes standing at a place.
pub fn encoding_at(e: Numbered, at: usize) -> usize
    ensures { result ≡ numbered_offset e at }
{
    match e.kind {
        0 => 0,
        1 => 1,
        _ => at,
    }
}
