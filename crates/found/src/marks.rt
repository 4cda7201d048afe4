// Marks of names that were met: a name that lacks a mark is new, without a look at the names before it.
ghost use Rattle.std.specs.Prelude.{◌≡◌, ◌<◌, length};
ghost use Rattle.found.specs.Hash.{hash_of_lem, Marked};

// The hash of a text.
pub fn hash_of(text: &[u8]) -> usize
    ensures { (result ≡ hash_of_lem text.now) × (result < 4294967296) }
{
    let mut h: usize = 0;
    for b in text {
        h = (h + *b as usize) * 16777619 % 4294967296;
    }
    h
}

// Marks both places of a hash; whether one of them was not marked.
pub fn meet(marks: &mut [u32], h: usize) -> bool
    requires { (length marks.old ≡ 4096) × (h < 4294967296) }
    ensures { Marked marks.old h marks.new result }
{
    let low = first_glyphs::see(&mut *marks, h % 65536);
    let high = first_glyphs::see(marks, 65536 + h / 65536);
    if low {
        return !high;
    }
    true
}
