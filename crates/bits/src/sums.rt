// Running sums: how many bits stand below each eighth of some words, so that no more words are counted for a number than an eighth of all.
ghost use Rattle.std.specs.Prelude.{◌≡◌, ◌+◌, ◌*◌, ◌≤◌, ◌<◌};
ghost use Rattle.bits.specs.Bits.{eighth, four, ones_to, sum_in};

// An eighth of n words, rounded up.
pub fn eighth(n: usize) -> usize
    requires { n ≤ 2048 }
    ensures { result ≡ eighth n }
{
    (n + 7) / 8
}

// The ones of the first m of some words, or of all where there are fewer.
fn ones_to(held: &[u32], m: usize) -> usize
    requires { m < 2048 }
    ensures { (result ≡ ones_to held.now m) × (result < 65536) }
{
    let n = held.len();
    if n < m {
        return crate::whole_ones(held, 0, n);
    }
    crate::whole_ones(held, 0, m)
}

// The ones below four places that are e words apart, 16 bits each, the first lowest.
pub fn four_sums(held: &[u32], first: usize, e: usize) -> usize
    requires { first + 3 * e < 2048 }
    ensures { result ≡ four (ones_to held.now) first e }
{
    let a = ones_to(held, first);
    let b = ones_to(held, first + e);
    let c = ones_to(held, first + 2 * e);
    let d = ones_to(held, first + 3 * e);
    a + 65536 * (b + 65536 * (c + 65536 * d))
}

// The sum below the j-th eighth.
pub fn sum_in(low: usize, high: usize, j: usize) -> usize
    requires { j < 8 }
    ensures { (result ≡ sum_in low high j) × (result < 65536) }
{
    if j < 4 {
        return (low >> (16 * j)) % 65536;
    }
    (high >> (16 * (j - 4))) % 65536
}
