// One bit for each number, 32 to a word (document 02, Wish 7): the bits of a set of numbers stand in the words from a place on.
#![tactic(auto)]

pub mod sums;

ghost use Rattle.std.specs.Prelude.{◌≡◌, ◌+◌, ◌*◌, ◌/◌, ◌≤◌, ◌<◌, length};
ghost use Rattle.std.specs.Int.Count.{ones};
ghost use Rattle.bits.specs.Bits.{words_for, bit_in, set_bit, whole_ones_lem, count_below};

// How many words n bits take.
pub fn words_for(n: usize) -> usize
    requires { n < 4294967296 }
    ensures { (result ≡ words_for n) × (result ≤ n) }
{
    (n + 31) / 32
}

// Whether number k has its bit in the words from `at` on.
pub fn has_bit(words: &[u32], at: usize, k: usize) -> bool
    requires { at + k / 32 < length words.now }
    ensures { result ≡ bit_in words.now at k }
{
    let w = words[at + k / 32];
    (w >> (k % 32)) % 2 == 1
}

// Sets the bit of number k in the words from `at` on.
pub fn set_bit(words: &mut [u32], at: usize, k: usize)
    requires { at + k / 32 < length words.old }
    ensures { words.new ≡ set_bit words.old at k }
{
    let i = at + k / 32;
    words[i] = words[i] | (1u32 << (k % 32));
}

// The ones of a word.
fn ones_of(w: u32) -> u32
    ensures { (result ≡ ones w) × (result ≤ 32) }
{
    u32::count_ones(w)
}

// The ones of q whole words from `at` on. They are added up in 32 bits, as wide as a word: four words are then counted at a time, not two.
pub fn whole_ones(words: &[u32], at: usize, q: usize) -> usize
    requires { (at + q ≤ length words.now) × (q ≤ 2048) }
    ensures { (result ≡ whole_ones_lem words.now at q) × (result ≤ 32 * q) }
{
    let mut n: u32 = 0;
    for i in 0..q {
        n += ones_of(words[at + i]);
    }
    n as usize
}

// How many numbers below k have their bit, of which `sum` stand in the first `from` words: the ones of whole words, and of one masked word.
pub fn rank(words: &[u32], at: usize, k: usize, from: usize, sum: usize) -> usize
    requires { (at + k / 32 < length words.now) × (k < 65536) × (from ≤ k / 32) × (sum < 65536)
        × (sum ≡ count_below (bit_in words.now at) (32 * from)) }
    ensures { result ≡ count_below (bit_in words.now at) k }
{
    let q = k / 32;
    let n = whole_ones(words, at + from, q - from);
    let mask = (1u32 << (k % 32)) - 1;
    sum + n + ones_of(words[at + q] & mask) as usize
}
