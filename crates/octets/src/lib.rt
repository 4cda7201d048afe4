// Big-endian numbers read from a slice at a position, and bytes written into a lent slice: the Rust's Reader and to_be_bytes.
// A reader here requires that its bytes are there: the caller tests first, since a refusal has its place in the caller's order.
#![tactic(auto)]

pub mod out;

ghost use Rattle.std.specs.Prelude.{◌≡◌, [], ◌∷◌, ◌+◌, ◌≤◌, ◌<◌, ◌^◌, length, get_or};
ghost use Rattle.octets.specs.Octets.{num_at, bytes_of, Wrote};

// The longest file that is read and the longest subset that is written, in bytes (document 01, 'Entries and their refusals').
pub const LONGEST: usize = 67108864;

// The byte at p.
pub fn u8_at(s: &[u8], p: usize) -> usize
    requires { p < length s.now }
    ensures { (result ≡ get_or s.now p 0) × (result < 256) }
{
    usize::from(s[p])
}

// The big-endian number in the two bytes from p on.
pub fn u16_at(s: &[u8], p: usize) -> usize
    requires { p + 2 ≤ length s.now }
    ensures { (result ≡ num_at s.now p 2) × (result < 65536) }
{
    usize::from(s[p]) * 256 + usize::from(s[p + 1])
}

// The big-endian number in the four bytes from p on.
pub fn u32_at(s: &[u8], p: usize) -> usize
    requires { p + 4 ≤ length s.now }
    ensures { (result ≡ num_at s.now p 4) × (result < 4294967296) }
{
    ((usize::from(s[p]) * 256 + usize::from(s[p + 1])) * 256 + usize::from(s[p + 2])) * 256
        + usize::from(s[p + 3])
}

// The big-endian number in the three bytes from p on.
fn u24_at(s: &[u8], p: usize) -> usize
    requires { p + 3 ≤ length s.now }
    ensures { (result ≡ num_at s.now p 3) × (result < 16777216) }
{
    (usize::from(s[p]) * 256 + usize::from(s[p + 1])) * 256 + usize::from(s[p + 2])
}

// The big-endian number in the n bytes from p on, n up to 4. Offsets are read by it one after the other, so it has no loop.
pub fn num_at(s: &[u8], p: usize, n: usize) -> usize
    requires { (n ≤ 4) × (p + n ≤ length s.now) }
    ensures { (result ≡ num_at s.now p n) × (result < 256 ^ n) }
{
    if n == 4 {
        return u32_at(s, p);
    }
    if n == 3 {
        return u24_at(s, p);
    }
    if n == 2 {
        return u16_at(s, p);
    }
    if n == 1 {
        return u8_at(s, p);
    }
    0
}

// Stores a byte at a place; returns the place after it.
pub fn put_byte(out: &mut [u8], at: usize, b: u8) -> usize
    requires { at < length out.old }
    ensures { Wrote out.old at (b ∷ []) out.new result }
{
    out[at] = b;
    at + 1
}

// Stores two bytes at a place; returns the place after them.
pub fn put_pair(out: &mut [u8], at: usize, a: u8, b: u8) -> usize
    requires { at + 2 ≤ length out.old }
    ensures { Wrote out.old at (a ∷ b ∷ []) out.new result }
{
    let p = put_byte(out, at, a);
    put_byte(out, p, b)
}

// Stores the low size bytes of a number at a place, the highest first; returns the place after them.
pub fn put_num(out: &mut [u8], at: usize, value: usize, size: usize) -> usize
    requires { at + size ≤ length out.old }
    ensures { Wrote out.old at (bytes_of size value) out.new result }
{
    let mut v = value;
    for i in (0..size).rev() {
        out[at + i] = (v % 256) as u8;
        v /= 256;
    }
    at + size
}

// Copies src to a place of out; returns the place after it. By a loop: copy_from_slice is memmove, which include/mogdivash.h does not ask for.
pub fn put_bytes(out: &mut [u8], at: usize, src: &[u8]) -> usize
    requires { at + length src.now ≤ length out.old }
    ensures { Wrote out.old at src.now out.new result }
{
    let n = src.len();
    for i in 0..n {
        out[at + i] = src[i];
    }
    at + n
}
