// Lines of lower-case hexadecimal in a slice: where a line and a field end, and the bytes that digits spell.
#![tactic(auto)]

ghost use Rattle.std.specs.Prelude.{◌≡◌, true, ◌≤◌, length};
ghost use Rattle.octets.specs.Octets.{Wrote};
ghost use Rattle.octets.specs.Lists.{before};
ghost use Rattle.hexlines.specs.Hexlines.{hex_value_lem, octet_of, field_end_lem, is_hex_lem, spelt, hex_bytes, room_for, Unhexes};

// The value of a digit; none for any other byte.
pub fn hex_value(b: u8) -> Option<u8>
    ensures { result ≡ hex_value_lem b }
{
    match b {
        b'0'..=b'9' => Some(b - b'0'),
        b'a'..=b'f' => Some(b - b'a' + 10),
        _ => None,
    }
}

// The byte of two digits, the high one first; a byte that is no digit counts as 0.
pub fn octet_of(high: u8, low: u8) -> u8
    ensures { result ≡ octet_of high low }
{
    hex_value(high).unwrap_or(0) * 16 + hex_value(low).unwrap_or(0)
}

// The place of the first b, and the length where there is none. An Option is no plainer: where a line or a field ends, and which row of a report
// counts a line, is the length there.
pub fn place_of(s: &[u8], b: u8) -> usize
    ensures { (result ≡ before b s.now) × (result ≤ length s.now) }
{
    match s.iter().position(|x| *x == b) {
        Some(k) => k,
        None => s.len(),
    }
}

// The place of the first blank at or after at, and the end of s where there is none.
pub fn field_end(s: &[u8], at: usize) -> usize
    requires { at ≤ length s.now }
    ensures { (result ≡ field_end_lem s.now at (length s.now)) × (at ≤ result) × (result ≤ length s.now) }
{
    at + place_of(&s[at..], b' ')
}

// Are these digits only, two to a byte?
pub fn is_hex(s: &[u8]) -> bool
    ensures { result ≡ is_hex_lem s.now }
{
    s.len() % 2 == 0 && s.iter().all(|x| hex_value(*x).is_some())
}

// Writes the bytes that digits spell to the start of out; returns how many they are.
pub fn put_spelt(out: &mut [u8], s: &[u8]) -> usize
    requires { (is_hex_lem s.now ≡ true) × (length (spelt s.now) ≤ length out.old) }
    ensures { Wrote out.old 0 (spelt s.now) out.new result }
{
    for (i, pair) in s.chunks_exact(2).enumerate() {
        out[i] = octet_of(pair[0], pair[1]);
    }
    s.len() / 2
}

// The bytes that digits spell, written to the start of out: how many they are; or None, with out as it was, for an odd count of digits,
// a byte that is no digit, or no room.
pub fn unhex(s: &[u8], out: &mut [u8]) -> Option<usize>
    ensures { Unhexes (room_for (length out.old) 0 (hex_bytes s.now)) out.old 0 out.new result }
{
    if is_hex(s) {
        if out.len() < s.len() / 2 {
            return None;
        }
        let count = put_spelt(out, s);
        return Some(count);
    }
    None
}
