// Short charstrings, one after the other (document 02, Wish 13): plain, of 1 to 4 bytes, without a call, the last byte their only endchar.
// What ends in endchar is counted upward, and each is run.
#![tactic(auto)]

ghost use Rattle.std.specs.Prelude.{◌≡◌, ◌-◌, ◌≤◌, ◌<◌, length, Ok};
ghost use Rattle.octets.specs.Octets.{Wrote};
ghost use Rattle.short_charstrings.specs.Short.{ends, is_short};
ghost use Rattle.short_charstrings.specs.Next.{candidate, candidates, place_of, first_from_lem, found_place, place_next, PlaceFits, next_of, Answers, Gives};

use index::Index;
use interpret::callees::Callees;
use interpret::{Range, Subrs};
use refusal::Refusal;
use row_window::filling::Filling;

// All of 1 to 4 bytes that end in endchar.
const CANDIDATES: usize = 16843009;

// Whether an endchar runs in a charstring that has no subroutines.
fn ends(code: &[u8]) -> bool
    requires { length code.now ≤ 4 }
    ensures { result ≡ ends code.now }
{
    if code.len() < 1 {
        return false;
    }
    let font = [0u8; 2];
    let none = Index {
        count: 0,
        size: 1,
        table: 1,
        base: 1,
        end: 2,
    };
    let q = Subrs {
        globals: none,
        locals: none,
        fd: 0,
    };
    let mut keys = [0u64; 1];
    let from = Callees { font: &font, q };
    let range = Range { low: 0, high: 0 };
    let mut filling = Filling::begin(&mut keys);
    interpret::run_glyph(&from, 0, code, range, &mut filling)
}

// Whether a charstring is a short one.
pub fn is_short(code: &[u8]) -> bool
    ensures { result ≡ is_short code.now }
{
    let n = code.len();
    if n < 1 {
        return false;
    }
    if 4 < n {
        return false;
    }
    if code[n - 1] != 14 {
        return false;
    }
    if ends(code) {
        return !ends(&code[..n - 1]);
    }
    false
}

// The length of the k-th that ends in endchar.
fn size_of(k: usize) -> usize
    ensures { result ≡ length (candidate k) }
{
    if k < 1 {
        return 1;
    }
    if k < 257 {
        return 2;
    }
    if k < 65793 {
        return 3;
    }
    4
}

// Writes the k-th that ends in endchar to the start of out; its length.
fn put_candidate(out: &mut [u8], k: usize) -> usize
    requires { (k < candidates) × (length (candidate k) ≤ length out.old) }
    ensures { Wrote out.old 0 (candidate k) out.new result }
{
    if k < 1 {
        out[0] = 14;
        return 1;
    }
    if k < 257 {
        out[0] = (k - 1) as u8;
        out[1] = 14;
        return 2;
    }
    if k < 65793 {
        out[0] = ((k - 257) / 256) as u8;
        out[1] = ((k - 257) % 256) as u8;
        out[2] = 14;
        return 3;
    }
    out[0] = ((k - 65793) / 65536) as u8;
    out[1] = ((k - 65793) / 256 % 256) as u8;
    out[2] = ((k - 65793) % 256) as u8;
    out[3] = 14;
    4
}

// Which of them a charstring of 1 to 4 bytes is.
fn place_of(code: &[u8]) -> usize
    requires { (1 ≤ length code.now) × (length code.now ≤ 4) }
    ensures { (result ≡ place_of code.now) × (result < candidates) }
{
    let n = code.len();
    if n < 2 {
        return 0;
    }
    if n < 3 {
        return 1 + octets::u8_at(code, 0);
    }
    if n < 4 {
        return 257 + octets::u8_at(code, 0) * 256 + octets::u8_at(code, 1);
    }
    65793 + (octets::u8_at(code, 0) * 256 + octets::u8_at(code, 1)) * 256 + octets::u8_at(code, 2)
}

// The first short one from the k-th on, or that there is none.
fn first_from(k: usize) -> Option<usize>
    requires { k ≤ candidates }
    ensures { (result ≡ found_place (first_from_lem (candidates - k) k)) × PlaceFits (Ok result) }
{
    let mut code = [0u8; 4];
    for at in k..CANDIDATES {
        let n = put_candidate(&mut code, at);
        if is_short(&code[..n]) {
            return Some(at);
        }
    }
    None
}

// Where the next charstring stands behind what is given, a short one or nothing; or that there is none.
fn place_next(code: &[u8]) -> Result<Option<usize>, Refusal>
    ensures { (result ≡ place_next code.now) × PlaceFits result }
{
    if code.len() < 1 {
        return Ok(first_from(0));
    }
    if is_short(code) {
        return Ok(first_from(place_of(code) + 1));
    }
    Err(Refusal::Malformed)
}

// The next short charstring behind a short one, or behind nothing, written to the start of out: its length, or that none is left. What is not
// one of them is refused as malformed, and then less room than the next one has bytes for the output.
pub fn next_charstring(code: &[u8], out: &mut [u8]) -> Result<Option<usize>, Refusal>
    ensures { Answers (next_of code.now) out.old out.new result }
{
    match place_next(code)? {
        None => Ok(None),
        Some(k) => {
            if out.len() < size_of(k) {
                return Err(Refusal::Output);
            }
            Ok(Some(put_candidate(out, k)))
        }
    }
}

// The same for C: the length goes to the lent words, 0 where none is left.
pub fn give_next(code: &[u8], out: &mut [u8], size: &mut [u64]) -> Result<(), Refusal>
    ensures { Gives (next_of code.now) out.old out.new size.old size.new result }
{
    match place_next(code)? {
        None => {
            if size.len() < 1 {
                return Err(Refusal::Output);
            }
            size[0] = 0;
            Ok(())
        }
        Some(k) => {
            if out.len() < size_of(k) {
                return Err(Refusal::Output);
            }
            if size.len() < 1 {
                return Err(Refusal::Output);
            }
            let n = put_candidate(out, k);
            size[0] = n as u64;
            Ok(())
        }
    }
}
