// The numbers of a DICT (TN5176, section 4, tables 3 to 5) as exact decimals. The Rust holds an f64; within the limits of refusal 5 of
// document 01 the decimal and the f64 print, truncate, compare and clamp alike.
#![tactic(auto)]

pub mod real;

ghost use Rattle.std.specs.Prelude.{◌≡◌, true, false, ◌+◌, ◌-◌, ◌*◌, ◌/◌, ◌^◌, ◌≤◌, ◌<◌, min, ltb, length, get_or};
ghost use Rattle.octets.specs.Pick.{pick};
ghost use Rattle.decimal.specs.Decimal.{normal};
ghost use Rattle.decimal.specs.Number.{pair_at, real_at, number_at, a_number, answer_of, past_width, past_of};
ghost use Rattle.decimal.specs.Values.{trunc_of, clamped, i32_of, id_of, offset_of, is_two};

use refusal::Refusal;
use std::marker::Model;

// ± digits × 10 ^ up / 10 ^ down; normalised, so that two equal numbers are one value.
#[derive(Clone, Copy)]
pub struct Decimal {
    pub neg: bool,
    pub digits: usize,
    pub up: usize,
    pub down: usize,
}

impl Model for Decimal {
    ghost use Rattle.decimal.specs.Decimal.{Figure, Reduced};

    ghost Value = { Figure };

    ghost view = { λ d. record { neg = d.neg; digits = d.digits; up = d.up; down = d.down } };

    ghost inverse = { λ d. record { neg = d.neg; digits = d.digits; up = d.up; down = d.down } };

    ghost invariant = { λ d. Reduced (record { neg = d.neg; digits = d.digits; up = d.up; down = d.down }) };
}

// A number that was read, and the position after it.
#[derive(Clone, Copy)]
pub struct NumberAt {
    pub value: Decimal,
    pub next: usize,
}

// A number cut to 32 bits: its sign and its size. type2_number `Scaled` counts 65536ths: one type for both would let them be mixed up.
#[derive(Clone, Copy)]
pub struct Signed {
    pub neg: bool,
    pub size: usize,
}

// The digits of a real so far: without the zeros at their end, how many zeros that were, and how many digits stand behind the point.
#[derive(Clone, Copy)]
struct Held {
    pub neg: bool,
    pub digits: usize,
    pub zeros: usize,
    pub behind: usize,
}

// How far the text of a real was read. A malformed text is a state and no error: where the bytes end before it does it is Truncated, whatever it says
// (`text_of`), so that reading goes on; as an Option, each step would hand on a None that does not say what it means.
#[derive(Clone, Copy)]
enum Stage {
    Start,
    Mantissa {
        any: bool,
        point: bool,
        held: Held,
    },
    Exponent {
        held: Held,
    },
    Power {
        held: Held,
        eneg: bool,
        any: bool,
        exp: usize,
    },
    Malformed,
}

// An offset past every font: more is not told apart.
const FAR: usize = 4294967296;
// Refusal 5: digits that are too many.
const TOO_MANY: usize = 1000000000000000;
// A count past every limit.
const PAST: usize = 1000;

// m × 10 ^ k, but cap at most.
fn scaled_up(m: usize, k: usize, cap: usize) -> usize
    requires { cap ≤ 1000000000000000000 }
    ensures { result ≡ min (m * 10 ^ k) cap }
{
    let mut n = m;
    for _ in 0..k {
        if cap <= n {
            return cap;
        }
        n *= 10;
    }
    n.min(cap)
}

// The integer n, or -n where neg, without the zeros at its end.
pub fn whole(neg: bool, n: usize) -> Decimal
    ensures { result ≡ normal neg n 0 0 }
{
    if n == 0 {
        return Decimal {
            neg: false,
            digits: 0,
            up: 0,
            down: 0,
        };
    }
    let mut digits = n;
    let mut up = 0;
    while digits % 10 == 0 {
        digits /= 10;
        up += 1;
    }
    Decimal {
        neg,
        digits,
        up,
        down: 0,
    }
}

// The integer with the sign and the size, and the position after it.
fn integer(neg: bool, size: usize, next: usize) -> Result<Option<NumberAt>, Refusal>
    ensures { result ≡ a_number (normal neg size 0 0) next }
{
    let value = whole(neg, size);
    Ok(Some(NumberAt { value, next }))
}

// The integer with the bits v in two's complement, half being the least that is negative.
fn twos(v: usize, half: usize, next: usize) -> Result<Option<NumberAt>, Refusal>
    requires { (half ≤ 2147483648) × (v < half * 2) }
    ensures { result ≡ pick (ltb v half) (a_number (normal false v 0 0) next) (a_number (normal true (half * 2 - v) 0 0) next) }
{
    if v < half {
        return integer(false, v, next);
    }
    integer(true, half * 2 - v, next)
}

// The integer of two bytes whose first, 247 to 254, is v.
fn pair(d: &[u8], at: usize, v: usize) -> Result<Option<NumberAt>, Refusal>
    requires { (at < length d.now) × (247 ≤ v) × (v < 255) }
    ensures { result ≡ answer_of (pair_at d.now at v) }
{
    if d.len() - at < 2 {
        return Err(Refusal::Truncated);
    }
    let w = usize::from(d[at + 1]);
    if v < 251 {
        return integer(false, (v - 247) * 256 + w + 108, at + 2);
    }
    integer(true, (v - 251) * 256 + w + 108, at + 2)
}

// The number at a position of a DICT, where one stands there, as in the Rust's `Dict::parse`.
pub fn number_at(d: &[u8], at: usize) -> Result<Option<NumberAt>, Refusal>
    requires { at < length d.now }
    ensures { result ≡ answer_of (number_at d.now at) }
{
    let left = d.len() - at;
    let v = usize::from(d[at]);
    if v == 28 {
        if left < 3 {
            return Err(Refusal::Truncated);
        }
        return twos(octets::u16_at(d, at + 1), 32768, at + 3);
    }
    if v == 29 {
        if left < 5 {
            return Err(Refusal::Truncated);
        }
        return twos(octets::u32_at(d, at + 1), 2147483648, at + 5);
    }
    if v == 30 {
        return real::parse_real(d, at);
    }
    if v < 32 {
        return Ok(None);
    }
    if v < 139 {
        return integer(true, 139 - v, at + 1);
    }
    if v < 247 {
        return integer(false, v - 139, at + 1);
    }
    if v < 255 {
        return pair(d, at, v);
    }
    Ok(None)
}

// The position after so many bytes, where they are there.
fn past_bytes(d: &[u8], at: usize, width: usize) -> Result<Option<usize>, Refusal>
    requires { (at < length d.now) × (width ≤ 5) }
    ensures { result ≡ past_width d.now at width }
{
    if d.len() - at < width {
        return Err(Refusal::Truncated);
    }
    Ok(Some(at + width))
}

// The position after a real: its text is read whole, for it may be refused.
fn past_real(d: &[u8], at: usize) -> Result<Option<usize>, Refusal>
    requires { at < length d.now }
    ensures { result ≡ past_of (real_at d.now at) }
{
    match real::parse_real(d, at)? {
        None => Ok(None),
        Some(number) => Ok(Some(number.next)),
    }
}

// The position after the number whose first byte, below 32, is v.
fn past_prefixed(d: &[u8], at: usize, v: usize) -> Result<Option<usize>, Refusal>
    requires { (at < length d.now) × (v ≡ get_or d.now at 0) × (v < 32) }
    ensures { result ≡ past_of (number_at d.now at) }
{
    if v < 28 {
        return Ok(None);
    }
    if v == 28 {
        return past_bytes(d, at, 3);
    }
    if v == 29 {
        return past_bytes(d, at, 5);
    }
    if v == 30 {
        return past_real(d, at);
    }
    Ok(None)
}

// Where the number at a position ends: `number_at` without its value, for those who only pass it.
pub fn past_number(d: &[u8], at: usize) -> Result<Option<usize>, Refusal>
    requires { at < length d.now }
    ensures { result ≡ past_of (number_at d.now at) }
{
    let v = usize::from(d[at]);
    if v < 32 {
        return past_prefixed(d, at, v);
    }
    if v < 247 {
        return Ok(Some(at + 1));
    }
    if v < 255 {
        return past_bytes(d, at, 2);
    }
    Ok(None)
}

// m / 10 ^ k.
pub fn scaled_down(m: usize, k: usize) -> usize
    ensures { result ≡ m / 10 ^ k }
{
    let mut n = m;
    for _ in 0..k {
        n /= 10;
    }
    n
}

// The size with the fraction dropped, 4294967296 for all that is larger.
pub fn trunc(d: Decimal) -> usize
    ensures { result ≡ min (trunc_of d) 4294967296 }
{
    let digits = d.digits;
    let up = d.up;
    let down = d.down;
    if down == 0 {
        return scaled_up(digits, up, FAR);
    }
    let n = scaled_down(digits, down);
    if n < FAR {
        return n;
    }
    FAR
}

// Clamped to 0 .. most, the fraction dropped.
fn clamped(d: Decimal, most: usize) -> usize
    requires { most < 4294967296 }
    ensures { result ≡ clamped most d }
{
    let neg = d.neg;
    if neg {
        return 0;
    }
    let n = trunc(d);
    if n < most {
        return n;
    }
    most
}

// Clamped to 16 bits: the ids of ROS.
pub fn to_u16(d: Decimal) -> usize
    ensures { result ≡ clamped 65535 d }
{
    clamped(d, 65535)
}

// Clamped to 32 bits: CIDCount.
pub fn to_u32(d: Decimal) -> usize
    ensures { result ≡ clamped 4294967295 d }
{
    clamped(d, 4294967295)
}

// Clamped to 32 bits with a sign: the supplement of ROS.
pub fn to_i32(d: Decimal) -> Signed
    ensures { result ≡ i32_of d }
{
    let neg = d.neg;
    let n = trunc(d);
    if n == 0 {
        return Signed {
            neg: false,
            size: 0,
        };
    }
    if neg {
        if n < 2147483648 {
            return Signed { neg: true, size: n };
        }
        return Signed {
            neg: true,
            size: 2147483648,
        };
    }
    if n < 2147483647 {
        return Signed {
            neg: false,
            size: n,
        };
    }
    Signed {
        neg: false,
        size: 2147483647,
    }
}

// The string id of a string entry, if the number is one.
pub fn id_of(d: Decimal) -> Option<usize>
    ensures { result ≡ id_of d }
{
    let neg = d.neg;
    let n = trunc(d);
    if n == 0 {
        return Some(0);
    }
    if neg {
        return None;
    }
    if n < 65536 {
        return Some(n);
    }
    None
}

// The Rust's `Dict::offset`: whole and not negative, or malformed.
pub fn offset_of(d: Decimal) -> Result<usize, Refusal>
    ensures { result ≡ offset_of d }
{
    let neg = d.neg;
    let down = d.down;
    if neg {
        return Err(Refusal::Malformed);
    }
    if down == 0 {
        let n = trunc(d);
        return Ok(n);
    }
    Err(Refusal::Malformed)
}

// Exactly 2: the charstring type that is supported. (Asked by the parts of a number: it answers for those that make no `Decimal` too.)
pub fn is_two(neg: bool, digits: usize, up: usize, down: usize) -> bool
    ensures { result ≡ is_two (record { neg = neg; digits = digits; up = up; down = down }) }
{
    !neg && digits == 2 && up == 0 && down == 0
}
