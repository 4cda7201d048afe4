// The numbers of a Type 2 charstring (TN5177, section 3.2): read to the f32 that the Rust's `number` gives, and written back as its
// `encode` does. The definitions count 65536ths; nothing above this crate sees how an f32 rounds.
#![tactic(auto)]

ghost use Rattle.std.specs.Prelude.{◌≡◌, true, false, ◌∷◌, ◌+◌, ◌*◌, ◌≤◌, ◌<◌, length, get_or};
ghost use Rattle.octets.specs.Octets.{bytes_of};
ghost use Rattle.octets.specs.Out.{Writes};
ghost use Rattle.type2_number.specs.Number.{is_neg, mag, whole, fixed, sixteen, rounded, number_at};
ghost use Rattle.type2_number.specs.Encoding.{integer_bytes, fixed_bytes, encoded};
ghost use Rattle.type2_number.specs.Floats.{float_of, scaled_of, HoldsReading};
ghost use Rattle.type2_number.specs.Answers.{number_of};

use octets::out::Out;
use std::marker::Model;

// A number of a charstring: an f32, seen as the count of 65536ths that it stands for.
#[derive(Clone, Copy)]
pub struct Operand {
    value: f32,
}

impl Model for Operand {
    ghost use Rattle.std.specs.Prelude.{ℤ};
    ghost use Rattle.type2_number.specs.Floats.{float_of, scaled_of, HoldsReading};
    ghost use Rattle.type2_number.specs.Readings.{held_back};

    ghost Value = { ℤ };

    ghost view = { λ x. scaled_of x.value };

    ghost inverse = { λ z. record { value = float_of z } };

    ghost inverse_ok = { λ x h i. record { value = held_back x.value h i } };

    ghost invariant = { λ x. HoldsReading x.value };
}

impl Operand {
    // The number that an f32 stands for.
    pub fn of(value: f32) -> Operand
        requires { HoldsReading value }
        ensures { result ≡ scaled_of value }
    {
        Operand { value }
    }

    // Its f32.
    pub fn float(self) -> f32
        ensures { result ≡ float_of self }
    {
        self.value
    }
}

// The f32 of the integer up - down.
pub fn integer(up: usize, down: usize) -> f32
    requires { (up ≤ 65536) × (down ≤ 65536) }
    ensures { result ≡ float_of (rounded (whole up down)) }
{
    if down <= up {
        (up - down) as f32
    } else {
        -((down - up) as f32)
    }
}

// The f32 of the signed 16.16 with the halves high and low: the division is exact, so the one addition alone rounds.
fn fixed(high: usize, low: usize) -> f32
    requires { (high < 65536) × (low < 65536) }
    ensures { result ≡ float_of (rounded (fixed high low)) }
{
    let part = (low as f32) / 65536.0;
    if high < 32768 {
        (high as f32) + part
    } else {
        -((65536 - high) as f32) + part
    }
}

// The integer up - down.
pub fn whole(up: usize, down: usize) -> Operand
    requires { (up ≤ down + 32768) × (down ≤ up + 32768) × (up ≤ 65536) × (down ≤ 65536) }
    ensures { result ≡ rounded (whole up down) }
{
    Operand {
        value: integer(up, down),
    }
}

// The signed 16.16 with the halves high and low.
fn fixed_operand(high: usize, low: usize) -> Operand
    requires { (high < 65536) × (low < 65536) }
    ensures { result ≡ rounded (fixed high low) }
{
    Operand {
        value: fixed(high, low),
    }
}

// The signed 16-bit integer with the bytes a and b.
fn sixteen(a: u8, b: u8) -> Operand
    ensures { result ≡ rounded (sixteen (a * 256 + b)) }
{
    let n = usize::from(a) * 256 + usize::from(b);
    if n < 32768 {
        whole(n, 0)
    } else {
        whole(n, 65536)
    }
}

// Two bytes as one number, the high one first.
fn pair(a: u8, b: u8) -> usize
    ensures { (result ≡ a * 256 + b) × (result < 65536) }
{
    usize::from(a) * 256 + usize::from(b)
}

// What stands at a position: a number and the position after it, a number that the end cuts off, or an operator. Three cases are plainer than a Result of an
// Option: an operator is neither absent nor an error. (decimal reads a number of a DICT as a Result of an Option: there one that is cut off is a refusal, which
// `?` hands on; here each caller has its own answer to it.)
#[derive(Clone, Copy)]
pub enum Number {
    Num { value: Operand, next: usize },
    Cut,
    Operator,
}

// The number of two bytes at a position, the first of which, 247 to 254, is v.
#[inline(always)]
fn two_bytes(code: &[u8], at: usize, v: usize) -> Number
    requires { (at < length code.now) × (v ≡ get_or code.now at 0) × (247 ≤ v) × (v < 255) }
    ensures { result ≡ number_of (number_at code.now at) }
{
    if code.len() - at < 2 {
        return Number::Cut;
    }
    let w = usize::from(code[at + 1]);
    if v < 251 {
        return Number::Num {
            value: whole((v - 247) * 256 + w + 108, 0),
            next: at + 2,
        };
    }
    Number::Num {
        value: whole(0, (v - 251) * 256 + w + 108),
        next: at + 2,
    }
}

// The Rust's `number`: all five forms of TN5177.
// (Inlined: a glyph's run asks only where a number ends, and no number is made there.)
#[inline(always)]
pub fn read_number(code: &[u8], at: usize) -> Number
    requires { at < length code.now }
    ensures { result ≡ number_of (number_at code.now at) }
{
    let left = code.len() - at;
    let v = usize::from(code[at]);
    if v < 32 {
        if v == 28 {
            if left < 3 {
                return Number::Cut;
            }
            return Number::Num {
                value: sixteen(code[at + 1], code[at + 2]),
                next: at + 3,
            };
        }
        return Number::Operator;
    }
    if v < 247 {
        return Number::Num {
            value: whole(v, 139),
            next: at + 1,
        };
    }
    if v < 255 {
        return two_bytes(code, at, v);
    }
    if left < 5 {
        return Number::Cut;
    }
    Number::Num {
        value: fixed_operand(
            pair(code[at + 1], code[at + 2]),
            pair(code[at + 3], code[at + 4]),
        ),
        next: at + 5,
    }
}

// A count of 65536ths, as its sign and its size. decimal `Signed` counts whole numbers: one type for both would let them be mixed up.
#[derive(Clone, Copy)]
pub struct Scaled {
    pub neg: bool,
    pub size: usize,
}

// The count that a number that was read stands for.
pub fn count_of(v: Operand) -> Scaled
    ensures { (result.neg ≡ is_neg v) × (result.size ≡ mag v) × (result.size ≤ 2147483648) × (result.neg ≡ true → 0 < result.size) }
{
    let x = v.value;
    if x < 0.0 {
        Scaled {
            neg: true,
            size: ((-x) as f64 * 65536.0) as usize,
        }
    } else {
        Scaled {
            neg: false,
            size: (x as f64 * 65536.0) as usize,
        }
    }
}

// Stores a byte and then the low size bytes of a number.
fn put_tagged(out: &mut Out<'_>, tag: u8, value: usize, size: usize)
    requires { out.old.at + (1 + size) ≤ length out.old.bytes.now }
    ensures { Writes out.old (tag ∷ bytes_of size value) out.new }
{
    out.byte(tag);
    out.num(value, size);
}

// The integer v in its shortest form (TN5177, table 1: a case for each first byte of a two-byte form). This and the next stay two: in one the first
// bytes would be computed from the sign, and document 02, Wish 3, wants them as the table prints them.
fn put_positive(v: usize, out: &mut Out<'_>)
    requires { (v < 32768) × (out.old.at + length (integer_bytes false v) ≤ length out.old.bytes.now) }
    ensures { Writes out.old (integer_bytes false v) out.new }
{
    match v {
        0..=107 => out.byte((139 + v) as u8),
        108..=363 => out.pair(247, (v - 108) as u8),
        364..=619 => out.pair(248, (v - 364) as u8),
        620..=875 => out.pair(249, (v - 620) as u8),
        876..=1131 => out.pair(250, (v - 876) as u8),
        _ => put_tagged(out, 28, v, 2),
    }
}

// The integer -v in its shortest form.
fn put_negative(v: usize, out: &mut Out<'_>)
    requires { (v < 32768) × (out.old.at + length (integer_bytes true v) ≤ length out.old.bytes.now) }
    ensures { Writes out.old (integer_bytes true v) out.new }
{
    match v {
        0..=107 => out.byte((139 - v) as u8),
        108..=363 => out.pair(251, (v - 108) as u8),
        364..=619 => out.pair(252, (v - 364) as u8),
        620..=875 => out.pair(253, (v - 620) as u8),
        876..=1131 => out.pair(254, (v - 876) as u8),
        _ => put_tagged(out, 28, 65536 - v, 2),
    }
}

// The integer v, or -v where neg, in its shortest form.
pub fn encode_number(neg: bool, v: usize, out: &mut Out<'_>)
    requires { (v < 32768) × (out.old.at + length (integer_bytes neg v) ≤ length out.old.bytes.now) }
    ensures { Writes out.old (integer_bytes neg v) out.new }
{
    if neg {
        return put_negative(v, out);
    }
    put_positive(v, out)
}

// The 16.16 of n 65536ths, or -n where neg.
pub fn encode_fixed(neg: bool, n: usize, out: &mut Out<'_>)
    requires { (n ≤ 2147483648) × (out.old.at + 5 ≤ length out.old.bytes.now) }
    ensures { Writes out.old (fixed_bytes neg n) out.new }
{
    if neg {
        return put_tagged(out, 255, 4294967296 - n, 4);
    }
    if n <= 2147483647 {
        return put_tagged(out, 255, n, 4);
    }
    put_tagged(out, 255, 2147483647, 4)
}

// How many bytes a number takes.
pub fn number_len(v: Operand) -> usize
    ensures { result ≡ length (encoded v) }
{
    let s = count_of(v);
    let n = s.size;
    if n % 65536 != 0 {
        return 5;
    }
    if 2147483648 <= n {
        return 5;
    }
    let i = n / 65536;
    if i <= 107 {
        return 1;
    }
    if i <= 1131 {
        return 2;
    }
    3
}

// The bytes of a number.
pub fn put_number(v: Operand, out: &mut Out<'_>)
    requires { out.old.at + length (encoded v) ≤ length out.old.bytes.now }
    ensures { Writes out.old (encoded v) out.new }
{
    let s = count_of(v);
    let neg = s.neg;
    let n = s.size;
    if n % 65536 != 0 {
        return encode_fixed(neg, n, out);
    }
    if n < 2147483648 {
        return encode_number(neg, n / 65536, out);
    }
    encode_fixed(neg, n, out)
}
