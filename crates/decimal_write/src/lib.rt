// A number written into a DICT: the Rust's `dict_int`, `dict_int5`, `dict_real` and `dict_number`, measured first.
#![tactic(auto)]

ghost use Rattle.std.specs.Prelude.{◌≡◌, [], ◌∷◌, ◌+◌, ◌-◌, ◌/◌, ◌%◌, ◌^◌, ◌≤◌, ◌<◌, length, get_or};
ghost use Rattle.octets.specs.Octets.{bytes_of};
ghost use Rattle.octets.specs.Out.{Writes};
ghost use Rattle.decimal.specs.Values.{trunc_of};
ghost use Rattle.decimal.specs.Written.{int_bytes, int5_bytes, width_of, bare_text, real_text, packed, real_bytes, number_bytes};

use decimal::Decimal;
use octets::out::Out;

// The least whole size that is written as a real: `dict_number` compares with i32::MAX.
const LEAST_REAL: usize = 2147483647;

// The text of a decimal as a real, by how many of its digits stand before the point.
#[derive(Clone, Copy)]
struct Text {
    value: Decimal,
    whole: usize,
    ghost counted: { (whole ≡ width_of (trunc_of value)) × (whole ≤ 50) },
}

// Stores a byte and then the low n bytes of a number.
fn put_tagged(out: &mut Out<'_>, tag: u8, value: usize, n: usize)
    requires { out.old.at + (1 + n) ≤ length out.old.bytes.now }
    ensures { Writes out.old (tag ∷ bytes_of n value) out.new }
{
    out.byte(tag);
    out.num(value, n);
}

// The integer size, or -size where neg, in the five-byte form.
pub fn put_int5(neg: bool, size: usize, out: &mut Out<'_>)
    requires { (size ≤ 2147483648) × (out.old.at + 5 ≤ length out.old.bytes.now) }
    ensures { Writes out.old (int5_bytes neg size) out.new }
{
    if neg {
        return put_tagged(out, 29, 4294967296 - size, 4);
    }
    put_tagged(out, 29, size, 4)
}

// How many bytes an integer takes in its shortest form.
pub fn int_len(neg: bool, size: usize) -> usize
    ensures { result ≡ length (int_bytes neg size) }
{
    if size <= 107 {
        return 1;
    }
    if size <= 1131 {
        return 2;
    }
    if size <= 32767 {
        return 3;
    }
    if neg {
        if size == 32768 {
            return 3;
        }
    }
    5
}

// The integer size, or -size where neg, in its shortest form.
pub fn put_int(neg: bool, size: usize, out: &mut Out<'_>)
    requires { (size ≤ 2147483648) × (out.old.at + length (int_bytes neg size) ≤ length out.old.bytes.now) }
    ensures { Writes out.old (int_bytes neg size) out.new }
{
    if size <= 107 {
        if neg {
            return out.byte((139 - size) as u8);
        }
        return out.byte((139 + size) as u8);
    }
    if size <= 1131 {
        let w = size - 108;
        if neg {
            return out.pair((w / 256 + 251) as u8, (w % 256) as u8);
        }
        return out.pair((w / 256 + 247) as u8, (w % 256) as u8);
    }
    if neg {
        if size <= 32768 {
            return put_tagged(out, 28, 65536 - size, 2);
        }
        return put_int5(neg, size, out);
    }
    if size <= 32767 {
        return put_tagged(out, 28, size, 2);
    }
    put_int5(neg, size, out)
}

// How many decimal digits n has.
fn width_of(n: usize) -> usize
    ensures { (result ≡ width_of n) × (result ≤ 20) }
{
    n.max(1).ilog10() as usize + 1
}

// How many digits stand before the point.
fn whole_width(d: Decimal) -> usize
    ensures { (result ≡ width_of (trunc_of d)) × (result ≤ 50) }
{
    let digits = d.digits;
    let up = d.up;
    let down = d.down;
    if down == 0 {
        return width_of(digits) + up;
    }
    width_of(decimal::scaled_down(digits, down))
}

// The digit of the integer part that stands for 10 ^ k.
fn whole_digit(d: Decimal, k: usize) -> usize
    requires { k < 100 }
    ensures { (result ≡ trunc_of d / 10 ^ k % 10) × (result < 10) }
{
    let digits = d.digits;
    let up = d.up;
    let down = d.down;
    if down == 0 {
        if k < up {
            return 0;
        }
        return decimal::scaled_down(digits, k - up) % 10;
    }
    decimal::scaled_down(digits, down + k) % 10
}

// The text of a decimal, its digits before the point counted.
fn text_of(value: Decimal) -> Text
    ensures { result.value ≡ value }
{
    Text {
        value,
        whole: whole_width(value),
    }
}

// The nibble i of a real without its sign; 15 past its last.
fn bare_nibble(t: &Text, i: usize) -> usize
    ensures { (result ≡ get_or (bare_text t.now.value) i 15) × (result < 16) }
{
    let d = t.value;
    let digits = d.digits;
    let down = d.down;
    let w = t.whole;
    if i < w {
        return whole_digit(d, w - 1 - i);
    }
    if down == 0 {
        return 15;
    }
    if i == w {
        return 10;
    }
    let j = i - w;
    if j <= down {
        return decimal::scaled_down(digits, down - j) % 10;
    }
    15
}

// The nibble i of a real; 15 past its last.
fn nibble(t: &Text, i: usize) -> usize
    ensures { (result ≡ get_or (real_text t.now.value) i 15) × (result < 16) }
{
    let d = t.value;
    let neg = d.neg;
    if neg {
        if i == 0 {
            return 14;
        }
        return bare_nibble(t, i - 1);
    }
    bare_nibble(t, i)
}

// How many nibbles a real takes.
fn text_len(t: &Text) -> usize
    ensures { (result ≡ length (real_text t.now.value)) × (result ≤ 200) }
{
    let d = t.value;
    let neg = d.neg;
    let down = d.down;
    let w = t.whole;
    if down == 0 {
        if neg {
            return w + 1;
        }
        return w;
    }
    if neg {
        return w + down + 2;
    }
    w + down + 1
}

// How many bytes a real takes.
pub fn real_len(d: Decimal) -> usize
    ensures { result ≡ length (real_bytes d) }
{
    text_len(&text_of(d)) / 2 + 2
}

// The bytes of a real after its first, n of them.
fn put_packed(d: Decimal, n: usize, out: &mut Out<'_>)
    requires { (n ≡ length (packed (real_text d))) × (out.old.at + n ≤ length out.old.bytes.now) }
    ensures { Writes out.old (packed (real_text d)) out.new }
{
    let t = text_of(d);
    let at = out.at;
    for (i, b) in out.bytes[at..at + n].iter_mut().enumerate() {
        *b = (nibble(&t, 2 * i) * 16 + nibble(&t, 2 * i + 1)) as u8;
    }
    out.at = at + n;
}

// A number as a real, without exponent.
pub fn put_real(d: Decimal, out: &mut Out<'_>)
    requires { out.old.at + length (real_bytes d) ≤ length out.old.bytes.now }
    ensures { Writes out.old (real_bytes d) out.new }
{
    let n = real_len(d);
    out.byte(30);
    put_packed(d, n - 1, out);
}

// How many bytes a number takes.
pub fn number_len(d: Decimal) -> usize
    ensures { result ≡ length (number_bytes d) }
{
    let neg = d.neg;
    let down = d.down;
    let size = decimal::trunc(d);
    if down == 0 {
        if size < LEAST_REAL {
            return int_len(neg, size);
        }
        return real_len(d);
    }
    real_len(d)
}

// A number: an integer where it is whole and below 2147483647 in size, else a real.
pub fn put_number(d: Decimal, out: &mut Out<'_>)
    requires { out.old.at + length (number_bytes d) ≤ length out.old.bytes.now }
    ensures { Writes out.old (number_bytes d) out.new }
{
    let neg = d.neg;
    let down = d.down;
    let size = decimal::trunc(d);
    if down == 0 {
        if size < LEAST_REAL {
            return put_int(neg, size, out);
        }
        return put_real(d, out);
    }
    put_real(d, out)
}
