// Cases of a DICT, and of a number written into one.
ghost use Rattle.std.specs.Prelude.{◌+◌, ◌*◌, ◌≤◌, ◌≡◌, [], ◌++◌, length};
ghost use Rattle.dict.specs.Dict.{dict_of};
ghost use Rattle.dict.specs.Places.{operands_at};
ghost use Rattle.format_cases.specs.Dicts.{decimal_bytes, operands_bytes, entry_bytes, behind, dict_answer, made, decimal_at, is_decimal, decimal_told, number_answer};

use cases::answer::Answer;
use decimal::{Decimal, number_at};
use dict::entries::Entries;
use octets::out::Out;

// A decimal: its sign, its digits, and its powers of ten.
fn put_decimal(d: Decimal, to: &mut Answer)
    requires { length to.old + 11 ≤ 4096 }
    ensures { (to.new ≡ to.old ++ decimal_bytes d) × (length to.new ≡ length to.old + 11) }
{
    to.byte(u8::from(d.neg));
    to.num(d.digits, 8);
    to.num(d.up, 1);
    to.num(d.down, 1);
}

// The operands that stand from a position on, as dict_write writes them in their shortest form. Its walk is private and
// its sinks take DICT bytes, where an answer here takes sign, digits and powers: to share the walk, its trait would have to be a public promise.
fn put_operands(d: &[u8], start: usize, count: usize, to: &mut Answer)
    requires { length to.old + 11 * count ≤ 4096 }
    ensures { to.new ≡ to.old ++ operands_bytes (operands_at count d.now start) }
{
    let mut at = start;
    for _ in 0..count {
        if d.len() <= at {
            return;
        }
        match number_at(d, at) {
            Ok(Some(number)) => {
                put_decimal(number.value, to);
                at = number.next;
            }
            Ok(None) => return,
            Err(_) => return,
        }
    }
}

// An entry whose operands stand from a position on.
fn put_entry(d: &[u8], start: usize, count: usize, op: usize, to: &mut Answer)
    requires { length to.old + (3 + 11 * count) ≤ 4096 }
    ensures { to.new ≡ to.old ++ entry_bytes op count (operands_at count d.now start) }
{
    to.num(op, 2);
    to.num(count, 1);
    put_operands(d, start, count, to);
}

// The entries of a DICT, after 0; or its refusal's number.
fn of_dict(d: &[u8]) -> Answer
    requires { length d.now ≤ 100 }
    ensures { result ≡ behind [] (dict_of d.now) }
{
    let mut answer = Answer::one(0);
    for entry in Entries::new(d) {
        match entry {
            Ok(entry) => put_entry(d, entry.start, entry.count, entry.op, &mut answer),
            Err(refusal) => return Answer::one(refusal.number()),
        }
    }
    answer
}

// Kind d: the entries of a DICT.
pub fn answer_dict(input: &[u8]) -> Option<Answer>
    ensures { result ≡ dict_answer input.now }
{
    if 100 < input.len() {
        return None;
    }
    Some(of_dict(input))
}

// Whether no digit, a sign and two powers are zero as it is written in a case.
fn is_zero(neg: bool, up: usize, down: usize) -> bool
    ensures { result ≡ is_decimal (made neg 0 up down) }
{
    if neg {
        return false;
    }
    if up == 0 {
        return down == 0;
    }
    false
}

// Whether these are a decimal as it is written in a case: no zero at the end of its digits, and within the limits of refusal 5.
fn is_decimal(neg: bool, digits: usize, up: usize, down: usize) -> bool
    ensures { result ≡ is_decimal (made neg digits up down) }
{
    if digits == 0 {
        return is_zero(neg, up, down);
    }
    if digits % 10 == 0 {
        return false;
    }
    if 1000000000000000 <= digits {
        return false;
    }
    if 30 < up {
        return false;
    }
    if 30 < down {
        return false;
    }
    if down == 0 {
        return true;
    }
    up == 0
}

// The decimal that 11 bytes hold, if it is as it is written in a case.
fn decimal_at(s: &[u8]) -> Option<Decimal>
    requires { length s.now ≡ 11 }
    ensures { result ≡ decimal_told (decimal_at s.now) }
{
    let neg = s[0] == 1;
    let digits = octets::u32_at(s, 1) * 4294967296 + octets::u32_at(s, 5);
    let up = usize::from(s[9]);
    let down = usize::from(s[10]);
    if is_decimal(neg, digits, up, down) {
        return Some(Decimal {
            neg,
            digits,
            up,
            down,
        });
    }
    None
}

// Kind w: a decimal, written as a number of a DICT.
pub fn answer_number(input: &[u8]) -> Option<Answer>
    ensures { result ≡ number_answer input.now }
{
    if input.len() != 11 {
        return None;
    }
    if 1 < input[0] {
        return None;
    }
    match decimal_at(input) {
        None => None,
        Some(d) => {
            let mut text = [0u8; 101];
            let mut out = Out {
                bytes: &mut text,
                at: 0,
            };
            decimal_write::put_number(d, &mut out);
            let k = out.at;
            Some(Answer::of(&out.bytes[..k]))
        }
    }
}
