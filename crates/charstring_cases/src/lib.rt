// What the proved functions answer to the input of a stored case of charstring.rs. An input that is not of its kind's form is Outside, never skipped.
#![tactic(auto)]

ghost use Rattle.std.specs.Prelude.{◌≡◌, ◌+◌, ◌*◌, ◌/◌, ◌≤◌, ◌++◌, length};
ghost use Rattle.octets.specs.Octets.{Wrote};
ghost use Rattle.charstring.specs.Token.{lookup, tokens_of};
ghost use Rattle.charstring.specs.Answers.{Measurable};
ghost use Rattle.charstring_cases.specs.Numbers.{count_bytes, number_answer, integer_answer, fixed_answer, bias_answer};
ghost use Rattle.charstring_cases.specs.Streams.{token_bytes, tokens_bytes, recoded_bytes, pairs_at, stream_bytes, stream_answer};
ghost use Rattle.charstring_cases.specs.Answers.{answer_to};

use cases::answer::Answer;
use charstring::{RecodeError, Token};
use octets::out::Out;
use type2_number::{Number, Operand};

// A number of a case: its sign and its size, the count of 65536ths.
fn put_count(v: Operand, to: &mut Answer)
    requires { length to.old + 5 ≤ 4096 }
    ensures { (to.new ≡ to.old ++ count_bytes v) × (length to.new ≡ length to.old + 5) }
{
    let s = type2_number::count_of(v);
    to.byte(u8::from(s.neg));
    to.num(s.size, 4);
}

// Kind n: the number at the first byte.
fn answer_number(input: &[u8]) -> Option<Answer>
    ensures { result ≡ number_answer input.now }
{
    if input.len() == 0 {
        return None;
    }
    match type2_number::read_number(input, 0) {
        Number::Cut => Some(Answer::one(0)),
        Number::Operator => Some(Answer::one(1)),
        Number::Num { value, next } => {
            let mut answer = Answer::one(2);
            put_count(value, &mut answer);
            answer.num(next, 1);
            Some(answer)
        }
    }
}

// Kind i: an integer written. Kind f is apart: its width, its limit and its encoder are others, each with its own laws.
fn answer_integer(input: &[u8]) -> Option<Answer>
    ensures { result ≡ integer_answer input.now }
{
    if input.len() != 3 {
        return None;
    }
    let sign = input[0];
    if 1 < sign {
        return None;
    }
    let size = octets::u16_at(input, 1);
    if size < 32768 {
        let mut text = [0u8; 3];
        let mut to = Out {
            bytes: &mut text,
            at: 0,
        };
        type2_number::encode_number(sign == 1, size, &mut to);
        let k = to.at;
        return Some(Answer::of(&text[..k]));
    }
    None
}

// Kind f: a 16.16 written.
fn answer_fixed(input: &[u8]) -> Option<Answer>
    ensures { result ≡ fixed_answer input.now }
{
    if input.len() != 5 {
        return None;
    }
    let sign = input[0];
    if 1 < sign {
        return None;
    }
    let size = octets::u32_at(input, 1);
    if size <= 2147483648 {
        let mut text = [0u8; 5];
        let mut to = Out {
            bytes: &mut text,
            at: 0,
        };
        type2_number::encode_fixed(sign == 1, size, &mut to);
        let k = to.at;
        return Some(Answer::of(&text[..k]));
    }
    None
}

// Kind b: the bias of a count of subroutines.
fn answer_bias(input: &[u8]) -> Option<Answer>
    ensures { result ≡ bias_answer input.now }
{
    if input.len() != 4 {
        return None;
    }
    let mut answer = Answer::new();
    answer.num(charstring::bias(octets::u32_at(input, 0)), 4);
    Some(answer)
}

// A token of a case.
fn put_token(t: Token, to: &mut Answer)
    requires { (Measurable t) × (length to.old + 6 ≤ 4096) }
    ensures { to.new ≡ to.old ++ token_bytes t }
{
    match t {
        Token::Num(v) => {
            to.byte(1);
            put_count(Operand::of(v), to);
        }
        Token::Op(b) => {
            to.byte(2);
            to.byte(b);
        }
        Token::Esc(b) => {
            to.byte(3);
            to.byte(b);
        }
        Token::Mask { start, len } => {
            to.byte(4);
            to.num(start, 2);
            to.num(len, 2);
        }
    }
}

// Kind t: the tokens of a body, after 1; or 0 where one is cut off.
fn of_tokens(code: &[u8], pairs: &[u32]) -> Answer
    requires { length code.now ≤ 60 }
    ensures { result ≡ tokens_bytes (lookup pairs.now) code.now }
{
    let mut answer = Answer::one(1);
    let mut c = charstring::start();
    while charstring::more(code, c) {
        let given = charstring::given_at(pairs, c);
        match charstring::next_token(code, c, given) {
            Some((token, next)) => {
                put_token(token, &mut answer);
                c = next;
            }
            None => return Answer::one(0),
        }
    }
    answer
}

// Kind e: the tokens of a body written back, after 1; or 0 where one is cut off.
fn of_recoded(code: &[u8], pairs: &[u32]) -> Answer
    requires { length code.now ≤ 60 }
    ensures { result ≡ recoded_bytes (tokens_of (lookup pairs.now) code.now) }
{
    let mut body = [0u8; 300];
    let mut to = Out {
        bytes: &mut body,
        at: 0,
    };
    match charstring::recode(code, pairs, &mut to) {
        Ok(()) => {
            let k = to.at;
            let mut answer = Answer::one(1);
            answer.copy(&body[..k]);
            answer
        }
        Err(RecodeError::Cut) => Answer::one(0),
        Err(RecodeError::Full) => Answer::one(0),
    }
}

// Kind t or kind e. (Which of the two is a test of the letter; a closure in its place would want a clause of what it answers.)
fn of_stream(tokens: bool, code: &[u8], pairs: &[u32]) -> Answer
    requires { length code.now ≤ 60 }
    ensures { result ≡ stream_bytes tokens (lookup pairs.now) code.now }
{
    if tokens {
        return of_tokens(code, pairs);
    }
    of_recoded(code, pairs)
}

// Writes the big-endian numbers of two bytes each to the start of pairs; returns how many they are.
// sheet's put_pairs writes other numbers, u16, by another definition: one for both would be generic, and is no plainer.
fn put_pairs(bytes: &[u8], pairs: &mut [u32]) -> usize
    requires { length bytes.now ≤ 2 * length pairs.old }
    ensures { Wrote pairs.old 0 (pairs_at bytes.now 0 (length bytes.now / 2)) pairs.new result }
{
    let n = bytes.len() / 2;
    for i in 0..n {
        pairs[i] = octets::u16_at(bytes, 2 * i) as u32;
    }
    n
}

// Kinds t and e: a count of pairs, the pairs, and a body.
fn answer_stream(tokens: bool, input: &[u8]) -> Option<Answer>
    ensures { result ≡ stream_answer tokens input.now }
{
    let n = input.len();
    if n == 0 {
        return None;
    }
    let count = usize::from(input[0]);
    if 16 < count {
        return None;
    }
    let at = 1 + 4 * count;
    if n < at {
        return None;
    }
    if 60 < n - at {
        return None;
    }
    let mut pairs = [0u32; 32];
    let k = put_pairs(&input[1..at], &mut pairs);
    Some(of_stream(tokens, &input[at..], &pairs[..k]))
}

// The answer to an input, by its kind's letter; None outside the kind's domain. The kind stays the letter that the line has, which may be any.
pub fn answer(kind: u8, input: &[u8]) -> Option<Answer>
    ensures { result ≡ answer_to kind input.now }
{
    match kind {
        b'n' => answer_number(input),
        b'i' => answer_integer(input),
        b'f' => answer_fixed(input),
        b't' => answer_stream(true, input),
        b'e' => answer_stream(false, input),
        b'b' => answer_bias(input),
        _ => None,
    }
}
