// Type 2 charstrings without the machine: the subroutine bias, the tokens of a body, and tokens written back (charstring.rs).
// A body is read one token at a time, in place; a cursor by value holds what the Rust's loop holds.
#![tactic(auto)]

pub mod operand;
pub mod place;

ghost use Rattle.std.specs.Prelude.{◌≡◌, false, true, ◌+◌, ◌≤◌, ◌<◌, length, get_or};
ghost use Rattle.octets.specs.Out.{Writes};
ghost use Rattle.charstring.specs.Bias.{bias_of};
ghost use Rattle.charstring.specs.Token.{is_mask, is_stem, stems_after, mask_len, mask_at, operator_at, more, token_at, tokens_of, lookup, start};
ghost use Rattle.charstring.specs.Encode.{is_whole, body_bytes};
ghost use Rattle.charstring.specs.Answers.{step_of, token_bytes, token_len_lem, Measurable, Writable, Within, given_at, measured_of, RecodesAt};

use octets::out::Out;
use type2_number::{Number, Operand, number_len, put_number, read_number};

// The number added to a call's operand, by the count of subroutines.
pub fn bias(count: usize) -> usize
    ensures { result ≡ bias_of count }
{
    if count < 1240 {
        return 107;
    }
    if count < 33900 {
        return 1131;
    }
    32768
}

// One unit of a charstring: a number, a one-byte operator, a two-byte operator, or the place of a hint mask's bytes.
#[derive(Clone, Copy)]
pub enum Token {
    Num(f32),
    Op(u8),
    Esc(u8),
    Mask { start: usize, len: usize },
}

// A mask's length: as the reach record gives it for its place, or the body's own count.
// (It stays an enum: an Option is no plainer, since None would not say whose length is meant.)
#[derive(Clone, Copy)]
pub enum MaskLen {
    Own,
    Given(usize),
}

// Where reading a body stands: the next byte, the numbers since the last operator, the stems so far, and whether a mask is due,
// its operator being the token just read.
#[derive(Clone, Copy)]
pub struct Cursor {
    pub at: usize,
    pub args: usize,
    pub stems: usize,
    pub due: bool,
}

// Whether an operator is followed by a mask: hintmask, cntrmask.
pub fn is_mask(op: u8) -> bool
    ensures { result ≡ is_mask op }
{
    op == 19 || op == 20
}

// Whether the numbers before an operator are stems: hstem, vstem, hstemhm, vstemhm, and the masks.
fn is_stem(op: u8) -> bool
    ensures { result ≡ is_stem op }
{
    matches!(op, 1 | 3 | 18 | 23) || is_mask(op)
}

// The stems after an operator.
pub fn stems_after(op: u8, args: usize, stems: usize) -> usize
    requires { stems + args < 18446744073709551616 }
    ensures { result ≡ stems_after op args stems }
{
    if is_stem(op) {
        return stems + args / 2;
    }
    stems
}

// A mask's length in bytes: as given, or one bit for each stem, rounded up.
fn mask_len(given: MaskLen, stems: usize) -> usize
    ensures { result ≡ mask_len given stems }
{
    match given {
        MaskLen::Given(n) => n,
        MaskLen::Own => {
            if stems % 8 == 0 {
                stems / 8
            } else {
                stems / 8 + 1
            }
        }
    }
}

// Where reading a body begins.
pub fn start() -> Cursor
    ensures { result ≡ start }
{
    Cursor {
        at: 0,
        args: 0,
        stems: 0,
        due: false,
    }
}

// Whether a token is left.
pub fn more(code: &[u8], c: Cursor) -> bool
    ensures { result ≡ more code.now c }
{
    let due = c.due;
    let at = c.at;
    if due {
        return true;
    }
    at < code.len()
}

// The mask of n bytes that is due.
fn mask_at(code: &[u8], c: Cursor, n: usize) -> Option<(Token, Cursor)>
    requires { Within code.now c }
    ensures { result ≡ step_of (mask_at code.now c n) }
{
    let at = c.at;
    let stems = c.stems;
    if code.len() - at < n {
        return None;
    }
    Some((
        Token::Mask { start: at, len: n },
        Cursor {
            at: at + n,
            args: 0,
            stems,
            due: false,
        },
    ))
}

// The operator or escape at a cursor.
fn operator_at(code: &[u8], c: Cursor) -> Option<(Token, Cursor)>
    requires { (Within code.now c) × (c.at < length code.now) }
    ensures { result ≡ step_of (operator_at code.now c (get_or code.now c.at 0)) }
{
    let at = c.at;
    let stems = c.stems;
    let op = code[at];
    if op == 12 {
        if code.len() - at < 2 {
            return None;
        }
        return Some((
            Token::Esc(code[at + 1]),
            Cursor {
                at: at + 2,
                args: 0,
                stems,
                due: false,
            },
        ));
    }
    Some((
        Token::Op(op),
        Cursor {
            at: at + 1,
            args: 0,
            stems: stems_after(op, c.args, stems),
            due: is_mask(op),
        },
    ))
}

// The token at a cursor and where reading stands after it, or None where the end cuts the token off; `given` is the length for the mask whose
// operator stands just before it.
pub fn next_token(code: &[u8], c: Cursor, given: MaskLen) -> Option<(Token, Cursor)>
    requires { (Within code.now c) × (more code.now c ≡ true) }
    ensures { result ≡ step_of (token_at code.now given c) }
{
    let due = c.due;
    let at = c.at;
    let stems = c.stems;
    if due {
        return mask_at(code, c, mask_len(given, stems));
    }
    match read_number(code, at) {
        Number::Num { value, next } => Some((
            Token::Num(value.float()),
            Cursor {
                at: next,
                args: c.args + 1,
                stems,
                due: false,
            },
        )),
        Number::Cut => None,
        Number::Operator => operator_at(code, c),
    }
}

// How many bytes a token takes.
pub fn token_len(t: Token) -> usize
    requires { Measurable t }
    ensures { result ≡ token_len_lem t }
{
    match t {
        Token::Num(v) => number_len(Operand::of(v)),
        Token::Op(_) => 1,
        Token::Esc(_) => 2,
        Token::Mask { start: _, len } => len,
    }
}

// The bytes of a token of a body.
pub fn put_token(code: &[u8], t: Token, out: &mut Out<'_>)
    requires { (Writable code.now t) × (out.old.at + length (token_bytes code.now t) ≤ length out.old.bytes.now) }
    ensures { Writes out.old (token_bytes code.now t) out.new }
{
    match t {
        Token::Num(v) => put_number(Operand::of(v), out),
        Token::Op(b) => out.byte(b),
        Token::Esc(b) => out.pair(12, b),
        Token::Mask { start, len } => {
            let end = start + len;
            out.copy(&code[start..end]);
        }
    }
}

// The length that a list of pairs, offset and length, gives for the mask operator at an offset: the first pair counts.
pub fn lookup(pairs: &[u32], at: usize) -> MaskLen
    ensures { result ≡ lookup pairs.now at }
{
    for pair in pairs.chunks_exact(2) {
        if pair[0] as usize == at {
            return MaskLen::Given(pair[1] as usize);
        }
    }
    MaskLen::Own
}

// The length to pass on for the token at a cursor.
pub fn given_at(pairs: &[u32], c: Cursor) -> MaskLen
    requires { c.due ≡ true → 0 < c.at }
    ensures { result ≡ given_at (lookup pairs.now) c }
{
    let due = c.due;
    let at = c.at;
    if due {
        return lookup(pairs, at - 1);
    }
    MaskLen::Own
}

// How long a body is once it is written back, or None where the end cuts a token off.
// (This and put_body stay two walks: over one sink, as in crate dict_write, writing too would have to answer for a token that is cut off, which it asks not to meet.)
pub fn measure(code: &[u8], pairs: &[u32]) -> Option<usize>
    requires { length code.now ≤ 67108864 }
    ensures { result ≡ measured_of (tokens_of (lookup pairs.now) code.now) }
{
    let mut c = start();
    let mut len: usize = 0;
    while more(code, c) {
        let given = given_at(pairs, c);
        match next_token(code, c, given) {
            Some((token, next)) => {
                len += token_len(token);
                c = next;
            }
            None => {
                return None;
            }
        }
    }
    Some(len)
}

// The tokens of a body that can be read to its end, written at the output's place.
fn put_body(code: &[u8], pairs: &[u32], out: &mut Out<'_>)
    requires { (is_whole (tokens_of (lookup pairs.now) code.now) ≡ true)
        × (out.old.at + length (body_bytes (tokens_of (lookup pairs.now) code.now)) ≤ length out.old.bytes.now) }
    ensures { Writes out.old (body_bytes (tokens_of (lookup pairs.now) code.now)) out.new }
{
    let mut c = start();
    while more(code, c) {
        let given = given_at(pairs, c);
        match next_token(code, c, given) {
            Some((token, next)) => {
                put_token(code, token, &mut *out);
                c = next;
            }
            None => {
                return;
            }
        }
    }
}

// Why a body is not written back: the end cuts off a token, or there is no room.
#[derive(Clone, Copy, PartialEq, Eq)]
pub enum RecodeError {
    Cut,
    Full,
}

// A whole body through its tokens and back, measured first, then written. Where that fails the output is as it was.
pub fn recode(code: &[u8], pairs: &[u32], out: &mut Out<'_>) -> Result<(), RecodeError>
    requires { length code.now ≤ 67108864 }
    ensures { RecodesAt out.old (tokens_of (lookup pairs.now) code.now) out.new result }
{
    match measure(code, pairs) {
        None => Err(RecodeError::Cut),
        Some(n) => {
            if out.bytes.len() < out.at {
                return Err(RecodeError::Full);
            }
            if out.bytes.len() - out.at < n {
                return Err(RecodeError::Full);
            }
            put_body(code, pairs, out);
            Ok(())
        }
    }
}
