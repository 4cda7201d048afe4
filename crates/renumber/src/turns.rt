// What a token brings to the number before it: a call takes it and its new operand stands there, any other token leaves it. The new operand
// is found by the rank of the subroutine, the ones below its bit in the work words.
ghost use Rattle.std.specs.Prelude.{◌≡◌, ◌<◌, eqb};
ghost use Rattle.octets.specs.Pick.{pick};
ghost use Rattle.bits.specs.Bits.{count_below, bit_in};
ghost use Rattle.charstring.specs.Answers.{Measurable};
ghost use Rattle.charstring.specs.Bias.{bias_of, numbered};
ghost use Rattle.prune.specs.Renumber.{operand_of, is_call};
ghost use Rattle.prune.specs.RenumberSteps.{new_of};
ghost use Rattle.renumber.specs.Ranks.{numbers_in, calls_by, Ranked};
ghost use Rattle.renumber.specs.Turn.{call_turn, turn_of, after, held_after};

use crate::Ranks;
use crate::ranking::Ranking;
use charstring::operand::number_named;
use charstring::{Token, bias};
use type2_number::{Operand, whole};

// How many are reached below a number: from the sum below its eighth of the words on, and without a count of words where all of the eighth are.
fn rank_below(of: &Ranking<'_>, i: usize) -> usize
    requires { i < of.now.q.count }
    ensures { result ≡ count_below (bit_in of.now.words.now of.now.q.at) i }
{
    let q = of.q;
    let e = bits::sums::eighth(bits::words_for(q.count));
    let j = i / 32 / e;
    let from = j * e;
    let sum = bits::sums::sum_in(q.low, q.high, j);
    if j < 7 {
        let next = bits::sums::sum_in(q.low, q.high, j + 1);
        if next == sum + 32 * e {
            return sum + (i - 32 * from);
        }
    }
    bits::rank(of.words, q.at, i, from, sum)
}

// The rank of a subroutine by its old number: none where there is no such subroutine, or it is not reached. Where all are reached, each keeps its
// number.
fn rank_in(of: &Ranking<'_>, i: usize) -> Option<usize>
    ensures { result ≡ numbers_in of.now.words.now of.now.q i }
{
    let q = of.q;
    if q.count <= i {
        return None;
    }
    if q.reached == q.count {
        return Some(i);
    }
    if bits::has_bit(of.words, q.at, i) {
        return Some(rank_below(of, i));
    }
    None
}

// The rank of the subroutine that an operand calls, if it calls one that is reached.
fn rank_at(of: &Ranking<'_>, v: Operand) -> Option<usize>
    ensures { result ≡ new_of (numbers_in of.now.words.now of.now.q) (numbered (bias_of of.now.q.count) v) }
{
    rank_in(of, number_named(of.q.count, v)?)
}

// That the renumbering fails: no number stands before a call, or it calls no subroutine that is reached.
#[derive(Clone, Copy, PartialEq, Eq)]
pub struct Stuck;

// The new operand of a call, by its old one, if it calls a subroutine that is reached.
fn new_operand(of: &Ranking<'_>, v: Operand) -> Option<Operand>
    ensures { result ≡ operand_of (numbers_in of.now.words.now of.now.q) (bias_of of.now.q.count) (bias_of of.now.q.reached) v }
{
    let rank = rank_at(of, v)?;
    Some(whole(rank, bias(of.q.reached)))
}

// A call: it takes the number just before it, and its new operand stands there.
fn call(of: &Ranking<'_>, h: Option<Operand>) -> Result<Option<Operand>, Stuck>
    ensures { result ≡ call_turn (operand_of (numbers_in of.now.words.now of.now.q) (bias_of of.now.q.count) (bias_of of.now.q.reached)) h }
{
    let old = h.ok_or(Stuck)?;
    let new = new_operand(of, old).ok_or(Stuck)?;
    Ok(Some(new))
}

// Whether an operator is a call.
fn is_call(b: u8) -> bool
    ensures { result ≡ is_call b }
{
    b == 10 || b == 29
}

// The subroutines of which a call calls one. (Calls of both kinds are taken in one place, which the compiler then puts into `turn_at`.)
fn called(b: u8, locals: Ranks, globals: Ranks) -> Ranks
    ensures { result ≡ pick (eqb b 10) locals globals }
{
    if b == 10 {
        return locals;
    }
    globals
}

// The number that is written just before a token: a call changes the one that stood there, any other token leaves it.
pub fn turn_of(
    words: &[u32],
    locals: Ranks,
    globals: Ranks,
    h: Option<Operand>,
    t: Token,
) -> Result<Option<Operand>, Stuck>
    requires { (Ranked words.now locals) × (Ranked words.now globals) }
    ensures { result ≡ turn_of (calls_by words.now locals globals) h t }
{
    match t {
        Token::Op(b) => {
            if is_call(b) {
                let q = called(b, locals, globals);
                let of = Ranking { words, q };
                return call(&of, h);
            }
            Ok(h)
        }
        Token::Num(_) => Ok(h),
        Token::Esc(_) => Ok(h),
        Token::Mask { start: _, len: _ } => Ok(h),
    }
}

// The number that is held after a token.
pub fn after(t: Token) -> Option<f32>
    ensures { result ≡ after t }
{
    match t {
        Token::Num(v) => Some(v),
        Token::Op(_) => None,
        Token::Esc(_) => None,
        Token::Mask { start: _, len: _ } => None,
    }
}

// The same where it is a number of a body, as an operand.
pub fn held_after(t: Token) -> Option<Operand>
    requires { Measurable t }
    ensures { result ≡ held_after t }
{
    match after(t) {
        None => None,
        Some(v) => Some(Operand::of(v)),
    }
}
