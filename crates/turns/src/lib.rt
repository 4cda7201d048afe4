// What a token of a body brings when a glyph is run (document 01, 'Plain glyphs'; crate unfold), without the tokens that it leaves: the run
// breaks or ends, goes on in the same body, meets a mask or calls a subroutine. The number just before a token is kept as the place where it
// starts, and read only at a call.
#![tactic(auto)]

ghost use Rattle.std.specs.Prelude.{◌≡◌, ◌≤◌, ◌<◌, length, get_or};
ghost use Rattle.unfold.specs.Unfold.{target_of, is_stem, is_path};
ghost use Rattle.charstring.specs.Bias.{last_at};
ghost use Rattle.turns.specs.Turns.{goes_on, call_turn, mask_turn, escape_turn, clearing_turn_lem, operator_turn_lem, turn_at_lem};

use charstring::is_mask;
use charstring::operand::{number_before, number_named};
use charstring::place::Place;
use type2_number::{Number, read_number};

// What has run so far: operands waiting, stems, tokens and calls spent. A glyph's run keeps to 48 operands and 96 stems; the counts may be any. (Counts
// of one byte were tried, and a body's run takes a tenth more instructions.)
#[derive(Clone, Copy)]
pub struct Counts {
    pub args: u32,
    pub stems: u32,
    pub spent: usize,
}

// The kind of a subroutine: one of the glyph's FD, or one of the font's.
#[derive(Clone, Copy)]
pub enum Kind {
    Local,
    Global,
}

// What a token brings, with the counts after it: what is not plain; a return; endchar; the next place, and where the number just before that
// starts, or the place again where there is none; a mask of so many bytes; a call of a subroutine, by its kind and number.
// (What is not plain stays a case: `Result<Turn, NotPlain>` was tried, and a body's run takes a sixth more instructions, with `?` in its loop more still.)
// (`last` is no Option: it is where the number's bytes begin, so that they are none where there is no number, and None would say the same twice.)
#[derive(Clone, Copy)]
pub enum Turn {
    Breaks,
    Returns(Counts),
    Ends,
    Goes {
        next: usize,
        last: usize,
        after: Counts,
    },
    Masks {
        len: usize,
        after: Counts,
    },
    Calls {
        kind: Kind,
        number: usize,
        after: Counts,
    },
}

// The subroutine of `count` that the number just before a place names.
fn target_at(code: &[u8], prev: usize, at: usize, count: usize) -> Option<usize>
    requires { at ≤ length code.now }
    ensures { result ≡ target_of count (last_at code.now prev at) }
{
    let number = number_named(count, number_before(code, prev, at)?)?;
    (number < count).then_some(number)
}

// One token more, and on in the same body.
fn goes_on(at: usize, prev: usize, args: u32, stems: u32, spent: usize) -> Turn
    ensures { result ≡ goes_on at prev args stems spent }
{
    if spent < 65536 {
        return Turn::Goes {
            next: at,
            last: prev,
            after: Counts {
                args,
                stems,
                spent: spent + 1,
            },
        };
    }
    Turn::Breaks
}

// A call of one of `count` subroutines of a kind; it takes its operand back.
fn call_turn(code: &[u8], prev: usize, at: usize, kind: Kind, count: usize, x: Counts) -> Turn
    requires { at ≤ length code.now }
    ensures { result ≡ call_turn kind x (target_of count (last_at code.now prev at)) }
{
    let Some(number) = target_at(code, prev, at, count) else {
        return Turn::Breaks;
    };
    Turn::Calls {
        kind,
        number,
        after: Counts {
            args: x.args.saturating_sub(1),
            stems: x.stems,
            spent: x.spent,
        },
    }
}

// An escape: 34 to 37.
fn escape_turn(p: &Place<'_>, x: Counts) -> Turn
    ensures { result ≡ escape_turn p.now.code.now p.now.at x }
{
    let at = p.at;
    if p.code.len() - at < 2 {
        return Turn::Breaks;
    }
    let e = p.code[at + 1];
    if e < 34 {
        return Turn::Breaks;
    }
    if 37 < e {
        return Turn::Breaks;
    }
    goes_on(at + 2, at + 2, 0, x.stems, x.spent)
}

// A mask with n stems, its own included: one bit each, rounded up to bytes, which must be there.
fn mask_turn(p: &Place<'_>, n: usize, spent: usize) -> Turn
    ensures { result ≡ mask_turn p.now.code.now p.now.at n spent }
{
    if 96 < n {
        return Turn::Breaks;
    }
    let len = (n + 7) / 8;
    if p.code.len() - (p.at + 1) < len {
        return Turn::Breaks;
    }
    if spent < 65536 {
        return Turn::Masks {
            len,
            after: Counts {
                args: 0,
                stems: n as u32,
                spent: spent + 1,
            },
        };
    }
    Turn::Breaks
}

// Whether the numbers before an operator are stems: hstem, vstem, hstemhm, vstemhm.
fn is_stem(b: u8) -> bool
    ensures { result ≡ is_stem b }
{
    matches!(b, 1 | 3 | 18 | 23)
}

// Whether an operator clears the operands and leaves itself, the masks and stems aside.
fn is_path(b: u8) -> bool
    ensures { result ≡ is_path b }
{
    matches!(b, 4..=8 | 21..=27 | 30 | 31)
}

// An operator that clears the operands, endchar aside.
fn clearing_turn(p: &Place<'_>, b: u8, x: Counts) -> Turn
    ensures { result ≡ clearing_turn_lem p.now.code.now p.now.at x b }
{
    let at = p.at;
    let stems = x.stems;
    let spent = x.spent;
    let n = stems as usize + x.args as usize / 2;
    if b == 12 {
        return escape_turn(p, x);
    }
    if is_mask(b) {
        return mask_turn(p, n, spent);
    }
    if is_stem(b) {
        if 96 < n {
            return Turn::Breaks;
        }
        return goes_on(at + 1, at + 1, 0, n as u32, spent);
    }
    if is_path(b) {
        return goes_on(at + 1, at + 1, 0, stems, spent);
    }
    Turn::Breaks
}

// The operator at a place of a body, which is a glyph's own or not, by how many local and global subroutines there are.
fn operator_turn(
    p: &Place<'_>,
    prev: usize,
    x: Counts,
    locals: usize,
    globals: usize,
    own: bool,
) -> Turn
    ensures { result ≡ operator_turn_lem locals globals own p.now.code.now p.now.at prev x (get_or p.now.code.now p.now.at 0) }
{
    let b = p.code[p.at];
    if b == 10 {
        return call_turn(p.code, prev, p.at, Kind::Local, locals, x);
    }
    if b == 29 {
        return call_turn(p.code, prev, p.at, Kind::Global, globals, x);
    }
    if b == 11 {
        if own {
            return Turn::Breaks;
        }
        return Turn::Returns(x);
    }
    if b == 14 {
        if 1 < x.args {
            return Turn::Breaks;
        }
        if x.spent < 65536 {
            return Turn::Ends;
        }
        return Turn::Breaks;
    }
    clearing_turn(p, b, x)
}

// The token at a place: a number waits, at most 48 of them; or an operator.
pub fn turn_at(
    code: &[u8],
    at: usize,
    prev: usize,
    x: Counts,
    locals: usize,
    globals: usize,
    own: bool,
) -> Turn
    requires { at < length code.now }
    ensures { result ≡ turn_at_lem locals globals own code.now at prev x }
{
    match read_number(code, at) {
        Number::Cut => Turn::Breaks,
        Number::Operator => operator_turn(&Place { code, at }, prev, x, locals, globals, own),
        Number::Num { value: _, next } => {
            if x.args < 48 {
                return goes_on(next, at, x.args + 1, x.stems, x.spent);
            }
            Turn::Breaks
        }
    }
}
