// Runs of plain tokens: most of a body is numbers and operators that are written as they were read, so they are passed over byte by byte
// and taken at once.
ghost use Rattle.std.specs.Prelude.{◌≡◌, false, ◌+◌, ◌*◌, ◌≤◌, ◌<◌, length};
ghost use Rattle.charstring.specs.Answers.{Within};
ghost use Rattle.renumber.specs.Turn.{cursor};
ghost use Rattle.renumber.specs.Run.{is_plain, is_operator, is_three_lem, is_five_lem, three_len, five_len, plain_len, RunFrom};

use charstring::place::Place;
use charstring::stems_after;

// A run of plain tokens: where reading stands after it, and where the bytes that are sent end: its last number is held back, and starts there; where it ends in
// an operator nothing is, and all are sent. (So it is a place in both cases, and no Option.)
#[derive(Clone, Copy)]
pub struct Run {
    pub at: usize,
    pub last: usize,
    pub args: usize,
    pub stems: usize,
}

// Whether a byte below 32 is an operator by itself and no call, no escape, no mask's operator and no number.
fn is_plain(b: u8) -> bool
    ensures { result ≡ is_plain b }
{
    !matches!(b, 10 | 12 | 19 | 20 | 28 | 29)
}

// Whether a byte is an operator or begins one.
fn is_operator(b: u8) -> bool
    ensures { result ≡ is_operator b }
{
    b < 32 && b != 28
}

// Whether an integer of 16 bits takes three bytes when it is written.
fn is_three(n: usize) -> bool
    ensures { result ≡ is_three_lem n }
{
    if n < 1132 {
        return false;
    }
    if n == 32768 {
        return false;
    }
    n < 64405
}

// How many bytes the number of three bytes at a place has, none where it is cut off or not written as it was read.
fn three_len(p: &Place<'_>) -> Option<usize>
    ensures { result ≡ three_len p.now.code.now p.now.at }
{
    let at = p.at;
    if p.code.len() - at < 3 {
        return None;
    }
    let n = usize::from(p.code[at + 1]) * 256 + usize::from(p.code[at + 2]);
    is_three(n).then_some(3)
}

// Whether a 16.16 with these halves is written as it was read: no integer, between -256 and 256.
fn is_five(high: usize, low: usize) -> bool
    ensures { result ≡ is_five_lem high low }
{
    if low == 0 {
        return false;
    }
    if high < 256 {
        return true;
    }
    65279 < high
}

// The same for the number of five bytes at a place.
fn five_len(p: &Place<'_>) -> Option<usize>
    ensures { result ≡ five_len p.now.code.now p.now.at }
{
    let at = p.at;
    if p.code.len() - at < 5 {
        return None;
    }
    let high = usize::from(p.code[at + 1]) * 256 + usize::from(p.code[at + 2]);
    let low = usize::from(p.code[at + 3]) * 256 + usize::from(p.code[at + 4]);
    is_five(high, low).then_some(5)
}

// How many bytes the plain token at a place has, none where there is none.
fn plain_len(p: &Place<'_>) -> Option<usize>
    ensures { result ≡ plain_len p.now.code.now p.now.at }
{
    let v = p.code[p.at];
    if v < 32 {
        if v == 28 {
            return three_len(p);
        }
        return is_plain(v).then_some(1);
    }
    if v < 247 {
        return Some(1);
    }
    if v < 255 {
        if p.code.len() - p.at < 2 {
            return None;
        }
        return Some(2);
    }
    five_len(p)
}

// The longest run of plain tokens from a place on, no mask being due.
fn plain_run(code: &[u8], from: usize, args: usize, stems: usize) -> Run
    requires { Within code.now (cursor from args stems false) }
    ensures { RunFrom code.now (cursor from args stems false) result }
{
    let mut at = from;
    let mut last = from;
    let mut args = args;
    let mut stems = stems;
    while at < code.len() {
        let Some(n) = plain_len(&Place { code, at }) else {
            break;
        };
        let v = code[at];
        if is_operator(v) {
            stems = stems_after(v, args, stems);
            args = 0;
            at += 1;
            last = at;
            continue;
        }
        last = at;
        at += n;
        args += 1;
    }
    Run {
        at,
        last,
        args,
        stems,
    }
}

// The run where reading stands: none where a mask is due.
pub fn run_at(code: &[u8], at: usize, args: usize, stems: usize, due: bool) -> Run
    requires { Within code.now (cursor at args stems due) }
    ensures { RunFrom code.now (cursor at args stems due) result }
{
    if due {
        return Run {
            at,
            last: at,
            args,
            stems,
        };
    }
    plain_run(code, at, args, stems)
}
