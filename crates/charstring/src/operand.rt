// The operand of a call (TN5177, section 4.7): the number just before the operator, and the number of the subroutine that it names.
ghost use Rattle.std.specs.Prelude.{◌≡◌, ◌≤◌, length};
ghost use Rattle.charstring.specs.Bias.{bias_of, numbered, last_at};

use crate::bias;
use type2_number::{Number, Operand, count_of, read_number};

// The number that starts at `from`, where that is before `at`; none where the two are the same place.
pub fn number_before(code: &[u8], from: usize, at: usize) -> Option<Operand>
    requires { at ≤ length code.now }
    ensures { result ≡ last_at code.now from at }
{
    if at <= from {
        return None;
    }
    match read_number(code, from) {
        Number::Num { value, next: _ } => Some(value),
        Number::Cut => None,
        Number::Operator => None,
    }
}

// The number of the subroutine that an operand names, of so many, if it names one. It may be one that is not there.
pub fn number_named(count: usize, v: Operand) -> Option<usize>
    ensures { result ≡ numbered (bias_of count) v }
{
    let s = count_of(v);
    let neg = s.neg;
    let size = s.size;
    let added = bias(count);
    if size % 65536 != 0 {
        return None;
    }
    let i = size / 65536;
    if neg {
        return added.checked_sub(i);
    }
    Some(i + added)
}
