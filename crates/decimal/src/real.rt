// The text of a real (TN5176, section 4, table 5; the Rust's parse_real).
ghost use Rattle.std.specs.Prelude.{◌≡◌, Bool, true, false, ℕ, ◌+◌, ◌-◌, ◌*◌, ◌/◌, ◌%◌, ◌^◌, ◌≤◌, ◌<◌, min, length};
ghost use Rattle.octets.specs.Pick.{pick};
ghost use Rattle.decimal.specs.Decimal.{scaled};
ghost use Rattle.decimal.specs.Real.{limited};
ghost use Rattle.decimal.specs.Number.{placed, real_at, answer_of};
ghost use Rattle.decimal.specs.Stage.{Exact, step_of, mantissa_step, exponent_step, held_of, stage_of, Finished, Ended, Bounded, Stopped};

use crate::{Decimal, Held, NumberAt, PAST, Stage, TOO_MANY, scaled_up};
use refusal::Refusal;

// One more, but 1000 at most.
fn raised(n: usize) -> usize
    ensures { result ≡ min (n + 1) 1000 }
{
    if n < PAST {
        return n + 1;
    }
    PAST
}

// One more where it counts, but 1000 at most.
fn counted(n: usize, counts: bool) -> usize
    ensures { result ≡ pick counts (min (n + 1) 1000) n }
{
    if counts {
        return raised(n);
    }
    n
}

// The exponent with one digit more, but 1000 at most.
fn raised_exponent(e: usize, x: usize) -> usize
    requires { x < 10 }
    ensures { result ≡ min (e * 10 + x) 1000 }
{
    if PAST <= e {
        return PAST;
    }
    let v = e * 10 + x;
    if v < PAST {
        return v;
    }
    PAST
}

// Before the first digit.
fn no_digits(neg: bool) -> Held
    ensures { result ≡ held_of neg 0 0 }
{
    Held {
        neg,
        digits: 0,
        zeros: 0,
        behind: 0,
    }
}

// The digits with one more, which stands behind the point where there was one.
fn digit(h: Held, point: bool, x: usize) -> Held
    requires { x < 10 }
    ensures { (s : Bool) (n f : ℕ) → h ≡ held_of s n f → result ≡ held_of s (n * 10 + x) (pick point (f + 1) f) }
{
    let neg = h.neg;
    let digits = h.digits;
    let zeros = raised(h.zeros);
    let behind = counted(h.behind, point);
    if x == 0 {
        if digits == 0 {
            return Held {
                neg,
                digits: 0,
                zeros: 0,
                behind,
            };
        }
        return Held {
            neg,
            digits,
            zeros,
            behind,
        };
    }
    let more = scaled_up(digits, zeros, TOO_MANY) + x;
    if more < TOO_MANY {
        return Held {
            neg,
            digits: more,
            zeros: 0,
            behind,
        };
    }
    Held {
        neg,
        digits: TOO_MANY,
        zeros: 0,
        behind,
    }
}

// A nibble of the mantissa.
fn mantissa_step(any: bool, point: bool, held: Held, x: usize) -> Stage
    ensures { (s : Bool) (n f : ℕ) → held ≡ held_of s n f → result ≡ stage_of (mantissa_step s any point n f x) }
{
    if x < 10 {
        let more = digit(held, point, x);
        return Stage::Mantissa {
            any: true,
            point,
            held: more,
        };
    }
    if x == 10 {
        if point {
            return Stage::Malformed;
        }
        return Stage::Mantissa {
            any,
            point: true,
            held,
        };
    }
    if x == 11 {
        if any {
            return Stage::Exponent { held };
        }
        return Stage::Malformed;
    }
    if x == 12 {
        if any {
            return Stage::Power {
                held,
                eneg: true,
                any: false,
                exp: 0,
            };
        }
        return Stage::Malformed;
    }
    Stage::Malformed
}

// A nibble of the exponent.
fn exponent_step(held: Held, eneg: bool, exp: usize, x: usize) -> Stage
    ensures { (s : Bool) (n f e : ℕ) → held ≡ held_of s n f → exp ≡ min e 1000 → result ≡ stage_of (exponent_step s n f eneg e x) }
{
    if x < 10 {
        let more = raised_exponent(exp, x);
        return Stage::Power {
            held,
            eneg,
            any: true,
            exp: more,
        };
    }
    Stage::Malformed
}

// A nibble, wherever the text stands.
fn step(stage: Stage, x: usize) -> Stage
    ensures { (g : Exact) → stage ≡ stage_of g → result ≡ stage_of (step_of g x) }
{
    match stage {
        Stage::Start => {
            if x == 14 {
                let held = no_digits(true);
                return Stage::Mantissa {
                    any: false,
                    point: false,
                    held,
                };
            }
            mantissa_step(false, false, no_digits(false), x)
        }
        Stage::Mantissa { any, point, held } => mantissa_step(any, point, held, x),
        Stage::Exponent { held } => {
            if x == 14 {
                return Stage::Power {
                    held,
                    eneg: true,
                    any: false,
                    exp: 0,
                };
            }
            exponent_step(held, false, 0, x)
        }
        Stage::Power {
            held,
            eneg,
            any: _,
            exp,
        } => exponent_step(held, eneg, exp, x),
        Stage::Malformed => Stage::Malformed,
    }
}

// ± digits × 10 ^ up / 10 ^ down, with the position after it; refusal 5 past its powers of ten.
fn limited(
    neg: bool,
    digits: usize,
    up: usize,
    down: usize,
    next: usize,
) -> Result<Option<NumberAt>, Refusal>
    requires { (digits < 10 ^ 15) × (digits % 10 ≡ 0 → ⊥) }
    ensures { result ≡ answer_of (placed next (limited (scaled neg digits up down))) }
{
    if down <= up {
        let over = up - down;
        if 30 < over {
            return Err(Refusal::Real);
        }
        let value = Decimal {
            neg,
            digits,
            up: over,
            down: 0,
        };
        return Ok(Some(NumberAt { value, next }));
    }
    let under = down - up;
    if 30 < under {
        return Err(Refusal::Real);
    }
    let value = Decimal {
        neg,
        digits,
        up: 0,
        down: under,
    };
    Ok(Some(NumberAt { value, next }))
}

// A well formed text of so many bytes: 64 nibbles with the end are 32 bytes.
fn finished(
    held: Held,
    eneg: bool,
    exp: usize,
    bytes: usize,
    next: usize,
) -> Result<Option<NumberAt>, Refusal>
    requires { (Bounded held) × (exp ≤ 1000) }
    ensures { Finished bytes next held eneg exp result }
{
    let neg = held.neg;
    let digits = held.digits;
    let zeros = held.zeros;
    let behind = held.behind;
    if 32 < bytes {
        return Err(Refusal::Real);
    }
    if digits == 0 {
        let value = Decimal {
            neg: false,
            digits: 0,
            up: 0,
            down: 0,
        };
        return Ok(Some(NumberAt { value, next }));
    }
    if TOO_MANY <= digits {
        return Err(Refusal::Real);
    }
    if eneg {
        return limited(neg, digits, zeros, behind + exp, next);
    }
    limited(neg, digits, exp + zeros, behind, next)
}

// A text that has ended: malformed where the grammar wants more.
fn ended(stage: Stage, bytes: usize, next: usize) -> Result<Option<NumberAt>, Refusal>
    requires { Stopped stage }
    ensures { Ended stage bytes next result }
{
    match stage {
        Stage::Start => finished(no_digits(false), false, 0, bytes, next),
        Stage::Mantissa {
            any,
            point: _,
            held,
        } => {
            if any {
                return finished(held, false, 0, bytes, next);
            }
            Err(Refusal::Malformed)
        }
        Stage::Exponent { held: _ } => Err(Refusal::Malformed),
        Stage::Power {
            held,
            eneg,
            any,
            exp,
        } => {
            if any {
                return finished(held, eneg, exp, bytes, next);
            }
            Err(Refusal::Malformed)
        }
        Stage::Malformed => Err(Refusal::Malformed),
    }
}

// The Rust's `parse_real`: the real whose first byte, 30, stands at `at`.
pub fn parse_real(d: &[u8], at: usize) -> Result<Option<NumberAt>, Refusal>
    requires { at < length d.now }
    ensures { result ≡ answer_of (real_at d.now at) }
{
    let mut stage = Stage::Start;
    for p in at + 1..d.len() {
        let b = d[p] as usize;
        let high = b / 16;
        if high == 15 {
            return ended(stage, p - at, p + 1);
        }
        if high == 13 {
            return Err(Refusal::Malformed);
        }
        stage = step(stage, high);
        let low = b % 16;
        if low == 15 {
            return ended(stage, p - at, p + 1);
        }
        if low == 13 {
            return Err(Refusal::Malformed);
        }
        stage = step(stage, low);
    }
    Err(Refusal::Truncated)
}
