// What the proved functions answer to the input of a stored case of the format's parts. An input that is not of its kind's form is Outside,
// never skipped.
#![tactic(auto)]

pub mod dicts;
pub mod glyphs;
pub mod indexes;

ghost use Rattle.std.specs.Prelude.{◌≡◌};
ghost use Rattle.format_cases.specs.Answers.{answer_to};

use cases::answer::Answer;

// The answer to an input, by its kind's letter; None outside the kind's domain. The kind stays the letter that the line has, which may be any.
pub fn answer(kind: u8, input: &[u8]) -> Option<Answer>
    ensures { result ≡ answer_to kind input.now }
{
    match kind {
        b'x' => indexes::answer_index(input),
        b'd' => dicts::answer_dict(input),
        b'w' => dicts::answer_number(input),
        b'c' => glyphs::answer_charset(input),
        b's' => glyphs::answer_fd_select(input),
        _ => None,
    }
}
