// The answer to an input, by the crate that has its kind.
ghost use Rattle.std.specs.Prelude.{◌≡◌};
ghost use Rattle.replay.specs.Answers.{answer_to};

use cases::answer::Answer;

pub fn answer(kind: u8, input: &[u8]) -> Option<Answer>
    ensures { result ≡ answer_to kind input.now }
{
    if b"nifteb".contains(&kind) {
        return charstring_cases::answer(kind, input);
    }
    if b"xdwcs".contains(&kind) {
        return format_cases::answer(kind, input);
    }
    if b"RNCI".contains(&kind) {
        return cff_cases::answer(kind, input);
    }
    if b"SD".contains(&kind) {
        return subset_cases::answer(kind, input);
    }
    None
}
