// The lines of a text of cases, `KIND INPUT ANSWER`: which agree with our answer, counted by kind.
ghost use Rattle.std.specs.Prelude.{◌+◌, ◌*◌, ◌≤◌, ◌≡◌, length};
ghost use Rattle.cases.specs.Fields.{field_bytes, both_same};
ghost use Rattle.cases.specs.Lines.{lines_of, answer_of, agrees};
ghost use Rattle.cases.specs.Tally.{counted_all, first_failed, Below};
ghost use Rattle.replay.specs.Answers.{answer_to};

use cases::fields::{holds, read_field};
use cases::lines::Lines;
use cases::tally::{count_line, first_failed};

// Whether our answer to an input is the stored one.
fn answer_agrees(kind: u8, input: &[u8], stored: &[u8]) -> bool
    ensures { result ≡ both_same (answer_to kind input.now) (field_bytes 4096 stored.now) }
{
    match crate::answers::answer(kind, input) {
        Some(found) => holds(stored, found.bytes()),
        None => false,
    }
}

// Whether our answer to the input that a field holds is the stored one.
fn fields_agree(kind: u8, text: &[u8], stored: &[u8]) -> bool
    ensures { result ≡ both_same (answer_of answer_to kind (field_bytes 4096 text.now)) (field_bytes 4096 stored.now) }
{
    let mut input = [0u8; 4096];
    match read_field(text, &mut input) {
        Some(k) => answer_agrees(kind, &input[..k], stored),
        None => false,
    }
}

// Whether a line is a case and our answer is its answer.
pub fn agrees(line: &[u8]) -> bool
    ensures { result ≡ agrees answer_to line.now }
{
    let n = line.len();
    if n < 2 {
        return false;
    }
    if line[1] != b' ' {
        return false;
    }
    let end = hexlines::field_end(line, 2);
    if n <= end {
        return false;
    }
    let next = end + 1;
    fields_agree(line[0], &line[2..end], &line[next..])
}

// Counts every line of a text by its kind; the number of the first that failed, if one did.
pub fn replay(kinds: &[u8], text: &[u8], counts: &mut [usize]) -> Option<usize>
    requires { (2 * length kinds.now + 2 ≤ length counts.old) × Below 1 counts.old }
    ensures { (counts.new ≡ counted_all (agrees answer_to) kinds.now counts.old (lines_of text.now))
        × (result ≡ first_failed (agrees answer_to) 0 (lines_of text.now)) }
{
    let mut first = None;
    for (i, line) in Lines::of(text).enumerate() {
        let agreed = agrees(line);
        first = first_failed(first, i + 1, agreed);
        count_line(kinds, line, agreed, &mut *counts);
    }
    first
}
