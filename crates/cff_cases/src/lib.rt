// The stored cases of reading a font, finding and INDEX items (tools/compare/README.md, 'Stored cases'): what cff answers to them.
// An input that is not of its kind's form is Outside, never skipped.
#![tactic(auto)]

ghost use Rattle.std.specs.Prelude.{◌≡◌, ◌+◌, ◌≤◌, ◌++◌, length};
ghost use Rattle.cff_cases.specs.CffCases.{sizes_bytes, font_bytes, read_bytes, found_bytes, read_answer, name_answer, cid_answer, item_of_kind, item_answer, asked_answer, cff_answer};

use cases::answer::Answer;
use cases::inputs::FontInput;
use cff::{Counts, ItemKind};
use refusal::Refusal;

// Glyphs, global subroutines and strings, four bytes each.
fn put_sizes(c: Counts, to: &mut Answer)
    requires { length to.old + 12 ≤ 4096 }
    ensures { (to.new ≡ to.old ++ sizes_bytes c) × (length to.new ≡ length to.old + 12) }
{
    to.num(c.glyphs, 4);
    to.num(c.globals, 4);
    to.num(c.strings, 4);
}

// What reading answers of a font that is not refused.
fn of_font(c: Counts) -> Answer
    ensures { result ≡ font_bytes c }
{
    let mut answer = Answer::one(0);
    put_sizes(c, &mut answer);
    answer.num(cff_entries::keying(c.cid) as usize, 1);
    answer.num(c.work, 8);
    answer
}

// What reading answers.
fn of_read(read: Result<Counts, Refusal>) -> Answer
    ensures { result ≡ read_bytes read }
{
    match read {
        Err(e) => Answer::one(e.number()),
        Ok(c) => of_font(c),
    }
}

// What finding answers.
fn of_found(found: Result<Option<usize>, Refusal>) -> Answer
    ensures { result ≡ found_bytes found }
{
    let mut answer = Answer::new();
    match found {
        Err(e) => answer.byte(e.number()),
        Ok(None) => answer.num(0, 4),
        Ok(Some(g)) => {
            answer.num(1, 2);
            answer.num(g, 2);
        }
    }
    answer
}

// Kind R: nothing is asked but reading.
fn answer_read(font: &[u8], asked: &[u8]) -> Option<Answer>
    ensures { result ≡ read_answer font.now asked.now }
{
    if 0 < asked.len() {
        return None;
    }
    Some(of_read(cff_entries::read(font)))
}

// Kind N: a name.
fn answer_name(font: &[u8], name: &[u8]) -> Option<Answer>
    ensures { result ≡ name_answer font.now name.now }
{
    Some(of_found(cff_entries::find_name(font, name)))
}

// Kind C: a CID of two bytes.
fn answer_cid(font: &[u8], asked: &[u8]) -> Option<Answer>
    ensures { result ≡ cid_answer font.now asked.now }
{
    if asked.len() == 2 {
        let cid = octets::u16_at(asked, 0);
        return Some(of_found(cff_entries::find_cid(font, cid)));
    }
    None
}

// An item of a kind.
fn answer_item_of(font: &[u8], kind: ItemKind, number: usize) -> Option<Answer>
    ensures { result ≡ item_of_kind font.now kind number }
{
    if let Err(e) = cff_entries::item_refusal(font, kind, number) {
        return Some(Answer::one(e.number()));
    }
    let item = cff_entries::item(font, kind, number);
    if 4095 < item.len() {
        return None;
    }
    let mut answer = Answer::one(0);
    answer.copy(item);
    Some(answer)
}

// Kind I: a kind of one byte and a number of four.
fn answer_item(font: &[u8], asked: &[u8]) -> Option<Answer>
    ensures { result ≡ item_answer font.now asked.now }
{
    if asked.len() == 5 {
        let kind = asked[0];
        let number = octets::u32_at(asked, 1);
        if 2 < kind {
            return None;
        }
        return answer_item_of(font, cff_entries::kind_of(kind), number);
    }
    None
}

// The answer to what is asked of a font, by the kind's letter.
fn answer_asked(kind: u8, font: &[u8], asked: &[u8]) -> Option<Answer>
    ensures { result ≡ asked_answer kind font.now asked.now }
{
    match kind {
        b'R' => answer_read(font, asked),
        b'N' => answer_name(font, asked),
        b'C' => answer_cid(font, asked),
        b'I' => answer_item(font, asked),
        _ => None,
    }
}

// The answer to an input, by its kind's letter; None outside the kind's domain. The kind stays the letter that the line has, which may be any.
pub fn answer(kind: u8, input: &[u8]) -> Option<Answer>
    ensures { result ≡ cff_answer kind input.now }
{
    let parts = FontInput::split(input)?;
    answer_asked(kind, parts.font, parts.asked)
}
