// The stored cases of subsetting (tools/compare/README.md, 'Stored subsets'): what write answers to them, S by name and D by CID.
// An input that is not of this form, or that lends more than there is room for here, is Outside, never skipped.
#![tactic(auto)]

pub mod left;

ghost use Rattle.std.specs.Prelude.{◌≤◌, ◌≡◌, false, length, replicate, Some};
ghost use Rattle.cff.specs.Font.{read_font};
ghost use Rattle.cff.specs.Find.{work_size};
ghost use Rattle.subset.specs.Cut.{cut_of};
ghost use Rattle.outcome.specs.Entry.{work_in, Cuts};
ghost use Rattle.subset_cases.specs.Left.{lent_word, lent_byte};
ghost use Rattle.subset_cases.specs.SubsetCases.{outcome_bytes, lent_answer, kept_answer, named_answer, asked_answer, subset_answer};

use cases::answer::Answer;
use cases::inputs::FontInput;
use outcome::Subsetted;
use outcome::call::{Call, Keying, Request};
use refusal::Refusal;

// W of a font, 0 where reading refuses it.
fn work_of(font: &[u8]) -> usize
    ensures { result ≡ work_in work_size (read_font font.now) }
{
    match cff_entries::read(font) {
        Err(_) => 0,
        Ok(c) => c.work,
    }
}

// The entry of a keying.
fn cut(
    cid: bool,
    font: &[u8],
    ask: &Request<'_>,
    work: &mut [u32],
    out: &mut [u8],
) -> Result<Subsetted, Refusal>
    ensures { Cuts cid false font.now ask.now.name.now ask.now.keep.now ask.now.rows.now ask.now.traced
        work.old out.old work.new out.new result }
{
    if cid {
        let keyed = Call {
            keying: Keying::Cid,
            small: false,
        };
        return write::cut(keyed, font, ask, work, out);
    }
    let named = Call {
        keying: Keying::Name { encoding: false },
        small: false,
    };
    write::cut(named, font, ask, work, out)
}

// What a call answers and leaves, with work words and an output that were filled.
fn answer_cut(
    cid: bool,
    font: &[u8],
    name: &[u8],
    keep: &[u16],
    rows: &[u8],
    traced: u8,
    work: &mut [u32],
    found: &mut [u8],
) -> Option<Answer>
    requires { (work.old ≡ replicate (length work.old) lent_word) × (found.old ≡ replicate (length found.old) lent_byte)
        × (length found.old ≤ 4094) }
    ensures { result ≡ Some (outcome_bytes (cut_of cid false font.now name.now keep.now rows.now traced
        (length work.old) (length found.old))) }
{
    let ask = Request {
        name,
        keep,
        rows,
        traced,
    };
    let r = cut(cid, font, &ask, &mut *work, &mut *found);
    left::judge(r, work_of(font), &*work, &*found)
}

// The flag, how many work words and output bytes are lent, and the record.
fn answer_lent(cid: bool, font: &[u8], name: &[u8], keep: &[u16], asked: &[u8]) -> Option<Answer>
    ensures { result ≡ lent_answer cid font.now name.now keep.now asked.now }
{
    if asked.len() < 5 {
        return None;
    }
    let traced = asked[0];
    let words = octets::u16_at(asked, 1);
    let room = octets::u16_at(asked, 3);
    if 1024 < words {
        return None;
    }
    if 4094 < room {
        return None;
    }
    let mut work = [2779096485u32; 1024];
    let mut found = [165u8; 4094];
    answer_cut(
        cid,
        font,
        name,
        keep,
        &asked[5..],
        traced,
        &mut work[..words],
        &mut found[..room],
    )
}

// How many numbers are kept, and the numbers, two bytes each.
fn answer_kept(cid: bool, font: &[u8], name: &[u8], asked: &[u8]) -> Option<Answer>
    ensures { result ≡ kept_answer cid font.now name.now asked.now }
{
    let n = asked.len();
    if n < 2 {
        return None;
    }
    let count = octets::u16_at(asked, 0);
    if 256 < count {
        return None;
    }
    let end = 2 + 2 * count;
    if n < end {
        return None;
    }
    let mut keep = [0u16; 256];
    let k = sheet::reading::put_pairs(&asked[2..end], &mut keep);
    answer_lent(cid, font, name, &keep[..k], &asked[end..])
}

// The name's length in one byte, and the name.
fn answer_named(cid: bool, font: &[u8], asked: &[u8]) -> Option<Answer>
    ensures { result ≡ named_answer cid font.now asked.now }
{
    let n = asked.len();
    if n < 1 {
        return None;
    }
    let end = 1 + octets::u8_at(asked, 0);
    if n < end {
        return None;
    }
    answer_kept(cid, font, &asked[1..end], &asked[end..])
}

// The answer to what is asked of a font, by the kind's letter.
fn answer_asked(kind: u8, font: &[u8], asked: &[u8]) -> Option<Answer>
    ensures { result ≡ asked_answer kind font.now asked.now }
{
    match kind {
        b'S' => answer_named(false, font, asked),
        b'D' => answer_named(true, font, asked),
        _ => None,
    }
}

// The answer to an input, by its kind's letter; None outside the kind's domain. The kind stays the letter that the line has, which may be any.
pub fn answer(kind: u8, input: &[u8]) -> Option<Answer>
    ensures { result ≡ subset_answer kind input.now }
{
    let parts = FontInput::split(input)?;
    answer_asked(kind, parts.font, parts.asked)
}
