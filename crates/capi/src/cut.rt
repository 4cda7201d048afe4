// The entries of subsetting for C and Rust to link (document 01, 'Entries and their refusals'). The answer is two words, the way and the
// length of the subset, which stands at the start of the lent bytes. Fewer than two words are no room, so 11 stands for these too.
ghost use Rattle.std.specs.Prelude.{◌≡◌, true, false, not, eqb};
ghost use Rattle.cff.specs.Find.{work_size};
ghost use Rattle.small.specs.Small.{small_size};
ghost use Rattle.outcome.specs.Call.{is_cid, asks};
ghost use Rattle.outcome.specs.Entry.{size_of};
ghost use Rattle.capi.specs.Capi.{two_answer, Answers};
ghost use Rattle.capi.specs.Subset.{room_for, AnswersCut};

use outcome::call::{Call, Keying, Request};
use refusal::Refusal;

// The room for a subset: none where fewer than two words are lent for its answer.
pub fn room_for(words: usize, room: usize) -> usize
    ensures { result ≡ room_for words room }
{
    if words < 2 {
        return 0;
    }
    room
}

// Writes two numbers to the lent words, where a call is not refused.
pub fn put_two(two: Result<(u64, u64), Refusal>, answer: &mut [u64]) -> u8
    ensures { Answers (two_answer two) answer.old answer.new result }
{
    match two {
        Err(e) => e.number(),
        Ok(words) => {
            if answer.len() < 2 {
                return Refusal::Output.number();
            }
            answer[0] = words.0;
            answer[1] = words.1;
            0
        }
    }
}

// What each entry for C does, which says which call it is: the subset is cut in the room that the answer's words leave.
fn answer_cut(
    call: Call,
    font: &[u8],
    ask: &Request<'_>,
    work: &mut [u32],
    out: &mut [u8],
    answer: &mut [u64],
) -> u8
    ensures { AnswersCut (size_of call.small) (is_cid call.keying) (asks call.keying) font.now ask.now.name.now ask.now.keep.now ask.now.rows.now ask.now.traced
        work.old out.old answer.old work.new out.new answer.new result }
{
    let room = room_for(answer.len(), out.len());
    let cut = write::cut(call, font, ask, work, &mut out[..room]);
    put_two(cut.map(|c| (c.way.number() as u64, c.len as u64)), answer)
}

// The subset of a name-keyed font: glyph 0 and the glyphs of the keep list; with the font's encoding where `encoding` is not 0.
#[unsafe(no_mangle)]
pub extern "C" fn cff_subset(
    font: &[u8],
    name: &[u8],
    keep: &[u16],
    rows: &[u8],
    traced: u8,
    encoding: u8,
    work: &mut [u32],
    out: &mut [u8],
    answer: &mut [u64],
) -> u8
    ensures { AnswersCut work_size false (not (eqb encoding 0)) font.now name.now keep.now rows.now traced
        work.old out.old answer.old work.new out.new answer.new result }
{
    let call = Call {
        keying: Keying::Name {
            encoding: encoding != 0,
        },
        small: false,
    };
    let ask = Request {
        name,
        keep,
        rows,
        traced,
    };
    answer_cut(call, font, &ask, work, out, answer)
}

// The subset of a CID-keyed font.
#[unsafe(no_mangle)]
pub extern "C" fn cff_subset_cid(
    font: &[u8],
    name: &[u8],
    keep: &[u16],
    rows: &[u8],
    traced: u8,
    work: &mut [u32],
    out: &mut [u8],
    answer: &mut [u64],
) -> u8
    ensures { AnswersCut work_size true false font.now name.now keep.now rows.now traced
        work.old out.old answer.old work.new out.new answer.new result }
{
    let call = Call {
        keying: Keying::Cid,
        small: false,
    };
    let ask = Request {
        name,
        keep,
        rows,
        traced,
    };
    answer_cut(call, font, &ask, work, out, answer)
}

// The subset of a name-keyed font with few work words: a bit for each glyph and each subroutine (document 02, Wish 10).
#[unsafe(no_mangle)]
pub extern "C" fn cff_subset_small(
    font: &[u8],
    name: &[u8],
    keep: &[u16],
    rows: &[u8],
    traced: u8,
    encoding: u8,
    work: &mut [u32],
    out: &mut [u8],
    answer: &mut [u64],
) -> u8
    ensures { AnswersCut small_size false (not (eqb encoding 0)) font.now name.now keep.now rows.now traced
        work.old out.old answer.old work.new out.new answer.new result }
{
    let call = Call {
        keying: Keying::Name {
            encoding: encoding != 0,
        },
        small: true,
    };
    let ask = Request {
        name,
        keep,
        rows,
        traced,
    };
    answer_cut(call, font, &ask, work, out, answer)
}

// The subset of a CID-keyed font with few work words.
#[unsafe(no_mangle)]
pub extern "C" fn cff_subset_cid_small(
    font: &[u8],
    name: &[u8],
    keep: &[u16],
    rows: &[u8],
    traced: u8,
    work: &mut [u32],
    out: &mut [u8],
    answer: &mut [u64],
) -> u8
    ensures { AnswersCut small_size true false font.now name.now keep.now rows.now traced
        work.old out.old answer.old work.new out.new answer.new result }
{
    let call = Call {
        keying: Keying::Cid,
        small: true,
    };
    let ask = Request {
        name,
        keep,
        rows,
        traced,
    };
    answer_cut(call, font, &ask, work, out, answer)
}
