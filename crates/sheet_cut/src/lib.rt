// Document 01, 'One sheet, whole': from the input that the program `cut` has taken to what it prints.
#![tactic(auto)]

ghost use Rattle.std.specs.Prelude.{List, false, ℕ, ◌+◌, ◌*◌, ◌≤◌, length};
ghost use Rattle.octets.specs.Octets.{Wrote};
ghost use Rattle.cff.specs.Font.{read_font};
ghost use Rattle.subset.specs.Cut.{cut_of};
ghost use Rattle.outcome.specs.Entry.{Cuts};
ghost use Rattle.sheet.specs.Sheet.{keying, printed, cut_sheet};
ghost use Rattle.sheet.specs.Taking.{Took};
ghost use Rattle.sheet_cut.specs.Cutting.{length_in, outcome_in, Given};

use outcome::Subsetted;
use outcome::call::{Call, Keying, Request};
use refusal::Refusal;
use sheet::buffers::Buffers;
use sheet::printing::{put_refused, put_subset};

// Cuts by the keying of the font: as name-keyed, and where that is refusal 3 as CID-keyed. Refusal 3 has left the words and the output as found.
pub fn cut_by_keying(
    font: &[u8],
    ask: &Request<'_>,
    work: &mut [u32],
    out: &mut [u8],
) -> Result<Subsetted, Refusal>
    ensures { Cuts (keying (read_font font.now)) false font.now ask.now.name.now ask.now.keep.now ask.now.rows.now ask.now.traced
        work.old out.old work.new out.new result }
{
    let named = Call {
        keying: Keying::Name { encoding: false },
        small: false,
    };
    let first = write::cut(named, font, ask, &mut *work, &mut *out);
    match first {
        Err(e) => {
            if e == Refusal::Unsupported {
                let keyed = Call {
                    keying: Keying::Cid,
                    small: false,
                };
                return write::cut(keyed, font, ask, work, out);
            }
            Err(e)
        }
        Ok(c) => Ok(c),
    }
}

// Writes what is printed of an answer, whose subset is in front of out, to the start of page; returns its length.
fn put_answer(answer: Result<Subsetted, Refusal>, out: &[u8], page: &mut [u8]) -> usize
    requires { (length_in answer ≤ length out.now) × (3 * length out.now + 12 ≤ length page.old) }
    ensures { Wrote page.old 0 (printed (outcome_in answer out.now)) page.new result }
{
    match answer {
        Err(e) => put_refused(e.number(), page),
        Ok(c) => put_subset(c.way.number(), &out[..c.len], page),
    }
}

// Cuts the parts of a sheet with 8,192 work words and 32,768 output bytes lent, and writes what is printed to the start of page; returns its length.
fn cut_parts(
    font: &[u8],
    name: &[u8],
    keep: &[u16],
    rows: &[u8],
    traced: u8,
    page: &mut [u8],
) -> usize
    requires { 98316 ≤ length page.old }
    ensures { Wrote page.old 0 (printed (cut_of (keying (read_font font.now)) false font.now name.now
        keep.now rows.now traced 8192 32768)) page.new result }
{
    let mut work = [0u32; 8192];
    let mut out = [0u8; 32768];
    let ask = Request {
        name,
        keep,
        rows,
        traced,
    };
    let answer = cut_by_keying(font, &ask, &mut work, &mut out);
    put_answer(answer, &out, page)
}

// Cuts the sheet of a text that was taken, len bytes in the buffer or too many, and writes what is printed to the start of page; returns its length.
// A slice of those bytes could not say that there were more, as len does.
pub fn cut_taken(buffer: &[u8], len: usize, page: &mut [u8]) -> usize
    requires { (48134 ≤ length buffer.now) × (Given len buffer.now) × (98316 ≤ length page.old) }
    ensures { (text : List ℕ) (mode : ℕ) → Took text len mode buffer.now
        → Wrote page.old 0 (cut_sheet text) page.new result }
{
    let mut font = [0u8; 16384];
    let mut name = [0u8; 256];
    let mut keep = [0u16; 1024];
    let mut rows = [0u8; 5120];
    let mut to = Buffers {
        font: &mut font,
        name: &mut name,
        keep: &mut keep,
        rec: &mut rows,
    };
    let read = sheet::reading::read_taken(buffer, len, &mut to);
    match read {
        None => put_refused(0, page),
        Some(parts) => {
            let Buffers {
                font,
                name,
                keep,
                rec,
            } = to;
            cut_parts(
                &font[..parts.font],
                &name[..parts.name],
                &keep[..parts.keep],
                &rec[..parts.rec],
                parts.flag,
                page,
            )
        }
    }
}
