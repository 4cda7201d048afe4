// The entries of reading, finding and INDEX items for C and Rust to link (document 01, 'Entries and their refusals'): numbers and
// lent slices only. A call returns 0 and writes its answer to the start of what was lent, or returns a refusal and writes nothing.
// 11 stands for lent words or bytes that are too few, after every other refusal. include/mogdivash.h has the C declarations.
#![tactic(auto)]

pub mod check;
pub mod culprits;
pub mod cut;
pub mod glyphs;
pub mod short;
pub mod trace;

ghost use Rattle.std.specs.Prelude.{◌≡◌, [], ◌∷◌};
ghost use Rattle.cff.specs.Font.{read_font};
ghost use Rattle.cff.specs.Find.{read_as, name_as, cid_as};
ghost use Rattle.refusal.specs.Refusal.{number_or_0};
ghost use Rattle.capi.specs.Capi.{given, read_answer, found_answer, Answers, lookup_refusal, item_answer, AnswersItem};

use cff::Counts;
use refusal::Refusal;

// What finding answers for a glyph that is absent: past every glyph's number.
const ABSENT: u64 = 65536;

// Writes the counts of a font that was read to the lent words.
fn put_counts(read: Result<Counts, Refusal>, answer: &mut [u64]) -> u8
    ensures { Answers (read_answer read) answer.old answer.new result }
{
    match read {
        Err(e) => e.number(),
        Ok(c) => {
            if answer.len() < 5 {
                return Refusal::Output.number();
            }
            let k = cff_entries::keying(c.cid);
            answer[0] = c.glyphs as u64;
            answer[1] = c.globals as u64;
            answer[2] = c.strings as u64;
            answer[3] = k;
            answer[4] = c.work as u64;
            0
        }
    }
}

// Writes one number to the lent words.
pub fn put_word(w: u64, answer: &mut [u64]) -> u8
    ensures { Answers (given (w ∷ [])) answer.old answer.new result }
{
    if answer.len() < 1 {
        return Refusal::Output.number();
    }
    answer[0] = w;
    0
}

// Reads a font. Answers five words: glyphs, global subroutines, strings, 1 for a CID-keyed font and 0 for a name-keyed one, and W.
#[unsafe(no_mangle)]
pub extern "C" fn cff_read(font: &[u8], answer: &mut [u64]) -> u8
    ensures { Answers (read_answer (read_as (read_font font.now))) answer.old answer.new result }
{
    put_counts(cff_entries::read(font), answer)
}

// Writes the glyph that was found, or that there is none, to the lent words.
fn put_found(found: Result<Option<usize>, Refusal>, answer: &mut [u64]) -> u8
    ensures { Answers (found_answer found) answer.old answer.new result }
{
    match found {
        Err(e) => e.number(),
        Ok(None) => put_word(ABSENT, answer),
        Ok(Some(g)) => put_word(g as u64, answer),
    }
}

// Finds the glyph of a name. Answers one word: the glyph, or 65536 where it is absent.
#[unsafe(no_mangle)]
pub extern "C" fn cff_find_name(font: &[u8], name: &[u8], answer: &mut [u64]) -> u8
    ensures { Answers (found_answer (name_as (read_font font.now) name.now)) answer.old answer.new result }
{
    put_found(cff_entries::find_name(font, name), answer)
}

// Finds the glyph of a CID. Answers one word: the glyph, or 65536 where it is absent.
#[unsafe(no_mangle)]
pub extern "C" fn cff_find_cid(font: &[u8], cid: u16, answer: &mut [u64]) -> u8
    ensures { Answers (found_answer (cid_as (read_font font.now) cid)) answer.old answer.new result }
{
    put_found(cff_entries::find_cid(font, cid as usize), answer)
}

// The refusal of a lookup of an item, if it is refused: reading's, then that of no such number of the kind, or of a kind above 2.
fn lookup(font: &[u8], kind: u8, number: u64) -> Result<(), Refusal>
    ensures { result ≡ lookup_refusal (read_font font.now) kind number }
{
    if kind < 3 {
        return cff_entries::item_refusal(font, cff_entries::kind_of(kind), number as usize);
    }
    cff_entries::read(font)?;
    Err(Refusal::NoSuchNumber)
}

// The refusal of a lookup of an item, or 0: reading's, then 6 where the kind has no such number, or the number of the kind is above 2.
#[unsafe(no_mangle)]
pub extern "C" fn cff_item_refusal(font: &[u8], kind: u8, number: u64) -> u8
    ensures { result ≡ number_or_0 (lookup_refusal (read_font font.now) kind number) }
{
    refusal::number_or_0(lookup(font, kind, number))
}

// An item, copied to the start of the lent bytes; its length goes to the lent words.
#[unsafe(no_mangle)]
pub extern "C" fn cff_item(
    font: &[u8],
    kind: u8,
    number: u64,
    out: &mut [u8],
    size: &mut [u64],
) -> u8
    ensures { AnswersItem (item_answer (read_font font.now) kind number)
        out.old out.new size.old size.new result }
{
    if let Err(e) = lookup(font, kind, number) {
        return e.number();
    }
    let item = cff_entries::item(font, cff_entries::kind_of(kind), number as usize);
    if out.len() < item.len() {
        return Refusal::Output.number();
    }
    if size.len() < 1 {
        return Refusal::Output.number();
    }
    let end = octets::put_bytes(out, 0, item);
    size[0] = end as u64;
    0
}
