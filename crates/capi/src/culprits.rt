// Which glyph costs the small file, for C and Rust to link (document 02, Wish 12). The answer is one word: the glyph, or 65536 where there is none. 11 stands
// for no word too, after every other refusal.
ghost use Rattle.capi.specs.Blocking.{AnswersBlocking};

use crate::put_found;

// The smallest kept glyph but 0 without which the traced subset is renumbered, for a keep list whose traced subset is stubbed.
#[unsafe(no_mangle)]
pub extern "C" fn cff_blocking_glyph(
    font: &[u8],
    name: &[u8],
    keep: &[u16],
    work: &mut [u32],
    slice: &mut [u8],
    answer: &mut [u64],
) -> u8
    ensures { AnswersBlocking font.now name.now keep.now work.old slice.old answer.old
        work.new slice.new answer.new result }
{
    let c = blocking::blocking_glyph(font, name, keep, work, slice);
    put_found(c.map(|g| g.map(|g| g as usize)), answer)
}
