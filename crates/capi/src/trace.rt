// The tracer for C and Rust to link (document 02, Wish 1). The answer is two words, the flag and the length of the record, which stands at the
// start of the lent bytes. Fewer than two words are no room, so 11 stands for these too.
ghost use Rattle.capi.specs.Trace.{AnswersTrace};

use crate::cut::{put_two, room_for};

// The reach record of glyph 0 and the glyphs of the keep list.
#[unsafe(no_mangle)]
pub extern "C" fn cff_trace(font: &[u8], keep: &[u16], out: &mut [u8], answer: &mut [u64]) -> u8
    ensures { AnswersTrace font.now keep.now out.old answer.old out.new answer.new result }
{
    let room = room_for(answer.len(), out.len());
    let t = tracer::trace(font, keep, &mut out[..room]);
    put_two(t.map(|r| (r.flag as u64, r.len as u64)), answer)
}
