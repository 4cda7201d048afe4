// The order by glyph: name-keyed fonts, and CIDs that rise with the glyph. All windows together are one pass over the glyphs.
ghost use Rattle.std.specs.Prelude.{◌≡◌, ◌≤◌, ◌<◌, length};
ghost use Rattle.bits.specs.Bits.{words_for};
ghost use Rattle.charset.specs.Ids.{ids};
ghost use Rattle.order.specs.Order.{kept_in, rises_from, ids_for};
ghost use Rattle.order.specs.Walks.{many_in, before_glyph, order_in, Stands, Next};

use crate::{Coming, Walk};
use cff::loaded::Loaded;
use charset::CharsetCursor;
use charset::ids::Ids;

// Whether the ids of the glyphs that have their bit rise with the glyph.
pub fn rises(glyphs: &Ids<'_>, words: &[u32]) -> bool
    requires { words_for glyphs.now.n ≤ length words.now }
    ensures { result ≡ rises_from 0 (ids_for (ids glyphs.now) (kept_in glyphs.now.n words.now)) }
{
    let mut low = 0;
    for (g, id) in glyphs.iter().enumerate() {
        if bits::has_bit(words, 0, g) {
            if id < low {
                return false;
            }
            low = id + 1;
        }
    }
    true
}

// The next glyphs that have their bit, with their ids, into the window, until it is full or no glyph is left: from glyph `at` on, behind `done` kept ones.
pub fn next_glyphs(
    font: &Loaded<'_>,
    words: &[u32],
    window: &mut [u32],
    done: usize,
    at: usize,
    cursor: CharsetCursor,
) -> Walk
    requires { (words_for (many_in font.now.f) ≤ length words.now) × (0 < length window.old)
        × (Stands font.now.bytes.now font.now.f words.now (before_glyph done at cursor)) × (done < length (order_in font.now.bytes.now font.now.f words.now)) }
    ensures { Next font.now.bytes.now font.now.f words.now (before_glyph done at cursor) window.new result }
{
    let bytes = font.bytes;
    let n = font.f.charstrings.count;
    let m = window.len();
    // By the cursor, not by `Ids::iter`: the pass goes on in the middle, where the last window ended, and the walk holds the cursor where this one ends.
    let mut u = cursor;
    let mut k = 0;
    for g in at..n {
        if k == m {
            return Walk {
                done: done + k,
                next: Coming::Glyph { at: g, cursor: u },
            };
        }
        let s = charset::next_id(bytes, u);
        let id = s.id;
        u = s.next;
        if bits::has_bit(words, 0, g) {
            window[k] = (id * 65536 + g) as u32;
            k += 1;
        }
    }
    Walk {
        done: done + k,
        next: Coming::Glyph { at: n, cursor: u },
    }
}
