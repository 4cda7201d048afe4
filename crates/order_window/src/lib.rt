// The kept glyphs by their places in the order in which they are written (document 02, Wish 10): a window of the order is held, and moved where the place
// that is asked for is not in it (`window`). A loop over all places, the next after the last, takes one walk; where the window has room for all kept glyphs it
// is filled once, whatever loops there are.
#![tactic(auto)]

pub mod window;

ghost use Rattle.std.specs.Prelude.{◌≡◌, true, false, ℕ, ◌*◌, ◌≤◌, ◌<◌, length};
ghost use Rattle.bits.specs.Bits.{words_for, bit_in};
ghost use Rattle.cff.specs.Loaded.{program};
ghost use Rattle.octets.specs.Lists.{all_below};
ghost use Rattle.subset.specs.Kept.{kept_of};
ghost use Rattle.subset.specs.Cut.{all_found_lem};
ghost use Rattle.order.specs.Order.{kept_in};
ghost use Rattle.order.specs.Walks.{many_in};
ghost use Rattle.order_window.specs.Window.{Marked, Steady, Gathered};

use cff::font::Font;
use cff::loaded::Loaded;
use order::Walk;

// What a window holds: the words of the order from place `from` on, up to where a walk stands.
#[derive(Clone, Copy)]
pub struct Held {
    pub walk: Walk,
    pub from: usize,
}

// The kept glyphs of a font in their order: the font as it was read, how many they are, and what the window holds.
#[derive(Clone, Copy)]
pub struct Order {
    pub f: Font,
    pub count: usize,
    pub held: Held,
}

// How many of n glyphs have their bit.
pub fn count(words: &[u32], n: usize) -> usize
    requires { (n < 65536) × (words_for n ≤ length words.now) × ((i : ℕ) → n ≤ i → i < 32 * words_for n → bit_in words.now 0 i ≡ false) }
    ensures { result ≡ length (kept_in n words.now) }
{
    let q = bits::words_for(n);
    bits::whole_ones(words, 0, q)
}

// The kept glyphs of a font, by their bits: in a window that has room for them all, or else not in it yet.
pub fn begin(font: &Loaded<'_>, words: &[u32], window: &mut [u32]) -> Order
    requires { (Marked font.now.bytes.now font.now.f words.now) × (0 < length window.old) }
    ensures { (Gathered font.now.bytes.now words.now window.new result) × (result.f ≡ font.now.f)
        × (Steady font.now.bytes.now font.now.f words.now window.new result.held) }
{
    order::octets_in(font.bytes);
    let f = font.f;
    let count = count(words, f.charstrings.count);
    let first = order::start(f, order::searches(font, words));
    let walk = order::next(font, words, window, first);
    if walk.done == count {
        let held = Held { walk, from: 0 };
        return Order { f, count, held };
    }
    let held = Held {
        walk: first,
        from: 0,
    };
    Order { f, count, held }
}

// The kept glyphs of a font, by a keep list: their bits come to stand in the first words.
pub fn gather(font: &Loaded<'_>, keep: &[u16], words: &mut [u32], window: &mut [u32]) -> Order
    requires { (all_below (many_in font.now.f) keep.now ≡ true) × (all_found_lem (program font.now) (kept_of (many_in font.now.f) keep.now) ≡ true)
        × (words_for (many_in font.now.f) ≤ length words.old) × (0 < length window.old) }
    ensures { (Gathered font.now.bytes.now words.new window.new result) × (result.f ≡ font.now.f)
        × (kept_in (many_in font.now.f) words.new ≡ kept_of (many_in font.now.f) keep.now)
        × (Steady font.now.bytes.now font.now.f words.new window.new result.held) }
{
    order::mark(keep, &mut *words, font.f.charstrings.count);
    begin(font, words, window)
}
