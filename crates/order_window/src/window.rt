// The kept glyphs of a font with the window that holds a part of their order.
ghost use Rattle.std.specs.Prelude.{◌≡◌, ◌≤◌, ◌<◌, ◌+◌, length, get_or};
ghost use Rattle.order_window.specs.Window.{Gathered};
ghost use Rattle.order_window.specs.Alone.{gathered_prop};

use crate::{Held, Order};
use cff::loaded::Loaded;

// A word of a window.
#[inline(always)]
fn word_at(window: &[u32], i: usize) -> usize
    requires { i < length window.now }
    ensures { (result ≡ get_or window.now i 0) × (result < 4294967296) }
{
    window[i] as usize
}

// A font, a bit for each glyph that is kept, and room for a window of their order.
#[derive(Drop)]
pub struct Kept<'a> {
    pub font: &'a [u8],
    pub words: &'a [u32],
    pub window: &'a mut [u32],
    pub o: Order,
    ghost gathered: { Gathered font.now words.now window.now o } by { gathered_prop font.now words.now window.now o },
}

impl Kept<'_> {
    ghost use Rattle.order_window.specs.Stays.{order_of, Stays, StaysAt};

    // The i-th word of the order, which the window holds.
    #[inline(always)]
    fn held_word(&self, i: usize) -> usize
        requires { (self.now.o.held.from ≤ i) × (i < self.now.o.held.walk.done) }
        ensures { (result ≡ get_or (order_of self.now) i 0) × (result < 4294967296) }
    {
        word_at(&*self.window, i - self.o.held.from)
    }

    // The i-th word of the order; the window is moved where it does not hold it, and holds it then.
    #[inline(always)]
    pub fn word(&mut self, i: usize) -> usize
        requires { i < self.old.o.count }
        ensures { (result ≡ get_or (order_of self.old) i 0) × (result < 4294967296) × (Stays self.old self.new)
            × (StaysAt i self.old self.new) × (self.new.o.held.from ≤ i) × (i < self.new.o.held.walk.done) }
    {
        if self.o.held.from <= i {
            if i < self.o.held.walk.done {
                return self.held_word(i);
            }
        }
        self.moved_to(i);
        self.held_word(i)
    }

    // The window moved on until it holds the i-th word of the order, from the first one where that word is before it.
    #[inline(never)]
    fn moved_to(&mut self, i: usize)
        requires { i < self.old.o.count }
        ensures { (self.new.o.held.from ≤ i) × (i < self.new.o.held.walk.done) × (Stays self.old self.new) × StaysAt i self.old self.new }
    {
        if i < self.o.held.from {
            self.back();
        }
        while self.o.held.walk.done <= i {
            self.moved();
        }
    }

    // The window emptied, before the first word, which it does not hold.
    fn back(&mut self)
        requires { 0 < self.old.o.held.from }
        ensures { (self.new.o.held.from ≡ 0) × Stays self.old self.new }
    {
        let walk = order::again(self.o.f, self.o.held.walk);
        self.o.held = Held { walk, from: 0 };
    }

    // The window with the next words of the order: while it is filled it counts as empty.
    fn moved(&mut self)
        requires { self.old.o.held.walk.done < self.old.o.count }
        ensures { (self.new.o.held.from ≡ self.old.o.held.walk.done) × (self.old.o.held.walk.done < self.new.o.held.walk.done) × Stays self.old self.new }
    {
        let walk = self.o.held.walk;
        self.o.held.from = walk.done;
        let font = Loaded {
            bytes: self.font,
            f: self.o.f,
        };
        let window = &mut *self.window;
        let next = order::next(&font, self.words, window, walk);
        self.o.held.walk = next;
    }
}
