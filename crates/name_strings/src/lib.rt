// The names of the kept glyphs as strings of a name-keyed subset (document 01, 'Layout'), over the order in which they are written (document 02, Wish 10):
// the own strings counted, the String INDEX and the charset written. No id is stored: each loop gives them anew, by the own strings counted so far.
#![tactic(auto)]

pub mod slots;

ghost use Rattle.std.specs.Prelude.{◌≡◌, ◌+◌, ◌≤◌, length, take};
ghost use Rattle.octets.specs.Out.{Writes};
ghost use Rattle.index.specs.Items.{items};
ghost use Rattle.index.specs.Write.{index_bytes};
ghost use Rattle.charset.specs.CharsetBytes.{charset_bytes};
ghost use Rattle.order_window.specs.Stays.{order_of, Stays};
ghost use Rattle.own_strings.specs.Slots.{own_of, slots_own, all_own};
ghost use Rattle.own_strings.specs.Ready.{IndexRoom};
ghost use Rattle.name_strings.specs.Names.{own_in, strings_of, names_for, NamesReady};
ghost use Rattle.name_strings.specs.Strings.{StringsRoom, StringsBegun};

use crate::slots::GivenSlots;
use index::Index;
use index::items::Items;
use octets::out::Out;
use order_window::window::Kept;
use own_strings::Own;
use own_strings::slots::Slot;

// A String INDEX that was begun: where its parts stand, and how many strings are written.
#[derive(Clone, Copy)]
pub struct Started {
    pub ix: Index,
    pub count: usize,
}

// The own strings of the slots, counted.
pub fn slots_own(slots: &GivenSlots<'_, '_>) -> Own
    requires { length slots.now.strings.bytes.now ≤ 67108864 }
    ensures { result ≡ own_of (own_in slots.now) }
{
    let mut own = Own { count: 0, total: 0 };
    for j in 0..8 {
        let slot = slots.slots[j];
        match slot.sid {
            None => {}
            Some(sid) => {
                own = own_strings::count_one(&slots.strings, own, sid, slot.id);
            }
        }
    }
    own
}

// The own strings of a name-keyed subset: those of the slots, and of the names of the kept glyphs.
pub fn count_names(kept: &mut Kept<'_>, slots: &[Slot], own: Own) -> Own
    requires { (NamesReady kept.old (take 8 slots.now)) × (own ≡ own_of (slots_own (strings_of kept.old) (take 8 slots.now))) }
    ensures { (result ≡ own_of (all_own (strings_of kept.old) (take 8 slots.now) (order_of kept.old)))
        × (result.count ≤ 65544) × (result.total ≤ 4398583382016) × (Stays kept.old kept.new) }
{
    let font = kept.font;
    let strings = Items {
        bytes: font,
        ix: kept.o.f.strings,
    };
    let mut all = own;
    for i in 0..kept.o.count {
        let x = kept.word(i) / 65536;
        let id = own_strings::given_id(&strings, &slots[..8], all.count, Some(x));
        all = own_strings::count_one(&strings, all, x, id);
    }
    all
}

// Begins the String INDEX of a subset: its head, for all own strings, and the strings of the slots.
fn begin_strings(slots: &GivenSlots<'_, '_>, own: Own, out: &mut Out<'_>) -> Started
    requires { StringsRoom (items slots.now.strings) (take 8 slots.now.slots.now) out.old.bytes.now out.old.at own }
    ensures { StringsBegun out.old own (own_in slots.now) out.new result }
{
    let count = own.count;
    let total = own.total;
    let ix = index::index_for(out.at, count, total);
    index::put_head(&mut *out, count, total);
    out.at = ix.base + 1;
    let mut c = 0;
    for j in 0..8 {
        let slot = slots.slots[j];
        match slot.sid {
            None => {}
            Some(sid) => {
                if slot.id == 391 + c {
                    let text = find::own_text(&slots.strings, sid);
                    index::put_item(&mut *out, ix, c, text);
                    c += 1;
                }
            }
        }
    }
    Started { ix, count: c }
}

// Writes the String INDEX of a name-keyed subset.
pub fn put_strings(kept: &mut Kept<'_>, slots: &[Slot], own: Own, out: &mut Out<'_>)
    requires { (NamesReady kept.old (take 8 slots.now))
        × (IndexRoom out.old.bytes.now out.old.at (all_own (strings_of kept.old) (take 8 slots.now) (order_of kept.old)) own) }
    ensures { (Writes out.old (index_bytes (all_own (strings_of kept.old) (take 8 slots.now) (order_of kept.old))) out.new)
        × (Stays kept.old kept.new) }
{
    let font = kept.font;
    let strings = Items {
        bytes: font,
        ix: kept.o.f.strings,
    };
    let given = GivenSlots { strings, slots };
    let begun = begin_strings(&given, own, &mut *out);
    let ix = begun.ix;
    let mut c = begun.count;
    for i in 0..kept.o.count {
        let sid = kept.word(i) / 65536;
        let id = own_strings::given_id(&strings, &slots[..8], c, Some(sid));
        if id == 391 + c {
            let text = find::own_text(&strings, sid);
            index::put_item(&mut *out, ix, c, text);
            c += 1;
        }
    }
}

// The same of a CID-keyed subset, which has the strings of the slots alone.
pub fn put_slot_strings(slots: &GivenSlots<'_, '_>, own: Own, out: &mut Out<'_>)
    requires { IndexRoom out.old.bytes.now out.old.at (own_in slots.now) own }
    ensures { Writes out.old (index_bytes (own_in slots.now)) out.new }
{
    begin_strings(slots, own, out);
}

// Writes the charset of a name-keyed subset, by the new ids of the names.
pub fn put_charset_named(kept: &mut Kept<'_>, slots: &[Slot], out: &mut Out<'_>)
    requires { (NamesReady kept.old (take 8 slots.now))
        × (out.old.at + length (charset_bytes (names_for kept.old (take 8 slots.now))) ≤ length out.old.bytes.now) }
    ensures { (Writes out.old (charset_bytes (names_for kept.old (take 8 slots.now))) out.new) × (Stays kept.old kept.new) }
{
    let font = kept.font;
    let strings = Items {
        bytes: font,
        ix: kept.o.f.strings,
    };
    out.byte(0);
    let given = GivenSlots { strings, slots };
    let mut own = slots_own(&given);
    for i in 0..kept.o.count {
        let x = kept.word(i) / 65536;
        let id = own_strings::given_id(&strings, &slots[..8], own.count, Some(x));
        own = own_strings::count_one(&strings, own, x, id);
        if 0 < i {
            out.num(id, 2);
        }
    }
}
