// The strings of a subset (the Rust's Strings in write.rs; document 01, 'Layout'): which texts are its own, and the new id of a string id
// that it uses. The texts are used in order: those of eight slots of the top DICT (here), then the names of the glyphs (name_strings).
#![tactic(auto)]

pub mod slots;

ghost use Rattle.std.specs.Prelude.{◌≡◌, ◌≤◌, ◌<◌, length, take, drop, get_or, None};
ghost use Rattle.index.specs.Items.{items};
ghost use Rattle.dict.specs.Places.{entries_of};
ghost use Rattle.dict.specs.Held.{entries};
ghost use Rattle.strings.specs.Strings.{sid_of};
ghost use Rattle.own_strings.specs.Slots.{sids_of, ids_of, slots_of, slot_ids, own_of, slots_own, slot_has, slot_with, given_id, counted};

use crate::slots::Slot;
use dict::placed::Dict;
use index::items::Items;

// How many own strings there are, and their bytes together.
#[derive(Clone, Copy)]
pub struct Own {
    pub count: usize,
    pub total: usize,
}

// The string id that a top DICT names for slot j: those of registry and ordering, which only a CID-keyed font has, and then those of the six entries.
fn named_sid(d: &Dict<'_>, cid: bool, j: usize) -> Option<usize>
    requires { j < 8 }
    ensures { result ≡ get_or (slots_of cid (entries d.now)) j None }
{
    if 2 <= j {
        return d.string_id(dict::op::copied_top_string(j - 2));
    }
    if !cid {
        return None;
    }
    match d.ros() {
        None => None,
        Some(entry) => {
            if j == 0 {
                return Some(entry.registry);
            }
            Some(entry.ordering)
        }
    }
}

// Puts the string ids of a top DICT, refused or not, into eight slots. Their new ids and what is behind them stay.
pub fn put_slots(d: &[u8], cid: bool, slots: &mut [Slot])
    requires { 8 ≤ length slots.old }
    ensures { (sids_of (take 8 slots.new) ≡ slots_of cid (entries_of d.now)) × (ids_of slots.new ≡ ids_of slots.old)
        × (drop 8 slots.new ≡ drop 8 slots.old) }
{
    let (top, _) = dict::read_top(d);
    for j in 0..8 {
        slots[j].sid = named_sid(&top, cid, j);
    }
}

// Whether a slot has a text, which is not standard.
fn slot_has(strings: &Items<'_>, text: &[u8], sid: Option<usize>) -> bool
    requires { sid_of text.now ≡ None }
    ensures { result ≡ slot_has (items strings.now) text.now sid }
{
    match sid {
        None => false,
        Some(x) => find::is_named(strings, x, text, None),
    }
}

// The first of the slots that has a text, which is not standard, if one has.
fn slot_with(strings: &Items<'_>, text: &[u8], slots: &[Slot]) -> Option<usize>
    requires { sid_of text.now ≡ None }
    ensures { result ≡ slot_with (items strings.now) text.now (sids_of slots.now) }
{
    slots
        .iter()
        .position(|slot| slot_has(strings, text, slot.sid))
}

// The new id of a slot's string id, after some slots that have theirs, and count own strings: 0 where it has none.
pub fn given_id(strings: &Items<'_>, slots: &[Slot], count: usize, sid: Option<usize>) -> usize
    requires { count < 4294967296 }
    ensures { result ≡ given_id (items strings.now) (sids_of slots.now) (ids_of slots.now) count sid }
{
    let Some(x) = sid else {
        return 0;
    };
    if x < 391 {
        return x;
    }
    let text = find::own_text(strings, x);
    match strings::sid_of(text) {
        Some(k) => k,
        None => match slot_with(strings, text, slots) {
            Some(j) => slots[j].id,
            None => 391 + count,
        },
    }
}

// The own strings counted, once a string id with a new id was passed.
pub fn count_one(strings: &Items<'_>, own: Own, x: usize, id: usize) -> Own
    requires { (own.count < 4294967296) × (own.total < 4611686018427387904) }
    ensures { result ≡ counted (items strings.now) own x id }
{
    let count = own.count;
    let total = own.total;
    if x < 391 {
        return Own { count, total };
    }
    if id != 391 + count {
        return Own { count, total };
    }
    let text = find::own_text(strings, x);
    Own {
        count: count + 1,
        total: total + text.len(),
    }
}

// Puts the new ids of eight slots; the own strings so far. What is behind them stays.
pub fn put_slot_ids(strings: &Items<'_>, slots: &mut [Slot]) -> Own
    requires { (length strings.now.bytes.now ≤ 67108864) × (8 ≤ length slots.old) }
    ensures { (sids_of slots.new ≡ sids_of slots.old)
        × (ids_of (take 8 slots.new) ≡ slot_ids (slots_own (items strings.now) (take 8 slots.old)) (items strings.now) (sids_of (take 8 slots.old)))
        × (drop 8 slots.new ≡ drop 8 slots.old)
        × (result ≡ own_of (slots_own (items strings.now) (take 8 slots.old))) }
{
    let mut own = Own { count: 0, total: 0 };
    for j in 0..8 {
        let sid = slots[j].sid;
        let id = given_id(strings, &slots[..j], own.count, sid);
        if let Some(x) = sid {
            own = count_one(strings, own, x, id);
        }
        slots[j] = Slot { sid, id };
    }
    own
}
