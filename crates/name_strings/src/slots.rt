// The slots of the strings that a top DICT names, with the strings.
ghost use Rattle.std.specs.Prelude.{take};
ghost use Rattle.index.specs.Items.{items};
ghost use Rattle.own_strings.specs.Ready.{SlotsGiven};
ghost use Rattle.name_strings.specs.Alone.{slots_given_prop};

use index::items::Items;
use own_strings::slots::Slot;

// Slots, of which the first eight have their new ids, and the strings of the font that they are ids of.
#[derive(Clone, Copy)]
pub struct GivenSlots<'a, 'b> {
    pub strings: Items<'a>,
    pub slots: &'b [Slot],
    ghost given: { SlotsGiven (items strings) (take 8 slots.now) } by { slots_given_prop (items strings) (take 8 slots.now) },
}
