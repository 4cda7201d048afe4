// The top DICT of a font, with the slots of the string ids that it names: what the top DICT of a subset is made from.
ghost use Rattle.std.specs.Prelude.{◌≤◌, length};
ghost use Rattle.octets.specs.Octets.{Octets};
ghost use Rattle.top_dict.specs.Top.{Filled};
ghost use Rattle.top_dict.specs.Alone.{filled_prop};

use dict::placed::Dict;
use own_strings::slots::Slot;

#[derive(Drop)]
pub struct Top<'a> {
    pub dict: Dict<'a>,
    pub slots: &'a [Slot; 8],
    ghost short: { length dict.bytes.now ≤ 67108864 },
    ghost octets: { Octets dict.bytes.now },
    ghost filled: { Filled slots.now } by { filled_prop slots.now },
}

impl<'a> Top<'a> {
    ghost use Rattle.std.specs.Prelude.{◌≡◌, take};

    // Its entries are found by one pass. The slots are the first eight.
    pub fn read(d: &'a [u8], slots: &'a [Slot]) -> Top<'a>
        requires { (length d.now ≤ 67108864) × (8 ≤ length slots.now) × (Filled (take 8 slots.now)) }
        ensures { (result.dict.bytes.now ≡ d.now) × (result.slots.now ≡ take 8 slots.now) }
    {
        let (dict, _) = dict::read_top(d);
        let Some(slots) = slots.first_chunk() else {
            unreachable!()
        };
        Top { dict, slots }
    }
}
