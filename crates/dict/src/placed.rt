// A DICT that was read: its bytes, where its entries stand in them, and what they say. Where nothing was noted, an entry is found by a pass of its own.
ghost use Rattle.dict.specs.Noted.{Placed};
ghost use Rattle.dict.specs.Alone.{placed_prop};

use crate::op::{Op, slot, slots};
use crate::{
    OperandsAt, Places, PrivateEntry, RosEntry, find_entry, operand, private_found, ros_at,
};
use decimal::{Decimal, id_of, is_two, offset_of, to_u32};
use refusal::Refusal;

#[derive(Clone, Copy)]
pub struct Dict<'a> {
    pub bytes: &'a [u8],
    pub places: Option<Places>,
    ghost placed: { Placed bytes.now places } by { placed_prop bytes.now places },
}

impl Dict<'_> {
    ghost use Rattle.std.specs.Prelude.{◌≡◌};
    ghost use Rattle.dict.specs.Lookup.{one_of, offset_in, private_in, id_in, cid_keyed, ros_in, cid_count_in, stroked_in, charstring_type_in};
    ghost use Rattle.dict.specs.Places.{place_of};
    ghost use Rattle.dict.specs.Held.{entries};

    // Where the last entry of an operator stands: as it was noted, or by a pass.
    pub fn place(&self, op: usize) -> Option<OperandsAt>
        ensures { result ≡ place_of op self.now.bytes.now }
    {
        if let Some(places) = &self.places {
            let j = slot(places.subsetting, op);
            if j < slots(places.subsetting) {
                return places.last[j];
            }
        }
        find_entry(self.bytes, op).0
    }

    // The one operand of an operator's last entry, if it has one.
    fn number(&self, op: usize) -> Option<Decimal>
        ensures { result ≡ one_of op (entries self.now) }
    {
        match self.place(op) {
            None => None,
            Some(OperandsAt { start, count }) => {
                if count == 1 {
                    return Some(operand(self.bytes, start, 0));
                }
                None
            }
        }
    }

    // Whether a font of this top DICT is CID-keyed: ROS is there, with whatever operands.
    pub fn is_cid_keyed(&self) -> bool
        ensures { result ≡ cid_keyed (entries self.now) }
    {
        match self.place(Op::ROS) {
            None => false,
            Some(OperandsAt { start: _, count: _ }) => true,
        }
    }

    // The offset that an entry holds, if it is there.
    pub fn offset(&self, op: usize) -> Result<Option<usize>, Refusal>
        ensures { result ≡ offset_in op (entries self.now) }
    {
        match self.number(op) {
            None => Ok(None),
            Some(v) => {
                let at = offset_of(v)?;
                Ok(Some(at))
            }
        }
    }

    // The string id that an entry holds, if it holds one.
    pub fn string_id(&self, op: usize) -> Option<usize>
        ensures { result ≡ id_in op (entries self.now) }
    {
        match self.number(op) {
            None => None,
            Some(v) => id_of(v),
        }
    }

    // CIDCount.
    pub fn cid_count(&self) -> usize
        ensures { result ≡ cid_count_in (entries self.now) }
    {
        match self.number(Op::CID_COUNT) {
            None => 8720,
            Some(v) => to_u32(v),
        }
    }

    // Whether PaintType is one number other than 0.
    pub fn is_stroked(&self) -> bool
        ensures { result ≡ stroked_in (entries self.now) }
    {
        match self.number(Op::PAINT_TYPE) {
            None => false,
            Some(v) => v.digits != 0,
        }
    }

    // A CharstringType other than 2 is refused.
    pub fn charstring_type(&self) -> Result<(), Refusal>
        ensures { result ≡ charstring_type_in (entries self.now) }
    {
        match self.number(Op::CHARSTRING_TYPE) {
            None => Ok(()),
            Some(v) => {
                if is_two(v.neg, v.digits, v.up, v.down) {
                    return Ok(());
                }
                Err(Refusal::Unsupported)
            }
        }
    }

    // Where the Private DICT is, if there is an entry for it, as the Rust's private_of takes it.
    pub fn private_of(&self) -> Result<Option<PrivateEntry>, Refusal>
        ensures { result ≡ private_in (entries self.now) }
    {
        private_found(self.bytes, self.place(Op::PRIVATE))
    }

    // The registry, ordering and supplement of a CID-keyed font, if ROS has three operands.
    pub fn ros(&self) -> Option<RosEntry>
        ensures { result ≡ ros_in (entries self.now) }
    {
        let d = self.bytes;
        match self.place(Op::ROS) {
            None => None,
            Some(OperandsAt { start, count }) => {
                if count == 3 {
                    return ros_at(
                        operand(d, start, 0),
                        operand(d, start, 1),
                        operand(d, start, 2),
                    );
                }
                None
            }
        }
    }
}
