// Room for a window of rows, lent: some keys, and as many rows.
ghost use Rattle.std.specs.Prelude.{◌≡◌, ◌≤◌, length, take};
ghost use Rattle.mask_rows.specs.MaskRows.{HasRoom};
ghost use Rattle.mask_rows.specs.Alone.{has_room_prop};

#[derive(Drop)]
pub struct Lent<'a> {
    pub keys: &'a mut [u64],
    pub bytes: &'a mut [u8],
    ghost room: { HasRoom keys.now bytes.now } by { has_room_prop keys.now bytes.now },
}

impl Lent<'_> {
    // The record in the first bytes.
    pub fn rows(&self, len: usize) -> &[u8]
        requires { len ≤ length self.now.bytes.now }
        ensures { result.now ≡ take len self.now.bytes.now }
    {
        &self.bytes[..len]
    }
}
