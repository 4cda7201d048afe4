// A Private DICT that was read, with the bytes of the font that it lies in.
ghost use Rattle.std.specs.Prelude.{◌≤◌, length};
ghost use Rattle.cff.specs.Reads.{GoodPrivate};
ghost use Rattle.private_dicts.specs.Alone.{good_private_prop};

use cff::private::PrivateAt;

#[derive(Clone, Copy)]
pub struct PrivateDict<'a> {
    pub bytes: &'a [u8],
    pub q: PrivateAt,
    ghost short: { length bytes.now ≤ 67108864 },
    ghost good: { GoodPrivate bytes.now q } by { good_private_prop bytes.now q },
}
