// The items of an INDEX, in the bytes that it lies in.
ghost use Rattle.index.specs.Good.{Good};
ghost use Rattle.index.specs.Alone.{good_prop};

use crate::Index;

#[derive(Clone, Copy)]
pub struct Items<'a> {
    pub bytes: &'a [u8],
    pub ix: Index,
    ghost good: { Good bytes.now ix } by { good_prop bytes.now ix },
}
