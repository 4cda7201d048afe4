// The entries of a DICT, one after the other, up to its end or to a refusal, which is the last.
ghost use Rattle.dict.specs.Entries.{told_at};

use crate::{EntryAt, read_entry};
use refusal::Refusal;

// What is left of a pass: the bytes of the DICT, and the position of the next entry.
#[derive(Clone, Copy)]
pub struct Entries<'a> {
    bytes: &'a [u8],
    at: usize,
}

impl<'a> Entries<'a> {
    ghost use Rattle.std.specs.Prelude.{◌≡◌};
    ghost use Rattle.dict.specs.Ahead.{entries_left};

    // Before the first entry.
    pub fn new(bytes: &'a [u8]) -> Entries<'a>
        ensures { entries_left result ≡ told_at bytes.now 0 }
    {
        Entries { bytes, at: 0 }
    }
}

impl<'a> Iterator for Entries<'a> {
    ghost use Rattle.std.specs.Iterator.{YieldsFirst, item_count};
    ghost use Rattle.dict.specs.Ahead.{entries_left};

    type Item = Result<EntryAt, Refusal>;

    ghost next_gives = { YieldsFirst entries_left };

    ghost remaining = { item_count entries_left };

    #[inline(always)]
    fn next(&mut self) -> Option<Result<EntryAt, Refusal>> {
        if self.bytes.len() <= self.at {
            return None;
        }
        match read_entry(self.bytes, self.at) {
            Ok(entry) => {
                self.at = entry.next;
                Some(Ok(entry))
            }
            Err(refusal) => {
                self.at = self.bytes.len();
                Some(Err(refusal))
            }
        }
    }
}
