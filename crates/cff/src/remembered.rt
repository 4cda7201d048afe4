// The Private DICTs of FDs, read one after the other and remembered, so that FDs that share a few are read in one pass.
ghost use Rattle.std.specs.Prelude.{◌≡◌, ◌<◌, All};
ghost use Rattle.cff.specs.Reads.{Known, recall, free_after};
ghost use Rattle.cff.specs.Alone.{all_known_prop};

use crate::private::{PrivateWords, SeenPrivate, private_data};
use crate::table::Table;
use dict::PrivateEntry;
use refusal::Refusal;

// The last 128 that were read, and the place for the next.
#[derive(Drop)]
pub struct Remembered<'a> {
    pub font: &'a Table<'a>,
    pub last: [PrivateWords; 128],
    pub free: usize,
    ghost known: { All (Known font.now) last } by { all_known_prop font.now last },
    ghost within: { free < 128 },
}

// What stands where none was put: that no Private DICT is named is taken as one of no bytes at 0.
const NONE: PrivateWords = PrivateWords {
    size: 0,
    offset: 0,
    words: 0,
};

// The place of the first that has this size and this offset, if one has.
fn recall(last: &[PrivateWords; 128], size: usize, offset: usize) -> Option<usize>
    ensures { result ≡ recall last.now size offset }
{
    last.iter()
        .position(|q| q.size == size && q.offset == offset)
}

// The place for the next Private DICT that is read, after one that is remembered at a place: those read first are forgotten first.
fn free_after(free: usize, place: usize) -> usize
    requires { free < 128 }
    ensures { (result ≡ free_after free place) × (result < 128) }
{
    if place == free {
        if free == 127 {
            return 0;
        }
        return free + 1;
    }
    free
}

impl<'a> Remembered<'a> {
    ghost use Rattle.std.specs.Prelude.{◌≤◌};
    ghost use Rattle.cff.specs.Font.{private_data};
    ghost use Rattle.cff.specs.Reads.{fd_private, ReadsNext};

    // None so far.
    pub fn new(font: &'a Table<'a>) -> Remembered<'a>
        ensures { result.font.now ≡ font.now }
    {
        Remembered {
            font,
            last: [NONE; 128],
            free: 0,
        }
    }

    // The Private DICT of a size at an offset, read for its refusal and the words of its local subroutines.
    fn locals_of(&self, size: usize, offset: usize) -> Result<SeenPrivate, Refusal>
        requires { (size ≤ 4294967296) × (offset ≤ 4294967296) }
        ensures { ReadsNext self.now.font.now (private_data self.now.font.now size offset) result }
    {
        let q = private_data(self.font, size, offset)?;
        let locals = q.locals;
        let words = bits::words_for(locals.count);
        Ok(SeenPrivate {
            read: PrivateWords {
                size,
                offset,
                words,
            },
            place: self.free,
        })
    }

    // The same, as it is remembered; where it is not, it is read.
    fn seen_private(&self, size: usize, offset: usize) -> Result<SeenPrivate, Refusal>
        requires { (size ≤ 4294967296) × (offset ≤ 4294967296) }
        ensures { ReadsNext self.now.font.now (private_data self.now.font.now size offset) result }
    {
        match recall(&self.last, size, offset) {
            Some(place) => Ok(SeenPrivate {
                read: self.last[place],
                place,
            }),
            None => self.locals_of(size, offset),
        }
    }

    // The Private DICT of the FD whose bytes are d: no more is asked of d. Where d names none, it is one of no bytes at 0.
    pub fn fd_private(&self, d: &[u8]) -> Result<SeenPrivate, Refusal>
        ensures { ReadsNext self.now.font.now (fd_private self.now.font.now d.now) result }
    {
        match dict::read_private(d)? {
            None => self.seen_private(0, 0),
            Some(PrivateEntry { size, offset }) => self.seen_private(size, offset),
        }
    }

    // One that was read is remembered: those read first are forgotten first.
    pub fn note(&mut self, l: SeenPrivate)
        requires { (Known self.old.font.now l.read) × (l.place < 128) }
        ensures { self.new.font.now ≡ self.old.font.now }
    {
        let place = l.place;
        self.last[place] = l.read;
        self.free = free_after(self.free, place);
    }
}
