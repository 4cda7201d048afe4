// Private DICTs (TN5176, section 15) and their local subroutines (section 16), read in place: the Rust's private_of and PrivateDict::parse.
ghost use Rattle.std.specs.Prelude.{◌≡◌, ◌≤◌, IfOk};
ghost use Rattle.index.specs.Index.{empty_at, index_at, items_of};
ghost use Rattle.dict.specs.Op.{subrs};
ghost use Rattle.dict.specs.Lookup.{offset_in, private_in};
ghost use Rattle.dict.specs.Places.{entries_of};
ghost use Rattle.dict.specs.Held.{entries};
ghost use Rattle.cff.specs.Font.{locals_at, private_data, private_at, privates_at};
ghost use Rattle.cff.specs.Reads.{Holds, ReadsItems, no_private, ReadsPrivate, ReadsLocals};

use crate::remembered::Remembered;
use crate::table::Table;
use dict::PrivateEntry;
use dict::op::Op;
use dict::placed::Dict;
use index::Index;
use refusal::Refusal;

// A Private DICT in a font: where it starts, its bytes, and its local subroutines.
#[derive(Clone, Copy)]
pub struct PrivateAt {
    pub start: usize,
    pub size: usize,
    pub locals: Index,
}

// A Private DICT that was read, by its size and offset: how many words a bit for each of its local subroutines takes.
#[derive(Clone, Copy)]
pub struct PrivateWords {
    pub size: usize,
    pub offset: usize,
    pub words: usize,
}

// One that was read, and the place where it is remembered.
#[derive(Clone, Copy)]
pub struct SeenPrivate {
    pub read: PrivateWords,
    pub place: usize,
}

// An INDEX of no item.
pub fn no_items() -> Index
    ensures { result ≡ empty_at 0 }
{
    Index {
        count: 0,
        size: 1,
        table: 1,
        base: 1,
        end: 2,
    }
}

// An empty Private DICT, with no local subroutines.
pub fn no_private() -> PrivateAt
    ensures { result ≡ no_private }
{
    PrivateAt {
        start: 0,
        size: 0,
        locals: no_items(),
    }
}

// The INDEX at a place of a font, any place: its items can be had.
pub(crate) fn items_at(font: &[u8], at: usize) -> Result<Index, Refusal>
    ensures { (result ≡ index_at font.now at) × (IfOk result (Holds font.now)) }
{
    index::read_index(font, at)
}

// The local subroutines of the Private DICT d, which is at an offset.
fn locals_at(font: &Table<'_>, offset: usize, d: &Dict<'_>) -> Result<Index, Refusal>
    requires { offset ≤ 4294967296 }
    ensures { ReadsItems font.now (locals_at font.now offset (offset_in subrs (entries d.now))) result }
{
    let bytes = font.bytes;
    match d.offset(Op::SUBRS)? {
        None => Ok(no_items()),
        Some(relative) => items_at(bytes, offset + relative),
    }
}

// The Private DICT of a size at an offset.
pub(crate) fn private_data(
    font: &Table<'_>,
    size: usize,
    offset: usize,
) -> Result<PrivateAt, Refusal>
    requires { (size ≤ 4294967296) × (offset ≤ 4294967296) }
    ensures { ReadsPrivate font.now (private_data font.now size offset) result }
{
    let bytes = font.bytes;
    let end = offset + size;
    if bytes.len() < end {
        return Err(Refusal::Truncated);
    }
    let d = dict::read_dict(&bytes[offset..end])?;
    let locals = locals_at(font, offset, &d)?;
    Ok(PrivateAt {
        start: offset,
        size,
        locals,
    })
}

// The Private DICT that a DICT names; an empty one where it names none.
pub fn private_at(font: &Table<'_>, d: &[u8]) -> Result<PrivateAt, Refusal>
    ensures { ReadsPrivate font.now (private_at font.now (private_in (entries_of d.now))) result }
{
    named_private(font, &dict::nowhere(d))
}

// The same, of a DICT that was read.
pub fn named_private(font: &Table<'_>, d: &Dict<'_>) -> Result<PrivateAt, Refusal>
    ensures { ReadsPrivate font.now (private_at font.now (private_in (entries d.now))) result }
{
    match d.private_of()? {
        // The empty one lies in every table.
        None => {
            let _ = &font.bytes;
            Ok(no_private())
        }
        Some(PrivateEntry { size, offset }) => private_data(font, size, offset),
    }
}

// The Private DICTs of the FDs, whose DICTs are the items of an INDEX: one after the other, for how many words the bits of their local subroutines take
// together, each rounded up.
pub fn read_privates(font: &Table<'_>, dicts: Index) -> Result<usize, Refusal>
    requires { Holds font.now dicts }
    ensures { ReadsLocals (privates_at font.now (items_of font.now dicts)) result }
{
    let mut seen = Remembered::new(&*font);
    let mut total: usize = 0;
    for k in 0..dicts.count {
        let d = index::item(font.bytes, dicts, k);
        let l = seen.fd_private(d)?;
        seen.note(l);
        total += l.read.words;
    }
    Ok(total)
}
