// A font of a set, read in place from the bytes of its top DICT: the Rust's CffProgram::from_top, in its order.
ghost use Rattle.std.specs.Prelude.{◌≡◌, true, false, ◌+◌, ◌*◌, ◌≤◌, ◌<◌, length};
ghost use Rattle.bits.specs.Bits.{words_for};
ghost use Rattle.dict.specs.Lookup.{offset_in};
ghost use Rattle.dict.specs.Held.{entries};
ghost use Rattle.cff.specs.Font.{fd_select_lem, ids_at, fds_at, encoding_got, cid_parts, name_parts};
ghost use Rattle.cff.specs.Reads.{ReadsItems, named_index, named_ids, named_encoding, ReadsIds, ReadsCoding, ReadsFds, ReadsParts, HasDicts, HasLocals, parts_by, HasTop, HasGlyphs, top_of, font_of, index_in_lem, ReadsFont};

use crate::ItemKind;
use crate::private::PrivateAt;
use crate::table::Table;
use charset::Charset;
use charset::fd_select::FdSelect;
use dict::op::Op;
use dict::placed::Dict;
use index::Index;
use refusal::Refusal;

// The font dictionaries of a font. Of a CID-keyed font: the DICTs of its FDs, and its FDSelect. Of a name-keyed one: its Private DICT, and
// its encoding. And how many words a bit for each local subroutine takes, of all Private DICTs together. One struct for both keyings, since definitions and loops
// read a name-keyed font as one of FD 0 for each glyph, and a CID-keyed one as of the standard encoding: an enum would be matched only to get at the same.
#[derive(Clone, Copy)]
pub struct Parts {
    pub dicts: Index,
    pub private: PrivateAt,
    pub select: FdSelect,
    pub encoding: usize,
    pub words: usize,
}

// A font, by positions: where its table starts in the file and how long it is, from where all other positions count; whether it is CID-keyed, its top DICT, its INDEXes, the ids of its glyphs, its font dictionaries and its encoding; and how many words the bits of its local subroutines take.
#[derive(Clone, Copy)]
pub struct Font {
    pub start: usize,
    pub len: usize,
    pub cid: bool,
    pub top: usize,
    pub top_end: usize,
    pub strings: Index,
    pub globals: Index,
    pub charstrings: Index,
    pub charset: Charset,
    pub dicts: Index,
    pub private: PrivateAt,
    pub select: FdSelect,
    pub encoding: usize,
    pub words: usize,
}

// The INDEX of a kind of items.
pub fn index_in(f: Font, kind: ItemKind) -> Index
    ensures { result ≡ index_in_lem kind f }
{
    match kind {
        ItemKind::Charstring => f.charstrings,
        ItemKind::Global => f.globals,
        ItemKind::Text => f.strings,
    }
}

// The INDEX that an operator of a DICT names, which must be there.
fn named_index(font: &[u8], d: &Dict<'_>, op: usize) -> Result<Index, Refusal>
    ensures { ReadsItems font.now (named_index font.now (entries d.now) op) result }
{
    match d.offset(op)? {
        None => Err(Refusal::Malformed),
        Some(v) => crate::private::items_at(font, v),
    }
}

// The ids of n glyphs by the charset at an offset; 0 is ISOAdobe, and 1 and 2 are the expert ones.
fn ids_at(font: &[u8], v: usize, n: usize) -> Result<Charset, Refusal>
    requires { (0 < n) × (n < 65536) }
    ensures { ReadsIds font.now n (ids_at font.now n v) result }
{
    if v == 0 {
        return Ok(charset::predefined());
    }
    if v < 3 {
        return Err(Refusal::Unsupported);
    }
    charset::read_charset(font, v, n)
}

// The ids of n glyphs of the font with the top DICT d.
fn read_ids(font: &[u8], d: &Dict<'_>, n: usize) -> Result<Charset, Refusal>
    requires { (0 < n) × (n < 65536) }
    ensures { ReadsIds font.now n (named_ids font.now (entries d.now) n) result }
{
    let at = d.offset(Op::CHARSET)?;
    ids_at(font, at.unwrap_or(0), n)
}

// The FDs of n glyphs of the font with the top DICT d.
fn read_fds(font: &[u8], d: &Dict<'_>, n: usize) -> Result<FdSelect, Refusal>
    requires { (n < 65536) }
    ensures { ReadsFds font.now n (fds_at font.now n (offset_in fd_select_lem (entries d.now))) result }
{
    match d.offset(Op::FD_SELECT)? {
        None => Ok(charset::fd_select::no_fd_select()),
        Some(v) => charset::fd_select::read_fd_select(font, v, n),
    }
}

// The encoding at an offset: 0 is the standard one, and 1 the expert one.
fn encoding_at(font: &[u8], v: usize) -> Result<usize, Refusal>
    ensures { ReadsCoding font.now (encoding_got font.now v) result }
{
    if v < 2 {
        return Ok(v);
    }
    charset::encoding::check_encoding(font, v)?;
    Ok(v)
}

// The encoding of the font with the top DICT d.
fn read_encoding(font: &[u8], d: &Dict<'_>) -> Result<usize, Refusal>
    ensures { ReadsCoding font.now (named_encoding font.now (entries d.now)) result }
{
    let at = d.offset(Op::ENCODING)?;
    encoding_at(font, at.unwrap_or(0))
}

// The parts of a CID-keyed font whose FD array and Private DICTs were read: its FDSelect, and that no FD is past the array.
fn fd_parts(
    font: &Table<'_>,
    d: &Dict<'_>,
    n: usize,
    dicts: Index,
    total: usize,
) -> Result<Parts, Refusal>
    requires { (n < 65536) × HasLocals font.now (entries d.now) dicts total }
    ensures { ReadsParts font.now true n (cid_parts font.now (entries d.now) n) result }
{
    let bytes = font.bytes;
    let select = read_fds(bytes, d, n)?;
    if charset::fd_select::fds_below(bytes, select, n, dicts.count) {
        return Ok(Parts {
            dicts,
            private: crate::private::no_private(),
            select,
            encoding: 0,
            words: total,
        });
    }
    Err(Refusal::Malformed)
}

// The parts of a CID-keyed font whose FD array was read.
fn dict_parts(font: &Table<'_>, d: &Dict<'_>, n: usize, dicts: Index) -> Result<Parts, Refusal>
    requires { (n < 65536) × HasDicts font.now (entries d.now) dicts }
    ensures { ReadsParts font.now true n (cid_parts font.now (entries d.now) n) result }
{
    let total = crate::private::read_privates(font, dicts)?;
    if dicts.count == 0 {
        return Err(Refusal::Malformed);
    }
    fd_parts(font, d, n, dicts, total)
}

// The parts of the CID-keyed font with the top DICT d.
fn cid_parts(font: &Table<'_>, d: &Dict<'_>, n: usize) -> Result<Parts, Refusal>
    requires { (n < 65536) }
    ensures { ReadsParts font.now true n (cid_parts font.now (entries d.now) n) result }
{
    let dicts = named_index(font.bytes, d, Op::FD_ARRAY)?;
    dict_parts(font, d, n, dicts)
}

// The parts of the name-keyed font with the top DICT d.
fn name_parts(font: &Table<'_>, d: &Dict<'_>, n: usize) -> Result<Parts, Refusal>
    ensures { ReadsParts font.now false n (name_parts font.now (entries d.now) n) result }
{
    let private = crate::private::named_private(font, d)?;
    let encoding = read_encoding(font.bytes, d)?;
    let locals = private.locals;
    Ok(Parts {
        dicts: crate::private::no_items(),
        private,
        select: charset::fd_select::no_fd_select(),
        encoding,
        words: bits::words_for(locals.count),
    })
}

// The parts of a font, by its keying.
fn read_parts(font: &Table<'_>, d: &Dict<'_>, n: usize, cid: bool) -> Result<Parts, Refusal>
    requires { (n < 65536) }
    ensures { ReadsParts font.now cid n (parts_by cid font.now (entries d.now) n) result }
{
    if cid {
        return cid_parts(font, d, n);
    }
    name_parts(font, d, n)
}

// The font whose top DICT lies from top to end and was read, as were its charstrings.
fn glyphs_at(
    font: &[u8],
    top: usize,
    end: usize,
    d: &Dict<'_>,
    strings: Index,
    globals: Index,
    charstrings: Index,
) -> Result<Font, Refusal>
    requires { HasTop font.now top end strings globals × HasGlyphs font.now top end charstrings × (d.now.bytes.now ≡ top_of font.now top end) }
    ensures { ReadsFont font.now (font_of font.now strings globals top end) result }
{
    let n = charstrings.count;
    if n == 0 {
        return Err(Refusal::Malformed);
    }
    let charset = read_ids(font, d, n)?;
    let cid = d.is_cid_keyed();
    let parts = read_parts(&Table { bytes: font }, d, n, cid)?;
    Ok(Font {
        start: 0,
        len: font.len(),
        cid,
        top,
        top_end: end,
        strings,
        globals,
        charstrings,
        charset,
        dicts: parts.dicts,
        private: parts.private,
        select: parts.select,
        encoding: parts.encoding,
        words: parts.words,
    })
}

// The font whose top DICT lies from top to end.
pub fn font_at(
    font: &[u8],
    top: usize,
    end: usize,
    strings: Index,
    globals: Index,
) -> Result<Font, Refusal>
    requires { HasTop font.now top end strings globals }
    ensures { ReadsFont font.now (font_of font.now strings globals top end) result }
{
    let d = dict::read_dict(&font[top..end])?;
    d.charstring_type()?;
    let charstrings = named_index(font, &d, Op::CHARSTRINGS)?;
    glyphs_at(font, top, end, &d, strings, globals, charstrings)
}

// W of a font: 2 × glyphs, and the words of a bit for each global and each local subroutine.
pub fn work_size(f: Font) -> usize
    requires { (f.charstrings.count < 65536) × (f.globals.count < 65536) × (f.words ≤ 4294967296) }
    ensures { result ≡ 2 * f.charstrings.count + words_for f.globals.count + f.words }
{
    let charstrings = f.charstrings;
    let globals = f.globals;
    2 * charstrings.count + bits::words_for(globals.count) + f.words
}
