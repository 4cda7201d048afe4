// A set of fonts, read in place: the Rust's parse_fonts. Every font of the set is read, and the first is used.
ghost use Rattle.std.specs.Prelude.{Ok, [], ◌≤◌, ◌<◌, length, get_or};
ghost use Rattle.index.specs.Index.{items_of};
ghost use Rattle.index.specs.Place.{StartsAt};
ghost use Rattle.cff.specs.Font.{set_at, read_table};
ghost use Rattle.cff.specs.Reads.{Holds, ReadsFont, HasSet, font_with, fonts_of, behind_tops};
ghost use Rattle.cff.specs.File.{InFile, HasFont, ReadsFile};
ghost use Rattle.cff.specs.Loaded.{Opens, Loads};

use crate::font::Font;
use crate::loaded::Loaded;
use crate::opened::Opened;
use crate::private::items_at;
use crate::table::Table;
use index::Index;
use opentype::TableAt;
use refusal::Refusal;

// The k-th font of a set, whose top DICTs are the items of an INDEX.
fn font_of(
    font: &[u8],
    tops: Index,
    k: usize,
    strings: Index,
    globals: Index,
) -> Result<Font, Refusal>
    requires { HasSet font.now tops strings globals × (k < tops.count) }
    ensures { ReadsFont font.now (font_with font.now strings globals (get_or (items_of font.now tops) k [])) result }
{
    let top = tops.base + index::offset(font, tops, k);
    let end = tops.base + index::offset(font, tops, k + 1);
    crate::font::font_at(font, top, end, strings, globals)
}

// Reads the fonts of a set behind its first, for their refusals.
fn read_others(
    font: &[u8],
    tops: Index,
    strings: Index,
    globals: Index,
    first: Font,
) -> Result<Font, Refusal>
    requires { HasSet font.now tops strings globals × (0 < tops.count)
        × ReadsFont font.now (font_with font.now strings globals (get_or (items_of font.now tops) 0 [])) (Ok first) }
    ensures { ReadsFont font.now (fonts_of font.now strings globals (items_of font.now tops)) result }
{
    for k in 1..tops.count {
        font_of(font, tops, k, strings, globals)?;
    }
    Ok(first)
}

// The first font of a set; a set of none is malformed.
fn read_set(font: &[u8], tops: Index, strings: Index, globals: Index) -> Result<Font, Refusal>
    requires { HasSet font.now tops strings globals }
    ensures { ReadsFont font.now (fonts_of font.now strings globals (items_of font.now tops)) result }
{
    let n = tops.count;
    if n == 0 {
        return Err(Refusal::Malformed);
    }
    let first = font_of(font, tops, 0, strings, globals)?;
    read_others(font, tops, strings, globals, first)
}

// The set whose names, of which there are so many, and top DICTs were read: its strings and global subroutines, then its fonts.
fn behind_tops(font: &Table<'_>, names: usize, tops: Index) -> Result<Font, Refusal>
    requires { Holds font.now tops }
    ensures { ReadsFont font.now (behind_tops font.now names (items_of font.now tops) tops.end) result }
{
    let bytes = font.bytes;
    let strings = items_at(bytes, tops.end)?;
    let globals = items_at(bytes, strings.end)?;
    if names == tops.count {
        return read_set(bytes, tops, strings, globals);
    }
    Err(Refusal::Malformed)
}

// The set behind the header.
fn set_at(font: &Table<'_>, at: usize) -> Result<Font, Refusal>
    ensures { ReadsFont font.now (set_at font.now at) result }
{
    let bytes = font.bytes;
    let names = items_at(bytes, at)?;
    let tops = items_at(bytes, names.end)?;
    behind_tops(font, names.count, tops)
}

// The first font of the set that the bytes of a table are, of which every font is read; or the refusal.
fn read_table(font: &[u8]) -> Result<Font, Refusal>
    ensures { ReadsFont font.now (read_table font.now) result }
{
    let n = font.len();
    if n < 4 {
        return Err(Refusal::Truncated);
    }
    let header = reader::read_header(font);
    let major = header.major;
    if major == 1 {
        return set_at(&Table { bytes: font }, header.size);
    }
    Err(Refusal::Unsupported)
}

// The font of a file, an OpenType one or a bare font; or the refusal.
pub fn read_font(file: &[u8]) -> Result<Font, Refusal>
    ensures { ReadsFile file.now result }
{
    let TableAt { start, len } = opentype::place_of(file)?;
    let mut f = read_table(opentype::table(file, start, len))?;
    f.start = start;
    f.len = len;
    Ok(f)
}

// The bytes of a font that was read: the part of the file from which its positions count.
pub fn table(file: &[u8], f: Font) -> &[u8]
    requires { HasFont file.now f }
    ensures { (InFile file.now f result.now) × (StartsAt result file.entry f.start) }
{
    opentype::table(file, f.start, f.len)
}

// The font of a file, with the file; or the refusal.
pub fn read(file: &[u8]) -> Result<Opened<'_>, Refusal>
    ensures { Opens file.now result }
{
    let f = read_font(file)?;
    let loaded = Loaded {
        bytes: table(file, f),
        f,
    };
    Ok(Opened { file, loaded })
}

// The font of a file with the bytes of its table; or the refusal.
pub fn load(file: &[u8]) -> Result<Loaded<'_>, Refusal>
    ensures { Loads file.now result }
{
    Ok(read(file)?.loaded)
}
