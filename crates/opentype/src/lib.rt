// Where the font stands in a file: the table `CFF ` of an OpenType file, or the file itself.
#![tactic(auto)]

ghost use Rattle.std.specs.Prelude.{◌≡◌, ◌+◌, ◌*◌, ◌≤◌, ◌<◌, length};
ghost use Rattle.octets.specs.Lists.{part_of};
ghost use Rattle.index.specs.Place.{StartsAt};
ghost use Rattle.opentype.specs.Opentype.{table_of, row_from_lem, place_of};

use refusal::Refusal;

// `OTTO` and `CFF `, as numbers of four bytes.
const OTTO: usize = 0x4f54544f;

const CFF_TAG: usize = 0x43464620;

// Where the font stands in a file: the start and the length of its table.
#[derive(Clone, Copy)]
pub struct TableAt {
    pub start: usize,
    pub len: usize,
}

// The table of a row.
fn table_of(file: &[u8], start: usize, len: usize) -> Result<TableAt, Refusal>
    requires { (start < 4294967296) × (len < 4294967296) }
    ensures { result ≡ table_of file.now start len }
{
    if file.len() < start + len {
        return Err(Refusal::Truncated);
    }
    Ok(TableAt { start, len })
}

// The first of n rows, from a place on, that is tagged `CFF `.
fn row_from(file: &[u8], n: u16, from: usize) -> Result<TableAt, Refusal>
    requires { from + 16 * n ≤ length file.now }
    ensures { result ≡ row_from_lem file.now n from }
{
    for i in 0..n as usize {
        let at = from + 16 * i;
        if octets::u32_at(file, at) == CFF_TAG {
            return table_of(
                file,
                octets::u32_at(file, at + 8),
                octets::u32_at(file, at + 12),
            );
        }
    }
    Err(Refusal::NoTable)
}

// Where the font stands in a file.
pub fn place_of(file: &[u8]) -> Result<TableAt, Refusal>
    ensures { result ≡ place_of file.now }
{
    let n = file.len();
    if octets::LONGEST < n {
        return Err(Refusal::TooLong);
    }
    if n < 4 {
        return Ok(TableAt { start: 0, len: n });
    }
    if octets::u32_at(file, 0) != OTTO {
        return Ok(TableAt { start: 0, len: n });
    }
    if n < 12 {
        return Err(Refusal::Truncated);
    }
    let count = octets::u16_at(file, 4);
    if n < 12 + 16 * count {
        return Err(Refusal::Truncated);
    }
    row_from(file, count as u16, 12)
}

// The bytes of a table that lies in a file: the part of the file itself.
pub fn table(file: &[u8], start: usize, len: usize) -> &[u8]
    requires { start + len ≤ length file.now }
    ensures { (result.now ≡ part_of file.now start len) × (StartsAt result file.entry start) }
{
    let end = start + len;
    &file[start..end]
}
