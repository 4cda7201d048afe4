// A DICT of TN5176, section 4, read in place on a slice that is exactly its bytes (the Rust's Dict and module op in mod.rs), and its
// entries written (dict_op and DictWriter in write.rs).
#![tactic(auto)]

pub mod entries;
pub mod op;
pub mod placed;

ghost use Rattle.std.specs.Prelude.{◌≡◌, [], ◌∷◌, ◌+◌, ◌<◌, length, get_or, None};
ghost use Rattle.decimal.specs.Decimal.{nought};
ghost use Rattle.dict.specs.Dict.{operator_at, token_at, entry_at, dict_of};
ghost use Rattle.dict.specs.Op.{private};
ghost use Rattle.dict.specs.Lookup.{operands, private_as, private_in, ros_as};
ghost use Rattle.dict.specs.Places.{token_told, entry_told, entries_of, refusal_of, place_of, operands_at};
ghost use Rattle.dict.specs.Held.{ReadsDict, ReadsPlace, private_read};

use crate::entries::Entries;
use crate::op::{Op, slot};
use crate::placed::Dict;
use decimal::{Decimal, Signed, number_at, past_number, to_i32, to_u16, trunc};
use refusal::Refusal;

// What stands at a position of a DICT: an operand or an operator, with the position after it.
#[derive(Clone, Copy)]
pub enum TokenAt {
    Operand(usize),
    Operator { op: usize, next: usize },
}

// The entry at a position: where it starts, its operator, where that stands, how many operands are before it, and the position after it.
#[derive(Clone, Copy)]
pub struct EntryAt {
    pub start: usize,
    pub op: usize,
    pub end: usize,
    pub count: usize,
    pub next: usize,
}

// Where the operands of the last entry of an operator stand, and how many they are.
#[derive(Clone, Copy)]
pub struct OperandsAt {
    pub start: usize,
    pub count: usize,
}

// Where the last entries that reading asks for stand, or those that subsetting asks for, each in the slot of its operator. The slot behind is for all
// other operators. They stand before the flag: behind it they are not aligned, and a DICT of one entry takes half as long again.
#[derive(Clone, Copy)]
pub struct Places {
    pub last: [Option<OperandsAt>; 16],
    pub subsetting: bool,
}

// A Private entry: how long the Private DICT is, and where it is.
#[derive(Clone, Copy)]
pub struct PrivateEntry {
    pub size: usize,
    pub offset: usize,
}

// A ROS entry: two string ids and a number.
#[derive(Clone, Copy)]
pub struct RosEntry {
    pub registry: usize,
    pub ordering: usize,
    pub supplement: Signed,
}

// Zero is one value.
const NOUGHT: Decimal = Decimal {
    neg: false,
    digits: 0,
    up: 0,
    down: 0,
};

// The operator at a position: 12 with the byte after it, else 0 to 21.
fn operator_at(d: &[u8], at: usize) -> Result<TokenAt, Refusal>
    requires { at < length d.now }
    ensures { result ≡ token_told (operator_at d.now at) }
{
    let v = usize::from(d[at]);
    if v == 12 {
        if d.len() - at < 2 {
            return Err(Refusal::Truncated);
        }
        let e = usize::from(d[at + 1]);
        return Ok(TokenAt::Operator {
            op: Op::ESCAPE + e,
            next: at + 2,
        });
    }
    if v < 22 {
        return Ok(TokenAt::Operator {
            op: v,
            next: at + 1,
        });
    }
    Err(Refusal::Malformed)
}

// What stands at a position; an operand's value is not read.
fn token_at(d: &[u8], at: usize) -> Result<TokenAt, Refusal>
    requires { at < length d.now }
    ensures { result ≡ token_told (token_at d.now at) }
{
    match past_number(d, at)? {
        Some(next) => Ok(TokenAt::Operand(next)),
        None => operator_at(d, at),
    }
}

// The entry at a position.
pub fn read_entry(d: &[u8], start: usize) -> Result<EntryAt, Refusal>
    requires { start < length d.now }
    ensures { result ≡ entry_told start 0 (entry_at d.now start) }
{
    let mut at = start;
    let mut count: usize = 0;
    while at < d.len() {
        match token_at(d, at)? {
            TokenAt::Operand(next) => {
                count += 1;
                at = next;
            }
            TokenAt::Operator { op, next } => {
                return Ok(EntryAt {
                    start,
                    op,
                    end: at,
                    count,
                    next,
                });
            }
        }
    }
    Err(Refusal::Malformed)
}

// A DICT read in one pass: its refusal, or it with the places of the last entries that reading asks for.
pub fn read_dict(d: &[u8]) -> Result<Dict<'_>, Refusal>
    ensures { ReadsDict d.now result }
{
    note_entries(d, false)
}

// A top DICT read in one pass, with the places of the entries that subsetting asks for, and its refusal, if it is refused: nothing is noted of it then.
// (The cuts ask for no refusal, since reading a font has passed by then; the pair says that none is lost.)
pub fn read_top(d: &[u8]) -> (Dict<'_>, Option<Refusal>)
    ensures { (result.0.bytes.now ≡ d.now) × (result.1 ≡ refusal_of (dict_of d.now)) }
{
    match note_entries(d, true) {
        Ok(top) => (top, None),
        Err(n) => (nowhere(d), Some(n)),
    }
}

// The one pass of both.
fn note_entries(d: &[u8], subsetting: bool) -> Result<Dict<'_>, Refusal>
    ensures { ReadsDict d.now result }
{
    let mut last = [None; 16];
    for entry in Entries::new(d) {
        let entry = entry?;
        let j = slot(subsetting, entry.op);
        last[j] = Some(OperandsAt {
            start: entry.start,
            count: entry.count,
        });
    }
    Ok(Dict {
        bytes: d,
        places: Some(Places { subsetting, last }),
    })
}

// A DICT read in one pass for one operator alone: its refusal, or where the operator's last entry stands. Nothing else is noted: a font can have 65,535 Font
// DICTs of one entry each, and a table takes longer to fill than such a DICT to read.
pub fn read_one(d: &[u8], op: usize) -> Result<Option<OperandsAt>, Refusal>
    ensures { ReadsPlace d.now op result }
{
    let (found, refusal) = find_entry(d, op);
    match refusal {
        None => Ok(found),
        Some(n) => Err(n),
    }
}

// Where the Private DICT is that a DICT names, if it names one: one pass over the DICT, for its refusal, or that of the entry.
pub fn read_private(d: &[u8]) -> Result<Option<PrivateEntry>, Refusal>
    ensures { result ≡ private_read (dict_of d.now) }
{
    let found = read_one(d, Op::PRIVATE)?;
    private_found(d, found)
}

// Where the last entry of an operator stands, of those before a refusal of the DICT, and that refusal: one pass.
fn find_entry(d: &[u8], op: usize) -> (Option<OperandsAt>, Option<Refusal>)
    ensures { (result.0 ≡ place_of op d.now) × (result.1 ≡ refusal_of (dict_of d.now)) }
{
    let mut found = None;
    for entry in Entries::new(d) {
        match entry {
            Ok(entry) => {
                if entry.op == op {
                    found = Some(OperandsAt {
                        start: entry.start,
                        count: entry.count,
                    });
                }
            }
            Err(n) => return (found, Some(n)),
        }
    }
    (found, None)
}

// A DICT of which nothing is noted.
pub fn nowhere(d: &[u8]) -> Dict<'_>
    ensures { (result.bytes.now ≡ d.now) × (result.places ≡ None) }
{
    Dict {
        bytes: d,
        places: None,
    }
}

// The k-th operand from a position on, the first being the 0th; zero where there are not so many. How many are left is counted beside the cursor:
// behind a `for` the operand that is asked for would be read by the same match once more.
pub fn operand(d: &[u8], start: usize, k: usize) -> Decimal
    ensures { result ≡ get_or (operands_at (k + 1) d.now start) k nought }
{
    let mut at = start;
    let mut left = k;
    while at < d.len() {
        match number_at(d, at) {
            Ok(Some(number)) => {
                if left == 0 {
                    return number.value;
                }
                left -= 1;
                at = number.next;
            }
            Ok(None) => {
                return NOUGHT;
            }
            Err(_) => {
                return NOUGHT;
            }
        }
    }
    NOUGHT
}

// The Private entry whose operands stand at the place that was found, if it was found.
fn private_found(d: &[u8], found: Option<OperandsAt>) -> Result<Option<PrivateEntry>, Refusal>
    requires { found ≡ place_of private d.now }
    ensures { result ≡ private_in (entries_of d.now) }
{
    match found {
        None => Ok(None),
        Some(OperandsAt { start, count }) => {
            if count == 2 {
                return private_at(operand(d, start, 0), operand(d, start, 1));
            }
            Err(Refusal::Malformed)
        }
    }
}

// The size and the offset of a Private entry: the signs are tested first, then the fractions dropped.
fn private_at(size: Decimal, offset: Decimal) -> Result<Option<PrivateEntry>, Refusal>
    ensures { result ≡ private_as (operands (size ∷ offset ∷ [])) }
{
    let s = size.neg;
    let o = offset.neg;
    if s {
        return Err(Refusal::Malformed);
    }
    if o {
        return Err(Refusal::Malformed);
    }
    Ok(Some(PrivateEntry {
        size: trunc(size),
        offset: trunc(offset),
    }))
}

// The three operands of ROS.
fn ros_at(registry: Decimal, ordering: Decimal, supplement: Decimal) -> Option<RosEntry>
    ensures { result ≡ ros_as (operands (registry ∷ ordering ∷ supplement ∷ [])) }
{
    Some(RosEntry {
        registry: to_u16(registry),
        ordering: to_u16(ordering),
        supplement: to_i32(supplement),
    })
}
