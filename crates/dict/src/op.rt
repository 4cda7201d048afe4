// The operators of a DICT (TN5176, section 4; the Rust's module op), and those that a subset carries over.
ghost use Rattle.std.specs.Prelude.{◌≡◌, ◌≤◌, ◌<◌, length, get_or};
ghost use Rattle.dict.specs.Op.{copied_top_entries, copied_top_strings};
ghost use Rattle.dict.specs.Noted.{asked_by_reading, asked_by_subsetting, asked, slot_of};

// The operators that reader and writer name: the byte of a one-byte operator, or 3072 + e for the escape `12 e`.
#[derive(Clone, Copy)]
pub struct Op;

impl Op {
    pub const VERSION: usize = 0;

    pub const NOTICE: usize = 1;

    pub const FULL_NAME: usize = 2;

    pub const FAMILY_NAME: usize = 3;

    pub const WEIGHT: usize = 4;

    pub const FONT_BBOX: usize = 5;

    pub const CHARSET: usize = 15;

    pub const ENCODING: usize = 16;

    pub const CHARSTRINGS: usize = 17;

    pub const PRIVATE: usize = 18;

    pub const SUBRS: usize = 19;

    // What an escape is counted from: the Rust's 0x0c00, which its byte is or-ed to.
    pub const ESCAPE: usize = 3072;

    pub const COPYRIGHT: usize = Op::ESCAPE;

    pub const IS_FIXED_PITCH: usize = Op::ESCAPE + 1;

    pub const ITALIC_ANGLE: usize = Op::ESCAPE + 2;

    pub const UNDERLINE_POSITION: usize = Op::ESCAPE + 3;

    pub const UNDERLINE_THICKNESS: usize = Op::ESCAPE + 4;

    pub const PAINT_TYPE: usize = Op::ESCAPE + 5;

    pub const CHARSTRING_TYPE: usize = Op::ESCAPE + 6;

    pub const FONT_MATRIX: usize = Op::ESCAPE + 7;

    pub const STROKE_WIDTH: usize = Op::ESCAPE + 8;

    pub const ROS: usize = Op::ESCAPE + 30;

    pub const CID_COUNT: usize = Op::ESCAPE + 34;

    pub const FD_ARRAY: usize = Op::ESCAPE + 36;

    pub const FD_SELECT: usize = Op::ESCAPE + 37;
}

// The entries of the top DICT that a subset carries over as they are, in the order in which it writes them.
pub const COPIED_TOP_ENTRIES: [usize; 6] = [
    Op::FONT_BBOX,
    Op::IS_FIXED_PITCH,
    Op::ITALIC_ANGLE,
    Op::UNDERLINE_POSITION,
    Op::UNDERLINE_THICKNESS,
    Op::FONT_MATRIX,
];

// The entries of the top DICT that name a string, which a subset writes under its own ids.
pub const COPIED_TOP_STRINGS: [usize; 6] = [
    Op::VERSION,
    Op::NOTICE,
    Op::COPYRIGHT,
    Op::FULL_NAME,
    Op::FAMILY_NAME,
    Op::WEIGHT,
];

// The k-th of them.
pub fn copied_top_entry(k: usize) -> usize
    requires { k < 6 }
    ensures { result ≡ get_or copied_top_entries k 0 }
{
    COPIED_TOP_ENTRIES[k]
}

pub fn copied_top_string(k: usize) -> usize
    requires { k < 6 }
    ensures { result ≡ get_or copied_top_strings k 0 }
{
    COPIED_TOP_STRINGS[k]
}

// The slot of an operator that reading asks for; 9 for any other.
fn read_slot(op: usize) -> usize
    ensures { result ≡ slot_of asked_by_reading op }
{
    match op {
        Op::CHARSET => 0,
        Op::ENCODING => 1,
        Op::CHARSTRINGS => 2,
        Op::PRIVATE => 3,
        Op::SUBRS => 4,
        Op::CHARSTRING_TYPE => 5,
        Op::ROS => 6,
        Op::FD_ARRAY => 7,
        Op::FD_SELECT => 8,
        _ => 9,
    }
}

// The slot of an operator that subsetting asks for; 15 for any other.
fn subset_slot(op: usize) -> usize
    ensures { result ≡ slot_of asked_by_subsetting op }
{
    match op {
        Op::FONT_BBOX => 0,
        Op::IS_FIXED_PITCH => 1,
        Op::ITALIC_ANGLE => 2,
        Op::UNDERLINE_POSITION => 3,
        Op::UNDERLINE_THICKNESS => 4,
        Op::FONT_MATRIX => 5,
        Op::VERSION => 6,
        Op::NOTICE => 7,
        Op::COPYRIGHT => 8,
        Op::FULL_NAME => 9,
        Op::FAMILY_NAME => 10,
        Op::WEIGHT => 11,
        Op::ROS => 12,
        Op::CID_COUNT => 13,
        Op::PAINT_TYPE => 14,
        _ => 15,
    }
}

// The slot of an operator in the table of subsetting, or in that of reading. The flag is chosen in `read_dict` and `read_top` alone: an enum of both tables
// would say what those names say.
pub fn slot(subsetting: bool, op: usize) -> usize
    ensures { result ≡ slot_of (asked subsetting) op }
{
    if subsetting {
        return subset_slot(op);
    }
    read_slot(op)
}

// How many operators the table has.
pub fn slots(subsetting: bool) -> usize
    ensures { (result ≡ length (asked subsetting)) × (result ≤ 15) }
{
    if subsetting {
        return 15;
    }
    9
}
