// Where the parts of a subset stand that its top DICT names.
ghost use Rattle.std.specs.Prelude.{◌<◌};
ghost use Rattle.top_dict.specs.Top.{Offsets};
ghost use Rattle.top_dict.specs.Alone.{offsets_prop};

// Those of a name-keyed subset, and how long its Private DICT is; the Encoding's is 0 where it is the standard one.
#[derive(Clone, Copy)]
pub struct NamedOffsets {
    pub charset: usize,
    pub encoding: usize,
    pub charstrings: usize,
    pub size: usize,
    pub private: usize,
    ghost few: { Offsets charset charstrings size private } by { offsets_prop charset charstrings size private },
    ghost coded: { encoding < 2147483648 },
}

// Those of a CID-keyed subset.
#[derive(Clone, Copy)]
pub struct CidOffsets {
    pub charset: usize,
    pub select: usize,
    pub glyphs: usize,
    pub dicts: usize,
    ghost few: { Offsets charset select glyphs dicts } by { offsets_prop charset select glyphs dicts },
}
