// The string ids that a top DICT names, and those that the subset gives them.

// A string id of the font, where there is one, and the one that its text has in the subset: 0 where there is none.
#[derive(Clone, Copy)]
pub struct Slot {
    pub sid: Option<usize>,
    pub id: usize,
}

// A slot of no string.
pub const NO_SLOT: Slot = Slot { sid: None, id: 0 };
