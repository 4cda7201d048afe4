// The size of a Private DICT, and the length of the part that it and its local subroutines make.
#[derive(Clone, Copy)]
pub struct Part {
    pub size: usize,
    pub len: usize,
}

// A part of no bytes.
pub const NO_PART: Part = Part { size: 0, len: 0 };
