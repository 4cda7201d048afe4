// A part of the rows of masks of a body.

// The offsets from one up to another, which is not among them, whose rows the first bytes of a slice have.
#[derive(Clone, Copy)]
pub struct Part {
    pub from: usize,
    pub end: usize,
    pub len: usize,
}
