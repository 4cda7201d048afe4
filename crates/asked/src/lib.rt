// What a cut is asked to make, beside the glyphs that it keeps.

// The new name, the rows of the reach record, and whether they are of a font that was traced.
#[derive(Clone, Copy)]
pub struct Asked<'a> {
    pub name: &'a [u8],
    pub rows: &'a [u8],
    pub traced: bool,
}
