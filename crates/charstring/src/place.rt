// Where a token of a body stands.
ghost use Rattle.std.specs.Prelude.{◌<◌, length};

#[derive(Clone, Copy)]
pub struct Place<'a> {
    pub code: &'a [u8],
    pub at: usize,
    ghost there: { at < length code.now },
}
