// The subroutines that a glyph can call, with the bytes of the font that they lie in.
ghost use Rattle.interpret.specs.Run.{Ready};
ghost use Rattle.interpret.specs.Alone.{ready_prop};

use crate::Subrs;

#[derive(Clone, Copy)]
pub struct Callees<'a> {
    pub font: &'a [u8],
    pub q: Subrs,
    ghost ready: { Ready font.now q } by { ready_prop font.now q },
}
