// The glyphs of a font, some of them flagged by a bit for each.
ghost use Rattle.std.specs.Prelude.{◌≤◌, length};
ghost use Rattle.bits.specs.Bits.{words_for};

use charset::ids::Ids;

#[derive(Clone, Copy)]
pub struct Flagged<'a> {
    pub glyphs: Ids<'a>,
    pub flags: &'a [u32],
    ghost enough: { words_for glyphs.n ≤ length flags.now },
}
