// The keep list of a call, whose glyphs the font has.
ghost use Rattle.std.specs.Prelude.{◌≡◌, true};
ghost use Rattle.octets.specs.Lists.{all_below};

use faithful::read::Held;

#[derive(Clone, Copy)]
pub struct KeepList<'a, 'b> {
    pub font: Held<'a>,
    pub keep: &'b [u16],
    ghost below: { all_below font.loaded.f.charstrings.count keep.now ≡ true },
}
