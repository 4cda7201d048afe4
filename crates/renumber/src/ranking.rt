// The bits of some subroutines with the words that they stand in.
ghost use Rattle.renumber.specs.Ranks.{Ranked};
ghost use Rattle.renumber.specs.Alone.{ranked_prop};

use crate::Ranks;

#[derive(Clone, Copy)]
pub struct Ranking<'a> {
    pub words: &'a [u32],
    pub q: Ranks,
    ghost ranked: { Ranked words.now q } by { ranked_prop words.now q },
}
