// What the search for the culprit goes by.
ghost use Rattle.std.specs.Prelude.{length};
ghost use Rattle.cff.specs.Loaded.{program};
ghost use Rattle.blocking.specs.Search.{CanCut};
ghost use Rattle.blocking.specs.Alone.{can_cut_prop};

use cff::opened::Opened;

// The font, the new name, and the lent words and bytes that each cut uses anew. No cut by them is refused early, whatever its keep list is.
#[derive(Drop)]
pub struct Search<'a> {
    pub font: Opened<'a>,
    pub name: &'a [u8],
    pub words: &'a mut [u32],
    pub slice: &'a mut [u8],
    ghost can: { CanCut (program font.loaded) (length name.now) (length words.now) } by { can_cut_prop (program font.loaded) (length name.now) (length words.now) },
}
