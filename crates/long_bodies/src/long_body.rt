// A body whose rows of masks can be taken by windows, with what its renumbering reads.
ghost use Rattle.long_bodies.specs.Offsets.{Sited};
ghost use Rattle.long_bodies.specs.Alone.{sited_prop};

use renumber::body::Body;

#[derive(Clone, Copy)]
pub struct LongBody<'a> {
    pub body: &'a Body<'a>,
    ghost sited: { Sited body.now.site } by { sited_prop body.now.site },
}
