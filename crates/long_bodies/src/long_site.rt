// The site of a body whose rows of masks can be taken by windows.
ghost use Rattle.long_bodies.specs.Offsets.{Sited};
ghost use Rattle.long_bodies.specs.Alone.{sited_prop};

use unfold::Site;

#[derive(Clone, Copy)]
pub struct LongSite {
    pub site: Site,
    ghost sited: { Sited site } by { sited_prop site },
}
