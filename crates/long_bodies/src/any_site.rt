// A body by numbers of any size: the FD of a local subroutine may be one that no row has.
ghost use Rattle.std.specs.Prelude.{◌≡◌};
ghost use Rattle.long_bodies.specs.AnySites.{any_in};

use unfold::Site;

#[derive(Clone, Copy)]
pub enum AnySite {
    Glyph(usize),
    Local { fd: usize, number: usize },
    Global(usize),
}

// The body of a site.
pub fn any_of(site: Site) -> AnySite
    ensures { result ≡ any_in site }
{
    match site {
        Site::Glyph(g) => AnySite::Glyph(g as usize),
        Site::Local { fd, number } => AnySite::Local {
            fd: fd as usize,
            number: number as usize,
        },
        Site::Global(k) => AnySite::Global(k as usize),
    }
}
