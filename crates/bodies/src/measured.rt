// Subroutines that do not fail, and how many bytes they have together.
ghost use Rattle.bodies.specs.Measured.{Adds, adds_prop};

use crate::subroutines::Subroutines;

#[derive(Clone, Copy)]
pub struct Measured<'a> {
    pub all: Subroutines<'a>,
    pub total: usize,
    ghost adds: { Adds all total } by { adds_prop all total },
}
