// The subset (write.rs): the definitions of specs/, and the way in which it has its bodies. The other code is in `kept` to `write`.
#![tactic(auto)]

ghost use Rattle.std.specs.Prelude.{◌≡◌};
ghost use Rattle.subset.specs.Way.{way_number, way_of};

// How a subset has its bodies: renumbered, stubbed where that fails, or copied where the glyphs could not be traced.
#[derive(Clone, Copy, PartialEq, Eq)]
pub enum Way {
    Renumbered,
    Stubbed,
    Copied,
}

impl Way {
    // Its number in an answer (document 01).
    pub fn number(self) -> u8
        ensures { result ≡ way_number self }
    {
        match self {
            Way::Renumbered => 0,
            Way::Stubbed => 1,
            Way::Copied => 2,
        }
    }

    // The way that a number stands for, any byte being one: what is neither renumbered nor stubbed is copied.
    pub fn of_number(number: u8) -> Way
        ensures { result ≡ way_of number }
    {
        match number {
            0 => Way::Renumbered,
            1 => Way::Stubbed,
            _ => Way::Copied,
        }
    }
}
