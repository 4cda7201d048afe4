// A charstring or subroutine with all that its renumbering reads: the words with the bits of the subroutines that it may call, and the record with
// the lengths of its masks.
ghost use Rattle.std.specs.Prelude.{◌≡◌, true};
ghost use Rattle.octets.specs.Octets.{Octets};
ghost use Rattle.record.specs.Record.{rows_of};
ghost use Rattle.reach.specs.Reach.{rises};
ghost use Rattle.renumber.specs.Turn.{Inputs};
ghost use Rattle.renumber.specs.Alone.{inputs_prop};

use crate::Ranks;
use reach::rows::Rows;
use unfold::Site;

// The site is what the record calls the body.
#[derive(Clone, Copy)]
pub struct Body<'a> {
    pub code: &'a [u8],
    pub words: &'a [u32],
    pub locals: Ranks,
    pub globals: Ranks,
    pub rows: Rows<'a>,
    pub site: Site,
    ghost octets: { Octets code.now },
    ghost inputs: { Inputs code.now words.now locals globals } by { inputs_prop code.now words.now locals globals },
}

impl<'a> Body<'a> {
    ghost use Rattle.renumber.specs.Bodies.{Reads};

    // What a body reads, put together: by a function, since a slice that is a parameter is known to hold octets.
    pub fn new(
        code: &'a [u8],
        words: &'a [u32],
        locals: Ranks,
        globals: Ranks,
        rows: Rows<'a>,
        site: Site,
    ) -> Body<'a>
        requires { Inputs code.now words.now locals globals }
        ensures { Reads result code.now words.now locals globals rows.entry.bytes.now rows.entry.rising site }
    {
        Body {
            code,
            words,
            locals,
            globals,
            rows,
            site,
        }
    }
}

// Rows, and whether they rise: by a function too.
pub fn rows_known<'a>(bytes: &'a [u8], rising: bool) -> Rows<'a>
    requires { rising ≡ true → rises (rows_of bytes.now) ≡ true }
    ensures { (result.bytes.now ≡ bytes.now) × (result.rising ≡ rising) }
{
    Rows { bytes, rising }
}
