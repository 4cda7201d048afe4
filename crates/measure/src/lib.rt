// A cut that is measured and not written: the outcome of a subset call whose output is large enough, 67,108,864 bytes, with no output lent.
#![tactic(auto)]

pub mod cid_keyed;
pub mod name_keyed;

ghost use Rattle.std.specs.Prelude.{◌≡◌, false, length};
ghost use Rattle.cff.specs.Loaded.{program};
ghost use Rattle.outcome.specs.Entry.{answer_of, cut_behind, Passed};
ghost use Rattle.subset.specs.Flag.{flag_of};

use asked::Asked;
use faithful::read::Held;
use outcome::Subsetted;
use refusal::Refusal;

// The way and the length of the subset; or refused: a string id, or too long. No encoding is asked for. The work words are used.
pub fn measure(
    cid: bool,
    font: &Held<'_>,
    keep: &[u16],
    asked: &Asked<'_>,
    words: &mut [u32],
) -> Result<Subsetted, Refusal>
    requires { Passed cid false (program font.now.loaded) (length asked.now.name.now) keep.now asked.now.rows.now (flag_of asked.now.traced) (length words.old) }
    ensures { result ≡ answer_of (cut_behind false (program font.now.loaded) asked.now.name.now keep.now asked.now.rows.now (flag_of asked.now.traced) 67108864) }
{
    if cid {
        return cid_keyed::measure_cid(font, keep, asked, words);
    }
    name_keyed::measure_named(font, keep, asked, words)
}
