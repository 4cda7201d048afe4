// The cut of a CID-keyed font, measured.
ghost use Rattle.std.specs.Prelude.{◌≡◌, true, false, length};
ghost use Rattle.cff.specs.Loaded.{program};
ghost use Rattle.by_cid.specs.Outcome.{outcome_in};
ghost use Rattle.outcome.specs.Entry.{answer_of, cut_behind, Passed};
ghost use Rattle.subset.specs.Flag.{flag_of};

use asked::Asked;
use cid_parts::cid::CidSubset;
use cid_parts::places_cid;
use faithful::read::Held;
use outcome::Subsetted;
use outcome::tables::Tables;
use own_strings::slots::NO_SLOT;
use refusal::Refusal;

// The way and the length of the subset, if it is not too long. by_cid `cut_planned` begins so, but needs the places too: a function of both would promise
// them beside the answer.
fn measure_planned(c: &mut CidSubset<'_>) -> Result<Subsetted, Refusal>
    ensures { result ≡ answer_of (outcome_in c.old 67108864) }
{
    let how = c.parts.cut.plan.how;
    let at = places_cid(c);
    let end = at.end;
    if octets::LONGEST < end {
        return Err(Refusal::Subset);
    }
    Ok(Subsetted {
        way: how.way,
        len: end,
    })
}

// The way and the length of the subset, if it is not too long. It differs from by_cid `cut_cid` in its last line alone, since what is prepared there and
// here borrows the arrays that its caller has.
pub fn measure_cid(
    font: &Held<'_>,
    keep: &[u16],
    asked: &Asked<'_>,
    words: &mut [u32],
) -> Result<Subsetted, Refusal>
    requires { Passed true false (program font.now.loaded) (length asked.now.name.now) keep.now asked.now.rows.now (flag_of asked.now.traced) (length words.old) }
    ensures { result ≡ answer_of (cut_behind false (program font.now.loaded) asked.now.name.now keep.now asked.now.rows.now (flag_of asked.now.traced) 67108864) }
{
    let mut window = [0u32; 4096];
    let mut slots = [NO_SLOT; 8];
    let mut tables = Tables::new();
    let mut c = by_cid::prepare(
        font,
        keep,
        asked,
        words,
        &mut window,
        &mut slots,
        &mut tables,
    );
    measure_planned(&mut c)
}
