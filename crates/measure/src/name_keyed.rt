// The cut of a name-keyed font, measured.
ghost use Rattle.std.specs.Prelude.{false, ◌≡◌, length};
ghost use Rattle.cff.specs.Loaded.{program};
ghost use Rattle.subset.specs.Flag.{flag_of};
ghost use Rattle.outcome.specs.Entry.{answer_of, cut_behind, Passed};
ghost use Rattle.named_parts.specs.Subset.{outcome_in};

use asked::Asked;
use faithful::read::Held;
use named_parts::named::NamedSubset;
use named_parts::places_named;
use outcome::Subsetted;
use outcome::tables::Tables;
use own_strings::slots::NO_SLOT;
use refusal::Refusal;

// The way and the length of the subset, if it is not too long. by_name `cut_planned` begins so, but needs the places too, as by_cid's.
fn measure_planned(c: &NamedSubset<'_>) -> Result<Subsetted, Refusal>
    ensures { result ≡ answer_of (outcome_in c.now 67108864) }
{
    let how = c.parts.cut.plan.how;
    let at = places_named(c.kept.font, c.kept.words, &c.parts, c.encoding, c.codes);
    let end = at.end;
    if octets::LONGEST < end {
        return Err(Refusal::Subset);
    }
    Ok(Subsetted {
        way: how.way,
        len: end,
    })
}

// The way and the length of the subset; or refused: a string id, or too long. No encoding is asked for. What is prepared borrows the arrays here, as for
// `measure_cid`.
pub fn measure_named(
    font: &Held<'_>,
    keep: &[u16],
    asked: &Asked<'_>,
    words: &mut [u32],
) -> Result<Subsetted, Refusal>
    requires { Passed false false (program font.now.loaded) (length asked.now.name.now) keep.now asked.now.rows.now (flag_of asked.now.traced) (length words.old) }
    ensures { result ≡ answer_of (cut_behind false (program font.now.loaded) asked.now.name.now keep.now asked.now.rows.now (flag_of asked.now.traced) 67108864) }
{
    let mut window = [0u32; 4096];
    let mut slots = [NO_SLOT; 8];
    let mut codes = [None; 256];
    let mut tables = Tables::new();
    let c = by_name::prepare(
        font,
        false,
        keep,
        asked,
        words,
        &mut window,
        &mut slots,
        &mut codes,
        &mut tables,
    )?;
    measure_planned(&c)
}
