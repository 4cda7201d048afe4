// The cut of a name-keyed font (the Rust's subset).
#![tactic(auto)]

ghost use Rattle.std.specs.Prelude.{false, ◌≡◌, ◌≤◌, ◌<◌, length, take};
ghost use Rattle.cff.specs.Loaded.{program};
ghost use Rattle.subset.specs.Flag.{flag_of};
ghost use Rattle.outcome.specs.Entry.{cut_behind, Cut, Passed};
ghost use Rattle.named_parts.specs.Named.{NamedCut};
ghost use Rattle.named_parts.specs.Subset.{outcome_in};
ghost use Rattle.encoding.specs.Encoded.{Past};
ghost use Rattle.by_name.specs.Prepares.{CodesFit, CutsAs, Prepares};

use asked::Asked;
use encoding::{Encoding, encode};
use faithful::read::Held;
use named_parts::named::NamedSubset;
use named_parts::{places_named, put_named};
use order_window::Order;
use order_window::window::Kept;
use outcome::tables::{Parts, Tables};
use outcome::{Prepared, Subsetted};
use own_strings::slots::{NO_SLOT, Slot};
use parts::plan_all;
use refusal::Refusal;

// A cut, and what its subset has of an encoding.
#[derive(Clone, Copy)]
pub struct CodedCut {
    pub cut: Prepared,
    pub encoding: Encoding,
}

// The subset, if it is not too long for a subset or for the output.
fn cut_planned(c: &mut NamedSubset<'_>, out: &mut [u8]) -> Result<Subsetted, Refusal>
    ensures { Cut (outcome_in c.old (length out.old)) out.old out.new result }
{
    let how = c.parts.cut.plan.how;
    let at = places_named(c.kept.font, c.kept.words, &c.parts, c.encoding, c.codes);
    let end = at.end;
    if octets::LONGEST < end {
        return Err(Refusal::Subset);
    }
    if out.len() < end {
        return Err(Refusal::Output);
    }
    put_named(c, at, out);
    Ok(Subsetted {
        way: how.way,
        len: end,
    })
}

// The plan of the cut of the kept glyphs: strings, encoding where it is asked for, and the plan of the bodies, FD 0 being in use; or refused: a string id,
// pairs.
fn plan_cut(
    o: Order,
    font: &[u8],
    ask: bool,
    asked: &Asked<'_>,
    words: &mut [u32],
    window: &mut [u32],
    slots: &mut [Slot],
    codes: &mut [Option<usize>],
    tables: &mut Tables,
) -> Result<CodedCut, Refusal>
    requires { (NamedCut font.now o words.old window.old) × (8 ≤ length slots.old) × (256 ≤ length codes.old) }
    ensures { (Prepares ask font.now asked.now.rows.now (flag_of asked.now.traced) o words.old (take 8 slots.new) codes.new words.new window.new tables.new result)
        × (Past codes.old 256 4294967296 → Past codes.new 256 4294967296) }
{
    let mut kept = Kept {
        font,
        words: &*words,
        window: &mut *window,
        o,
    };
    let own = front::prepare_named(&mut kept, &mut *slots);
    if 64609 < own.count {
        return Err(Refusal::StringId);
    }
    let encoding = encode(&mut kept, ask, &*slots, codes);
    if 255 < encoding.pairs() {
        return Err(Refusal::Pairs);
    }
    let o = kept.o;
    tables.used = [0; 256];
    tables.used[0] = 1;
    let plan = plan_all(
        o,
        font,
        asked.rows,
        u8::from(asked.traced),
        &tables.used,
        words,
        window,
        &mut tables.table,
        &mut tables.totals,
    );
    let cut = Prepared {
        plan,
        own,
        count: 1,
    };
    Ok(CodedCut { cut, encoding })
}

// What the subset of the kept glyphs is written from, with its encoding where it is asked for; or refused as above. The ids of its codes fit four bytes, where
// what was lent does. Its lifetimes are as by_cid's.
pub fn prepare<'a, 'f: 'a, 'n: 'a>(
    font: &Held<'f>,
    ask: bool,
    keep: &[u16],
    asked: &Asked<'n>,
    words: &'a mut [u32],
    window: &'a mut [u32],
    slots: &'a mut [Slot],
    codes: &'a mut [Option<usize>],
    tables: &'a mut Tables,
) -> Result<NamedSubset<'a>, Refusal>
    requires { (Passed false ask (program font.now.loaded) (length asked.now.name.now) keep.now asked.now.rows.now (flag_of asked.now.traced) (length words.old))
        × (0 < length window.old) × (8 ≤ length slots.old) × (256 ≤ length codes.old) }
    ensures { (CutsAs (cut_behind ask (program font.now.loaded) asked.now.name.now keep.now asked.now.rows.now (flag_of asked.now.traced)) result)
        × CodesFit codes.old result }
{
    let bytes = font.loaded.bytes;
    let o = order_window::gather(&font.loaded, keep, &mut *words, &mut *window);
    let coded = plan_cut(
        o,
        bytes,
        ask,
        asked,
        &mut *words,
        &mut *window,
        &mut *slots,
        &mut *codes,
        &mut *tables,
    )?;
    let parts = Parts {
        cut: coded.cut,
        name: asked.name,
        slots: &*slots,
        used: &tables.used,
        table: &tables.table,
        totals: &tables.totals,
        rows: asked.rows,
    };
    Ok(NamedSubset::new(bytes, &*words, window, parts, coded.encoding, &*codes))
}

// The subset in the front of the output, with its encoding where it is asked for; or refused as above, or too long. The work words are used.
pub fn cut_named(
    font: &Held<'_>,
    ask: bool,
    keep: &[u16],
    asked: &Asked<'_>,
    words: &mut [u32],
    out: &mut [u8],
) -> Result<Subsetted, Refusal>
    requires { Passed false ask (program font.now.loaded) (length asked.now.name.now) keep.now asked.now.rows.now (flag_of asked.now.traced) (length words.old) }
    ensures { Cut (cut_behind ask (program font.now.loaded) asked.now.name.now keep.now asked.now.rows.now (flag_of asked.now.traced) (length out.old))
        out.old out.new result }
{
    let mut window = [0u32; 4096];
    let mut slots = [NO_SLOT; 8];
    let mut codes = [None; 256];
    let mut tables = Tables::new();
    let mut c = prepare(
        font,
        ask,
        keep,
        asked,
        words,
        &mut window,
        &mut slots,
        &mut codes,
        &mut tables,
    )?;
    cut_planned(&mut c, out)
}
