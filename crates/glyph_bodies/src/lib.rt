// The charstrings of the kept glyphs by the way (document 01, 'Corners in write.rs'), in the order in which they are written, which is read through a
// window (document 02, Wish 10). The local subroutines of a glyph's FD have their ranks where a table says.
#![tactic(auto)]

pub mod charstrings;
pub mod glyphs;
pub mod kept_bodies;

ghost use Rattle.std.specs.Prelude.{◌≡◌, length};
ghost use Rattle.octets.specs.Out.{Writes};
ghost use Rattle.index.specs.Write.{index_bytes};
ghost use Rattle.record.specs.Record.{rows_of};
ghost use Rattle.order_window.specs.Stays.{Stays};
ghost use Rattle.bodies.specs.Ways.{many_of, measured_of, Room};
ghost use Rattle.bodies.specs.Sizes.{Bounded};
ghost use Rattle.glyph_bodies.specs.Charstrings.{CharstringsIn, charstrings_from};
ghost use Rattle.glyph_bodies.specs.Written.{all_written};

use crate::charstrings::Charstring;
use crate::glyphs::Source;
use crate::kept_bodies::KeptBodies;
use bodies::Manner;
use mask_rows::lent::Lent;
use octets::out::Out;
use order_window::window::Kept;
use renumber::Ranks;
use subset::Way;

// Their bytes together, by parts of a record that does not rise.
fn total_by_windows(all: &mut KeptBodies<'_, '_>) -> Option<usize>
    ensures { (result ≡ measured_of (all_written all.old)) × (Bounded result) × (all.new.kept.ghost_name ≡ all.old.kept.ghost_name)
        × Stays all.old.kept.now all.new.kept.now }
{
    let mut keys = [0u64; 9216];
    let mut bytes = [0u8; 81920];
    let mut lent = Lent {
        keys: &mut keys,
        bytes: &mut bytes,
    };
    let mut masks = None;
    let table = all.table;
    let rows = all.rows;
    let how = all.how;
    let kept = &mut *all.kept;
    let font = kept.font;
    let words = kept.words;
    let ix = kept.o.f.charstrings;
    let from = Source { how, ix };
    let n = kept.o.count;
    let mut total: usize = 0;
    for i in 0..n {
        let glyph = glyphs::glyph_at(kept, i);
        masks = mask_rows::advance(masks, rows, 2, 0, glyph.number, &mut lent);
        let one = Charstring {
            from,
            glyph,
            font,
            words,
            table,
            rows,
        };
        match glyphs::windowed_len(&one, masks, &mut lent) {
            Some(len) => total += len,
            None => return None,
        }
    }
    Some(total)
}

// Their bytes together, each by the whole record.
fn total_directly(all: &mut KeptBodies<'_, '_>) -> Option<usize>
    ensures { (result ≡ measured_of (all_written all.old)) × (Bounded result) × (all.new.kept.ghost_name ≡ all.old.kept.ghost_name)
        × Stays all.old.kept.now all.new.kept.now }
{
    let table = all.table;
    let rows = all.rows;
    let how = all.how;
    let kept = &mut *all.kept;
    let font = kept.font;
    let words = kept.words;
    let ix = kept.o.f.charstrings;
    let from = Source { how, ix };
    let n = kept.o.count;
    let mut total: usize = 0;
    for i in 0..n {
        let glyph = glyphs::glyph_at(kept, i);
        let one = Charstring {
            from,
            glyph,
            font,
            words,
            table,
            rows,
        };
        match glyphs::charstring_len(&one) {
            Some(len) => total += len,
            None => return None,
        }
    }
    Some(total)
}

// The bytes of the charstrings together, by the way; or that their renumbering fails. Masks are asked for only where they are renumbered.
pub fn charstrings_total<'k, 'a>(
    kept: &'k mut Kept<'a>,
    how: Manner,
    table: &'k [Ranks],
    rows: &'k [u8],
) -> Option<usize>
    requires { CharstringsIn kept.old.font.now kept.old.words.now table.now kept.old.o how (rows_of rows.now) }
    ensures { (result ≡ measured_of (charstrings_from how kept.old.o (rows_of rows.now) kept.old.words.now table.now kept.old.font.now)) × (Bounded result)
        × Stays kept.old kept.new }
{
    let mut all = KeptBodies {
        kept,
        how,
        table,
        rows,
    };
    if how.rising {
        return total_directly(&mut all);
    }
    if how.way == Way::Renumbered {
        return total_by_windows(&mut all);
    }
    total_directly(&mut all)
}

// Their INDEX, by parts of a record that does not rise.
fn put_by_windows(all: KeptBodies<'_, '_>, total: usize, out: &mut Out<'_>)
    requires { Room (all_written all) total out.old.at (length out.old.bytes.now) }
    ensures { (Writes out.old (index_bytes (many_of (all_written all.entry))) out.new) × Stays all.entry.kept.now all.exit.0.now }
{
    let mut keys = [0u64; 9216];
    let mut bytes = [0u8; 81920];
    let mut lent = Lent {
        keys: &mut keys,
        bytes: &mut bytes,
    };
    let mut masks = None;
    let table = all.table;
    let rows = all.rows;
    let how = all.how;
    let kept = all.kept;
    let font = kept.font;
    let words = kept.words;
    let ix = kept.o.f.charstrings;
    let from = Source { how, ix };
    let n = kept.o.count;
    let to = index::index_for(out.at, n, total);
    index::put_head(&mut *out, n, total);
    out.at = to.base + 1;
    for i in 0..n {
        let glyph = glyphs::glyph_at(kept, i);
        masks = mask_rows::advance(masks, rows, 2, 0, glyph.number, &mut lent);
        let one = Charstring {
            from,
            glyph,
            font,
            words,
            table,
            rows,
        };
        glyphs::put_windowed(&one, masks, &mut *out, &mut lent);
        index::put_end(&mut *out, to, i);
    }
}

// Their INDEX, each by the whole record.
fn put_directly(all: KeptBodies<'_, '_>, total: usize, out: &mut Out<'_>)
    requires { Room (all_written all) total out.old.at (length out.old.bytes.now) }
    ensures { (Writes out.old (index_bytes (many_of (all_written all.entry))) out.new) × Stays all.entry.kept.now all.exit.0.now }
{
    let table = all.table;
    let rows = all.rows;
    let how = all.how;
    let kept = all.kept;
    let font = kept.font;
    let words = kept.words;
    let ix = kept.o.f.charstrings;
    let from = Source { how, ix };
    let n = kept.o.count;
    let to = index::index_for(out.at, n, total);
    index::put_head(&mut *out, n, total);
    out.at = to.base + 1;
    for i in 0..n {
        let glyph = glyphs::glyph_at(kept, i);
        let one = Charstring {
            from,
            glyph,
            font,
            words,
            table,
            rows,
        };
        glyphs::put_charstring(&one, &mut *out);
        index::put_end(&mut *out, to, i);
    }
}

// Their INDEX.
pub fn put_charstrings(
    kept: &mut Kept<'_>,
    how: Manner,
    table: &[Ranks],
    rows: &[u8],
    total: usize,
    out: &mut Out<'_>,
)
    requires { (CharstringsIn kept.old.font.now kept.old.words.now table.now kept.old.o how (rows_of rows.now))
        × (Room (charstrings_from how kept.old.o (rows_of rows.now) kept.old.words.now table.now kept.old.font.now) total out.old.at (length out.old.bytes.now)) }
    ensures { (Writes out.old (index_bytes (many_of (charstrings_from how kept.old.o (rows_of rows.now) kept.old.words.now table.now kept.old.font.now))) out.new)
        × Stays kept.old kept.new }
{
    let all = KeptBodies {
        kept,
        how,
        table,
        rows,
    };
    if how.rising {
        return put_directly(all, total, out);
    }
    if how.way == Way::Renumbered {
        return put_by_windows(all, total, out);
    }
    put_directly(all, total, out)
}
