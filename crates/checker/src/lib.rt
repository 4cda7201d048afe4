// The checker (document 02, Wish 6): whether a reach record, whoever made it, is accepted for a font and a keep list. The rows that the kept glyphs
// meet are taken from the tracer window by window, and each window is looked up in one pass over the record.
#![tactic(auto)]

pub mod numbers;

ghost use Rattle.std.specs.Prelude.{◌≡◌, true};
ghost use Rattle.octets.specs.Lists.{all_below};
ghost use Rattle.record.specs.Record.{rows_of};
ghost use Rattle.cff.specs.Loaded.{program};
ghost use Rattle.tracer.specs.Tracing.{met, keys_of, sorted};
ghost use Rattle.listed.specs.Listed.{row_keys, all_in};
ghost use Rattle.accepted.specs.Accepted.{lists_met, accepted_by, check_of};
ghost use Rattle.checker.specs.Checking.{Asks};

use cff::opened::Opened;
use faithful::read::Held;
use interpret::Range;
use refusal::Refusal;
use row_window::sorted::Sorted;
use tracer::marked::{Marked, Plain};

// Whether the record has all rows that plain glyphs meet, by windows from the first on.
fn windows_listed(glyphs: &Plain<'_>, keys: &mut [u64], first: usize, rows: &[u8]) -> bool
    requires { Asks (keys_of glyphs.now) keys.old first 0 }
    ensures { result ≡ all_in (row_keys rows.now) (sorted glyphs.now) }
{
    let mut n = first;
    let mut low: u64 = 0;
    while n == tracer::WINDOW {
        let window = Sorted { keys: &keys[..n] };
        if !listed::window_listed(&window, rows) {
            return false;
        }
        low = keys[tracer::WINDOW - 1] + 1;
        n = tracer::refill(glyphs, low, &mut *keys);
    }
    let last = Sorted { keys: &keys[..n] };
    listed::window_listed(&last, rows)
}

// Whether all marked glyphs are plain and the record lists what they meet.
fn lists_met(glyphs: &Marked<'_>, rows: &[u8]) -> bool
    ensures { result ≡ lists_met (rows_of rows.now) (met glyphs.now) }
{
    let mut keys = [0u64; 65536];
    let all = Range {
        low: 0,
        high: tracer::TOP,
    };
    match tracer::fill(glyphs, all, &mut keys) {
        None => false,
        Some(first) => {
            let plain = Plain { marked: *glyphs };
            windows_listed(&plain, &mut keys, first, rows)
        }
    }
}

// Whether the record is accepted: the numbers first, which cost one pass over the record.
fn accepts(font: &Held<'_>, keep: &[u16], rows: &[u8]) -> bool
    requires { all_below font.now.loaded.f.charstrings.count keep.now ≡ true }
    ensures { result ≡ accepted_by (program font.now.loaded) keep.now rows.now }
{
    let mut marks = [0u32; 65536];
    kept::marks::mark(keep, &mut marks, font.loaded.f.charstrings.count);
    let glyphs = Marked {
        font: *font,
        marks: &marks,
    };
    numbers::numbers_are(&glyphs, rows) && lists_met(&glyphs, rows)
}

// The answer for a font that was read in its file.
fn check_font(font: &Opened<'_>, keep: &[u16], rows: &[u8]) -> Result<(), Refusal>
    ensures { result ≡ check_of font.now.file.now keep.now rows.now }
{
    let table = Held::of(font);
    if !kept::keep_below(keep, table.loaded.f.charstrings.count) {
        return Err(Refusal::NoSuchNumber);
    }
    if !found::all_found(&table.loaded, keep) {
        return Err(Refusal::NotFound);
    }
    if !reach::check_record(table.loaded.f.cid, rows, 1) {
        return Err(Refusal::BadRecord);
    }
    if !accepts(&table, keep, rows) {
        return Err(Refusal::NotAccepted);
    }
    Ok(())
}

// Checks a reach record for glyph 0 and the glyphs of the keep list: nothing where it is accepted, else the refusal.
pub fn check(font: &[u8], keep: &[u16], rows: &[u8]) -> Result<(), Refusal>
    ensures { result ≡ check_of font.now keep.now rows.now }
{
    check_font(&cff::set::read(font)?, keep, rows)
}
