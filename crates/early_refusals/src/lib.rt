// The refusals of subsetting before the work words are used, in document 01's order.
#![tactic(auto)]

ghost use Rattle.std.specs.Prelude.{◌≡◌, true, false, not, ◌+◌, ◌<◌};
ghost use Rattle.octets.specs.Pick.{pick};
ghost use Rattle.dict.specs.Lookup.{ros_in};
ghost use Rattle.dict.specs.Held.{entries};
ghost use Rattle.cff.specs.Loaded.{program};
ghost use Rattle.subset.specs.Cut.{has_ros_lem, same_bool_lem};
ghost use Rattle.outcome.specs.Entry.{size_of, refusal_of};
ghost use Rattle.early_refusals.specs.RefusalLaws.{unsupported_at};

use cff::loaded::Loaded;
use dict::placed::Dict;
use refusal::Refusal;

// Whether the ROS of a top DICT can be used.
fn has_ros(d: &Dict<'_>) -> bool
    ensures { result ≡ has_ros_lem (ros_in (entries d.now)) }
{
    d.ros().is_some()
}

// Whether a font is stroked, or has an Expert encoding, offset 1, that is not asked for.
fn is_unsupported(ask: bool, encoding: usize, d: &Dict<'_>) -> bool
    ensures { result ≡ unsupported_at ask encoding (entries d.now) }
{
    d.is_stroked() || !ask && encoding == 1
}

// Whether a font has the keying that is asked for and is supported.
fn is_fit(cid: bool, ask: bool, keyed: bool, encoding: usize, d: &Dict<'_>) -> bool
    ensures { result ≡ pick (same_bool_lem cid keyed) (not (unsupported_at ask encoding (entries d.now))) false }
{
    cid == keyed && !is_unsupported(ask, encoding, d)
}

// Whether the ROS of a top DICT can be used where a CID-keyed font is asked for.
fn ros_fine(cid: bool, d: &Dict<'_>) -> bool
    ensures { result ≡ pick cid (has_ros_lem (ros_in (entries d.now))) true }
{
    !cid || has_ros(d)
}

// How many work words the small call asks for (document 02, Wish 10), or the other.
pub fn size_of(small: bool, font: &Loaded<'_>) -> usize
    ensures { result ≡ size_of small (program font.now) }
{
    let f = font.f;
    let charstrings = f.charstrings;
    let globals = f.globals;
    if small {
        return bits::words_for(charstrings.count) + bits::words_for(globals.count) + f.words;
    }
    cff::font::work_size(f)
}

// The refusal of a font that was read, before the work words are used. The flag, traced, is any byte: refusal 8 judges it. (It takes a call's parts one by
// one: early_traced asks it of a name's length and of no record.)
pub fn refusal(
    small: bool,
    cid: bool,
    ask: bool,
    font: &Loaded<'_>,
    name: usize,
    keep: &[u16],
    rows: &[u8],
    traced: u8,
    words: usize,
) -> Result<(), Refusal>
    ensures { result ≡ refusal_of (size_of small) cid ask (program font.now) name keep.now rows.now traced words }
{
    let bytes = font.bytes;
    let f = font.f;
    let charstrings = f.charstrings;
    let (d, _) = dict::read_top(&bytes[f.top..f.top_end]);
    if !is_fit(cid, ask, f.cid, f.encoding, &d) {
        return Err(Refusal::Unsupported);
    }
    if !ros_fine(cid, &d) {
        return Err(Refusal::Malformed);
    }
    if 65535 < name {
        return Err(Refusal::TooLong);
    }
    if !kept::keep_below(keep, charstrings.count) {
        return Err(Refusal::NoSuchNumber);
    }
    if !found::all_found(font, keep) {
        return Err(Refusal::NotFound);
    }
    if !reach::check_record(cid, rows, traced) {
        return Err(Refusal::BadRecord);
    }
    if words < size_of(small, font) {
        return Err(Refusal::Work);
    }
    Ok(())
}
