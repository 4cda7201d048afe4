// The standard strings of TN5176, Appendix A, and string ids: the Rust's STANDARD_STRINGS, the standard part of sid_name and of
// Strings::sid.
#![tactic(auto)]

ghost use Rattle.std.specs.Prelude.{◌≡◌, ◌<◌};
ghost use Rattle.strings.specs.Text.{same_text_lem, order_of};
ghost use Rattle.strings.specs.Strings.{standard_string, sid_of};

use std::cmp::Ordering;

pub mod table;

// Whether two texts are equal: `==`, by the definition that the callers' laws have of it.
pub fn same_text(a: &[u8], b: &[u8]) -> bool
    ensures { result ≡ same_text_lem a.now b.now }
{
    a == b
}

// How a stands to b in byte order: `cmp`, by the definition that the callers' laws have of it. Of two texts that go alike as far as the shorter goes, the shorter is less.
pub fn order_of(a: &[u8], b: &[u8]) -> Ordering
    ensures { result ≡ order_of a.now b.now }
{
    a.cmp(b)
}

// The standard string of an id: a part of the text of all names.
pub fn standard_string(k: usize) -> &'static [u8]
    requires { k < 391 }
    ensures { result.now ≡ standard_string k }
{
    let start = table::STANDARD_OFFSETS[k] as usize;
    let end = table::STANDARD_OFFSETS[k + 1] as usize;
    &table::STANDARD_TEXT[start..end]
}

// The id of a text among the standard strings, if it is one of them, by halving their byte order.
pub fn sid_of(text: &[u8]) -> Option<usize>
    ensures { result ≡ sid_of text.now }
{
    let mut low: usize = 0;
    let mut high: usize = 391;
    // Not `binary_search_by`: it asks for a closure that takes any number, and ids from 391 on have no standard string.
    while low < high {
        let middle = low + (high - low) / 2;
        let k = table::STANDARD_ORDER[middle] as usize;
        let found = order_of(standard_string(k), text);
        match found {
            Ordering::Equal => return Some(k),
            Ordering::Less => low = middle + 1,
            Ordering::Greater => high = middle,
        }
    }
    None
}
