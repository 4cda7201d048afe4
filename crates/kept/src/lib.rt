// The glyphs that a subset keeps (document 01, 'Layout'): refusal 6, and a mark for each.
#![tactic(auto)]

pub mod marks;

ghost use Rattle.std.specs.Prelude.{◌≡◌, ◌<◌};
ghost use Rattle.octets.specs.Lists.{all_below};

// Whether every number of a keep list is a glyph's: refusal 6 where not.
pub fn keep_below(keep: &[u16], n: usize) -> bool
    ensures { result ≡ all_below n keep.now }
{
    keep.iter().all(|g| usize::from(*g) < n)
}
