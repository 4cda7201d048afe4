// What the subset of a name-keyed font is written from.
ghost use Rattle.std.specs.Prelude.{◌≡◌, ◌≤◌, length};
ghost use Rattle.order_window.specs.Window.{Gathered};
ghost use Rattle.named_parts.specs.Named.{NamedReady};
ghost use Rattle.named_parts.specs.Alone.{named_ready_prop};

use encoding::Encoding;
use order_window::window::Kept;
use outcome::tables::Parts;

// The kept glyphs, the parts that are prepared for them, and what the subset has of an encoding, with the new ids of its codes.
#[derive(Drop)]
pub struct NamedSubset<'a> {
    pub kept: Kept<'a>,
    pub parts: Parts<'a>,
    pub encoding: Encoding,
    pub codes: &'a [Option<usize>],
    ghost long: { 256 ≤ length codes.now },
    ghost ready: { NamedReady kept.font.now kept.words.now kept.o parts encoding codes.now } by { named_ready_prop kept.font.now kept.words.now kept.o parts encoding codes.now },
}

impl<'a> NamedSubset<'a> {
    // With the window as the plan left it.
    pub fn new(
        font: &'a [u8],
        words: &'a [u32],
        window: &'a mut [u32],
        parts: Parts<'a>,
        encoding: Encoding,
        codes: &'a [Option<usize>],
    ) -> NamedSubset<'a>
        requires { (Gathered font.now words.now window.old parts.cut.plan.order) × (NamedReady font.now words.now parts.cut.plan.order parts encoding codes.now)
            × (256 ≤ length codes.now) }
        ensures { (result.kept.font.now ≡ font.now) × (result.kept.words.now ≡ words.now) × (result.parts ≡ parts.entry) × (result.encoding ≡ encoding)
            × (result.codes.now ≡ codes.now) }
    {
        let kept = Kept {
            font,
            words,
            window,
            o: parts.cut.plan.order,
        };
        NamedSubset {
            kept,
            parts,
            encoding,
            codes,
        }
    }
}
