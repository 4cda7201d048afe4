// What the subset of a CID-keyed font is written from.
ghost use Rattle.std.specs.Prelude.{◌≡◌};
ghost use Rattle.order_window.specs.Window.{Gathered};
ghost use Rattle.cid_parts.specs.Cid.{PartsReady};
ghost use Rattle.cid_parts.specs.Alone.{parts_ready_prop};

use order_window::window::Kept;
use outcome::tables::Parts;

// The kept glyphs, and the parts that are prepared for them.
#[derive(Drop)]
pub struct CidSubset<'a> {
    pub kept: Kept<'a>,
    pub parts: Parts<'a>,
    ghost ready: { PartsReady kept.font.now kept.words.now kept.o parts } by { parts_ready_prop kept.font.now kept.words.now kept.o parts },
}

impl<'a> CidSubset<'a> {
    // With the window as the plan left it.
    pub fn new(
        font: &'a [u8],
        words: &'a [u32],
        window: &'a mut [u32],
        parts: Parts<'a>,
    ) -> CidSubset<'a>
        requires { (Gathered font.now words.now window.old parts.cut.plan.order) × (PartsReady font.now words.now parts.cut.plan.order parts) }
        ensures { (result.kept.font.now ≡ font.now) × (result.kept.words.now ≡ words.now) × (result.parts ≡ parts.entry) }
    {
        let kept = Kept {
            font,
            words,
            window,
            o: parts.cut.plan.order,
        };
        CidSubset { kept, parts }
    }
}
