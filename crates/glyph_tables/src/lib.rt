// Charset and FDSelect of a CID-keyed subset (document 01, 'Layout'), from windows of the order in which the kept glyphs are written (document 02,
// Wish 10): the charset (here), the FDs in use by their new numbers (`fds`), and the FDSelect (`select`).
#![tactic(auto)]

pub mod fds;
pub mod select;

ghost use Rattle.std.specs.Prelude.{◌+◌, ◌≤◌, length};
ghost use Rattle.octets.specs.Out.{Writes};
ghost use Rattle.charset.specs.CharsetBytes.{charset_bytes};
ghost use Rattle.order_window.specs.Stays.{Stays};
ghost use Rattle.glyph_tables.specs.Tables.{cids_kept};

use octets::out::Out;
use order_window::window::Kept;

// Writes the charset of the kept glyphs by their CIDs.
pub fn put_charset_cid(kept: &mut Kept<'_>, out: &mut Out<'_>)
    requires { out.old.at + length (charset_bytes (cids_kept kept.old)) ≤ length out.old.bytes.now }
    ensures { (Writes out.old (charset_bytes (cids_kept kept.old)) out.new) × Stays kept.old kept.new }
{
    out.byte(0);
    for i in 1..kept.o.count {
        let id = kept.word(i) / 65536;
        out.num(id, 2);
    }
}
