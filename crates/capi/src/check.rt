// The checker for C and Rust to link (document 02, Wish 6): 0 where the record is accepted, else the refusal. Nothing is lent for writing.
ghost use Rattle.std.specs.Prelude.{◌≡◌};
ghost use Rattle.refusal.specs.Refusal.{number_or_0};
ghost use Rattle.accepted.specs.Accepted.{check_of};

// Whether a reach record, with flag 1, is accepted for glyph 0 and the glyphs of the keep list.
#[unsafe(no_mangle)]
pub extern "C" fn cff_check_record(font: &[u8], keep: &[u16], rows: &[u8]) -> u8
    ensures { result ≡ number_or_0 (check_of font.now keep.now rows.now) }
{
    refusal::number_or_0(checker::check(font, keep, rows))
}
