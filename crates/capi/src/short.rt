// Short charstrings for C and Rust to link (document 02, Wish 13). The bytes go to the start of the lent bytes, and their count, 0 where none is left, to
// the lent words. 11 stands for fewer bytes than the next one has, and for no word.
ghost use Rattle.short_charstrings.specs.Next.{next_of, Gives};
ghost use Rattle.capi.specs.Capi.{ForC};

// The next short charstring behind one, or behind nothing. What is not one of them is refused with 2.
#[unsafe(no_mangle)]
pub extern "C" fn cff_next_charstring(code: &[u8], out: &mut [u8], size: &mut [u64]) -> u8
    ensures { ForC (Gives (next_of code.now) out.old out.new size.old size.new) result }
{
    refusal::number_or_0(short_charstrings::give_next(code, out, size))
}
