// The fields of a line: hexadecimal, `-` for none.
ghost use Rattle.std.specs.Prelude.{◌≡◌, length, Some};
ghost use Rattle.hexlines.specs.Hexlines.{Unhexes};
ghost use Rattle.cases.specs.Fields.{is_dash, field_bytes, both_same};

fn is_dash(text: &[u8]) -> bool
    ensures { result ≡ is_dash text.now }
{
    text == b"-".as_slice()
}

// The bytes of a field, written to the start of out: `-` is none.
pub fn read_field(text: &[u8], out: &mut [u8]) -> Option<usize>
    ensures { Unhexes (field_bytes (length out.old) text.now) out.old 0 out.new result }
{
    if is_dash(text) {
        return Some(0);
    }
    hexlines::unhex(text, out)
}

// Whether a field holds just these bytes.
pub fn holds(text: &[u8], bytes: &[u8]) -> bool
    ensures { result ≡ both_same (Some bytes.now) (field_bytes 4096 text.now) }
{
    let mut stored = [0u8; 4096];
    match read_field(text, &mut stored) {
        Some(k) => bytes == &stored[..k],
        None => false,
    }
}
