// The checks of a custom encoding. What it maps is not used: the cut writes no encoding.
ghost use Rattle.std.specs.Prelude.{◌≡◌};
ghost use Rattle.charset.specs.Encoding.{encoding_at};

use refusal::Refusal;

// Whether the encoding at a place is refused, and as what.
pub fn check_encoding(font: &[u8], at: usize) -> Result<(), Refusal>
    ensures { result ≡ encoding_at font.now at }
{
    let len = font.len();
    if len <= at {
        return Err(Refusal::Truncated);
    }
    let format = octets::u8_at(font, at);
    let kind = format % 128;
    if 1 < kind {
        return Err(Refusal::Malformed);
    }
    let codes = at + 1;
    if len <= codes {
        return Err(Refusal::Truncated);
    }
    let sups = codes + 1 + octets::u8_at(font, codes) * (kind + 1);
    if len < sups {
        return Err(Refusal::Truncated);
    }
    if format / 128 == 0 {
        return Ok(());
    }
    if len <= sups {
        return Err(Refusal::Truncated);
    }
    if len < sups + 1 + octets::u8_at(font, sups) * 3 {
        return Err(Refusal::Truncated);
    }
    Ok(())
}
