// The input of a case that asks something of a font: the font's length in two bytes, the font, and what is asked.
ghost use Rattle.std.specs.Prelude.{◌≡◌, List, ℕ};
ghost use Rattle.cases.specs.Inputs.{font_input};

use std::marker::Model;

#[derive(Drop)]
pub struct FontInput<'a> {
    pub font: &'a [u8],
    pub asked: &'a [u8],
}

impl<'a> Model for FontInput<'a> {
    ghost Value = { List ℕ × List ℕ };

    ghost view = { λ i. (i.font.now, i.asked.now) };
}

impl<'a> FontInput<'a> {
    // None where the input is cut off.
    pub fn split(input: &'a [u8]) -> Option<FontInput<'a>>
        ensures { result ≡ font_input input.now }
    {
        let n = input.len();
        if n < 2 {
            return None;
        }
        let end = 2 + octets::u16_at(input, 0);
        if n < end {
            return None;
        }
        Some(FontInput {
            font: &input[2..end],
            asked: &input[end..],
        })
    }
}
