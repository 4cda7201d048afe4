// The bytes of a font's table.
ghost use Rattle.std.specs.Prelude.{ℕ, List, ◌≤◌, length};

use std::marker::Model;

// There are as many as an INDEX of no item takes.
#[derive(Drop)]
pub struct Table<'a> {
    pub bytes: &'a [u8],
}

impl<'a> Model for Table<'a> {
    ghost Value = { List ℕ };

    ghost view = { λ t. t.bytes.now };

    ghost invariant = { λ t. 2 ≤ length t.bytes.now };
}
