// The rows of a record with what is known of their order: where they stand in rising order of their first eight bytes, they can be searched.
ghost use Rattle.std.specs.Prelude.{◌≡◌, true};
ghost use Rattle.octets.specs.Octets.{Octets};
ghost use Rattle.record.specs.Record.{rows_of};
ghost use Rattle.reach.specs.Reach.{rises};

// Rows, and whether they rise.
#[derive(Clone, Copy)]
pub struct Rows<'a> {
    pub bytes: &'a [u8],
    pub rising: bool,
    ghost octets: { Octets bytes.now },
    ghost order: { rising ≡ true → rises (rows_of bytes.now) ≡ true },
}

// Rows that rise.
#[derive(Clone, Copy)]
pub struct Rising<'a> {
    pub bytes: &'a [u8],
    ghost octets: { Octets bytes.now },
    ghost order: { rises (rows_of bytes.now) ≡ true },
}
