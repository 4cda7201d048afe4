// The FDs that a CID-keyed subset has, by their new numbers.
ghost use Rattle.std.specs.Prelude.{◌≡◌, true, ℕ, ◌≤◌, ◌<◌, length, get_or};
ghost use Rattle.cff.specs.Reads.{program_of};
ghost use Rattle.private_dicts.specs.Alone.{there_prop};

use cff::loaded::Loaded;

#[derive(Clone, Copy)]
pub struct FdArray<'a, 'b> {
    pub font: Loaded<'a>,
    pub fds: &'b [usize],
    ghost short: { length font.bytes.now ≤ 67108864 },
    ghost keyed: { font.f.cid ≡ true },
    ghost few: { length fds.now ≤ 256 },
    ghost there: { (k : ℕ) → k < length fds.now → get_or fds.now k 0 < length (program_of font.bytes.now font.f).privates } by { there_prop fds.now (length (program_of font.bytes.now font.f).privates) },
}
