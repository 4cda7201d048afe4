// A mask that was met: the offset of its operator in its body, and how many bytes it has.
ghost use Rattle.std.specs.Prelude.{◌<◌};

#[derive(Clone, Copy)]
pub struct Mask {
    pub offset: u32,
    pub len: u8,
    ghost short: { len < 16 },
}
