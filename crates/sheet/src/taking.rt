// Takes a text piece by piece into a buffer; the line feeds of empty rows are not kept.
ghost use Rattle.std.specs.Prelude.{◌≡◌, List, ◌++◌, ℕ, ◌≤◌, length};
ghost use Rattle.sheet.specs.Taking.{next_mode, ends_empty, kept_of, Held};

// A text that is being taken into lent memory: how many bytes are in it, 48,135 for too many, and where the next one stands. Both are 0 at the start.
// The mode is a number: up to 3 it counts the lines of the head, 4 is the start of a row and 5 is within one. An enum would hold that count
// beside two variants, and is no plainer.
#[derive(Drop)]
pub struct Taking<'a> {
    pub buffer: &'a mut [u8],
    pub len: usize,
    pub mode: usize,
    ghost room: { 48134 ≤ length buffer.now },
}

impl Taking<'_> {
    ghost use Rattle.sheet.specs.Pieces.{TakesOn};

    // Takes the next piece of the text.
    pub fn take(&mut self, piece: &[u8])
        ensures { TakesOn piece.now self.old self.new }
    {
        let buffer = &mut *self.buffer;
        let mut len = self.len;
        let mut mode = self.mode;
        for b in piece {
            len = keep_byte(&mut *buffer, len, mode, *b);
            mode = next_mode(mode, *b);
        }
        self.len = len;
        self.mode = mode;
    }
}

// Where the byte behind b stands.
fn next_mode(mode: usize, b: u8) -> usize
    ensures { result ≡ next_mode mode b }
{
    if b == b'\n' {
        if mode < 4 {
            return mode + 1;
        }
        return 4;
    }
    if mode == 4 {
        return 5;
    }
    mode
}

// Whether a byte ends an empty row.
fn ends_empty(mode: usize, b: u8) -> bool
    ensures { result ≡ ends_empty mode b }
{
    if b == b'\n' {
        return mode == 4;
    }
    false
}

// Keeps a byte; returns how many bytes are in the buffer. It takes the whole buffer: the byte goes behind them.
fn keep_byte(buffer: &mut [u8], len: usize, mode: usize, b: u8) -> usize
    requires { 48134 ≤ length buffer.old }
    ensures { (kept : List ℕ) → Held kept len buffer.old → Held (kept ++ kept_of mode b) result buffer.new }
{
    if ends_empty(mode, b) {
        return len;
    }
    if len < 48134 {
        buffer[len] = b;
        return len + 1;
    }
    48135
}
