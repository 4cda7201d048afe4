// An FDSelect of format 3, written from the FDs of the glyphs: its ranges go to a sink, which counts or writes them; or it is written, or only
// measured, by the FDs one after the other.
ghost use Rattle.std.specs.Prelude.{ℕ, List, [], ◌∷◌, ◌+◌, ◌*◌, ◌^◌, ◌≤◌, ◌<◌, ◌≡◌, length};
ghost use Rattle.octets.specs.Octets.{Wrote};
ghost use Rattle.octets.specs.Out.{Writes};
ghost use Rattle.charset.specs.FdSelectBytes.{entry_bytes};
ghost use Rattle.charset.specs.FdWriter.{Follows, Counts, writer_of, pushed, pushed_bytes, CanCount, Finished};
ghost use Rattle.charset.specs.FdWriterLaws.{counts_follow, writes_follow};

use octets::out::Out;

// It has room for some ranges, and takes them, first glyph and FD.
pub trait Sink {
    ghost room: { Self → List (ℕ × ℕ) → Type 0 };

    ghost takes: { Self → List (ℕ × ℕ) → Self → Type 0 };

    fn range(&mut self, first: usize, fd: u8)
        requires { room self.old ((first, fd) ∷ []) }
        ensures { takes self.old ((first, fd) ∷ []) self.new };

    ghost follows: { Follows room takes };
}

// How many there were.
#[derive(Clone, Copy)]
pub struct Count {
    pub ranges: usize,
}

impl Sink for Count {
    ghost room = { λ s rs. s.ranges + length rs < 2 ^ 64 };

    ghost takes = { λ s rs t. Counts s rs t };

    #[inline(always)]
    fn range(&mut self, first: usize, fd: u8) {
        self.ranges += 1;
    }

    ghost follows = { counts_follow };
}

impl Sink for Out<'_> {
    ghost room = { λ s rs. s.at + length (entry_bytes rs) ≤ length s.bytes.now };

    ghost takes = { λ s rs t. Writes s (entry_bytes rs) t };

    #[inline(always)]
    fn range(&mut self, first: usize, fd: u8) {
        self.num(first, 2);
        self.byte(fd);
    }

    ghost follows = { writes_follow };
}

// An FDSelect under way: where it starts, the FD of the last glyph (256 before the first), how many ranges there are so far, where the next
// one goes, and how many glyphs there were.
#[derive(Clone, Copy)]
pub struct FdSelectWriter {
    pub start: usize,
    pub last: usize,
    pub ranges: usize,
    pub next: usize,
    pub glyphs: usize,
}

// An FDSelect that starts at a place.
pub fn begin(at: usize) -> FdSelectWriter
    requires { at < 4294967296 }
    ensures { result ≡ writer_of at [] }
{
    FdSelectWriter {
        start: at,
        last: 256,
        ranges: 0,
        next: at + 3,
        glyphs: 0,
    }
}

// Counts the FD of the next glyph.
pub fn count_push(w: FdSelectWriter, fd: u8) -> FdSelectWriter
    requires { CanCount w }
    ensures { result ≡ pushed w fd }
{
    let glyphs = w.glyphs + 1;
    let last = fd as usize;
    if last == w.last {
        return FdSelectWriter {
            start: w.start,
            last: w.last,
            ranges: w.ranges,
            next: w.next,
            glyphs,
        };
    }
    FdSelectWriter {
        start: w.start,
        last,
        ranges: w.ranges + 1,
        next: w.next + 3,
        glyphs,
    }
}

// Writes the FD of the next glyph: a range where it differs from the last.
pub fn push(out: &mut [u8], w: FdSelectWriter, fd: u8) -> FdSelectWriter
    requires { (CanCount w) × (w.next + length (pushed_bytes w fd) ≤ length out.old) }
    ensures { (result ≡ pushed w fd) × Wrote out.old w.next (pushed_bytes w fd) out.new result.next }
{
    let r = count_push(w, fd);
    let last = fd as usize;
    if last == w.last {
        return r;
    }
    let p = octets::put_num(out, w.next, w.glyphs, 2);
    octets::put_byte(out, p, fd);
    r
}

// Writes the format and the count of ranges in front, and the count of glyphs behind; returns the place after the FDSelect.
pub fn finish(out: &mut [u8], w: FdSelectWriter) -> usize
    requires { (w.start + 3 ≤ length out.old) × (w.next + 2 ≤ length out.old) }
    ensures { Finished out.old w out.new result }
{
    let p = octets::put_byte(out, w.start, 3);
    octets::put_num(out, p, w.ranges, 2);
    octets::put_num(out, w.next, w.glyphs, 2)
}

// How many bytes the FDSelect has.
pub fn fd_select_len(w: FdSelectWriter) -> usize
    requires { CanCount w }
    ensures { result ≡ 5 + 3 * w.ranges }
{
    5 + 3 * w.ranges
}
