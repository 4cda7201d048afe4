// The font dictionary of each glyph of a CID font: FDSelect, read in place.
ghost use Rattle.std.specs.Prelude.{◌≡◌, ◌+◌, ◌*◌, ◌≤◌, ◌<◌, length, drop, Ok};
ghost use Rattle.octets.specs.Lists.{all_below};
ghost use Rattle.charset.specs.FdSelect.{range_end, fd_in, ranges_refusal, range_fds, fd_select_at};
ghost use Rattle.charset.specs.FdPlaces.{no_select, ranges_at, select_at, select_answer, ranges_answer, fd_of, fds_of, GoodSelect, select_start, into_range_lem, next_fd, ReadyFd};

use refusal::Refusal;

// An FDSelect of a font: `count` ranges, the first of which starts at glyph `first`. Their entries stand from `at` on, an FD and a number of
// `wide` bytes that says where the range ends: 2 in format 3; 0 in format 0, where each range is one glyph.
#[derive(Clone, Copy)]
pub struct FdSelect {
    pub count: usize,
    pub first: usize,
    pub wide: usize,
    pub at: usize,
}

// A place before a glyph: the FD of the range under way, where that range ends, and the ranges behind it.
#[derive(Clone, Copy)]
pub struct FdCursor {
    pub gid: usize,
    pub fd: u8,
    pub end: usize,
    pub count: usize,
    pub wide: usize,
    pub at: usize,
}

// A glyph's FD, and the cursor behind the glyph.
#[derive(Clone, Copy)]
pub struct FdStep {
    pub fd: u8,
    pub next: FdCursor,
}

// A font with no FDSelect: all glyphs have FD 0.
pub fn no_fd_select() -> FdSelect
    ensures { result ≡ no_select }
{
    FdSelect {
        count: 0,
        first: 0,
        wide: 0,
        at: 0,
    }
}

// Where the range ends whose entry stands at a place and that starts at glyph first.
fn range_end(font: &[u8], at: usize, wide: usize, first: usize) -> usize
    requires { (wide ≤ 2) × (first < 65536) × (at + 1 + wide ≤ length font.now) }
    ensures { result ≡ range_end wide first (drop at font.now) }
{
    if wide == 0 {
        return first + 1;
    }
    octets::num_at(font, at + 1, wide)
}

// Checks the ranges of format 3: each is there, and none ends before it starts.
fn check_ends(font: &[u8], s: FdSelect) -> Result<FdSelect, Refusal>
    requires { s.at ≤ length font.now }
    ensures { result ≡ ranges_answer s (ranges_refusal 2 s.count s.first (drop s.at font.now)) }
{
    let mut first = s.first;
    for i in 0..s.count {
        let at = s.at + 3 * i;
        if font.len() - at < 3 {
            return Err(Refusal::Truncated);
        }
        let end = octets::u16_at(font, at + 1);
        if end < first {
            return Err(Refusal::Malformed);
        }
        first = end;
    }
    Ok(s)
}

// The FDSelect of format 3 whose count of ranges stands at a place.
fn read_ranges(font: &[u8], at: usize, n: usize) -> Result<FdSelect, Refusal>
    requires { at ≤ length font.now }
    ensures { result ≡ select_answer (ranges_at font.now at) (range_fds n (drop at font.now)) }
{
    if font.len() - at < 4 {
        return Err(Refusal::Truncated);
    }
    let count = octets::u16_at(font, at);
    let first = octets::u16_at(font, at + 2);
    check_ends(
        font,
        FdSelect {
            count,
            first,
            wide: 2,
            at: at + 4,
        },
    )
}

// The FDSelect of a font of n glyphs, at a place.
pub fn read_fd_select(font: &[u8], at: usize, n: usize) -> Result<FdSelect, Refusal>
    requires { n < 65536 }
    ensures { result ≡ select_answer (select_at font.now at n) (fd_select_at font.now at n) }
{
    let len = font.len();
    if len <= at {
        return Err(Refusal::Truncated);
    }
    let format = octets::u8_at(font, at);
    let behind = at + 1;
    if format == 0 {
        if len - behind < n {
            return Err(Refusal::Truncated);
        }
        return Ok(FdSelect {
            count: n,
            first: 0,
            wide: 0,
            at: behind,
        });
    }
    if format == 3 {
        return read_ranges(font, behind, n);
    }
    Err(Refusal::Malformed)
}

// Where an FDSelect begins: before glyph 0.
pub fn fd_select_start(s: FdSelect) -> FdCursor
    ensures { result ≡ select_start s }
{
    FdCursor {
        gid: 0,
        fd: 0,
        end: s.first,
        count: s.count,
        wide: s.wide,
        at: s.at,
    }
}

// The cursor in the range of its glyph, or in the last range.
fn into_range(font: &[u8], u: FdCursor) -> FdCursor
    requires { ReadyFd font.now u }
    ensures { result ≡ into_range_lem font.now u.count u }
{
    let gid = u.gid;
    let wide = u.wide;
    let mut fd = u.fd;
    let mut end = u.end;
    let mut count = u.count;
    let mut at = u.at;
    // No `for`: how many ranges are left is a part of the cursor that is returned.
    while 0 < count {
        if gid < end {
            return FdCursor {
                gid,
                fd,
                end,
                count,
                wide,
                at,
            };
        }
        end = range_end(font, at, wide, end);
        fd = font[at];
        at = at + 1 + wide;
        count -= 1;
    }
    FdCursor {
        gid,
        fd,
        end,
        count,
        wide,
        at,
    }
}

// The FD of the glyph that a cursor stands before, and the cursor behind it.
pub fn next_fd(font: &[u8], u: FdCursor) -> FdStep
    requires { ReadyFd font.now u }
    ensures { result ≡ next_fd font.now u }
{
    let v = into_range(font, u);
    let gid = v.gid;
    let end = v.end;
    let next = FdCursor {
        gid: gid + 1,
        fd: v.fd,
        end,
        count: v.count,
        wide: v.wide,
        at: v.at,
    };
    if gid < end {
        return FdStep { fd: v.fd, next };
    }
    FdStep { fd: 0, next }
}

// Whether the FD of each of n glyphs is below count.
pub fn fds_below(font: &[u8], s: FdSelect, n: usize, count: usize) -> bool
    requires { (GoodSelect font.now s) × (n < 65536) }
    ensures { result ≡ all_below count (fds_of font.now s n) }
{
    let mut u = fd_select_start(s);
    for _g in 0..n {
        let step = next_fd(font, u);
        if count <= usize::from(step.fd) {
            return false;
        }
        u = step.next;
    }
    true
}

// The FD of a glyph that the first range does not start behind, by format 3: the ranges are searched by halves.
fn fd_in_ranges(font: &[u8], at: usize, count: usize, first: usize, gid: usize) -> u8
    requires { (first ≤ gid) × (ranges_refusal 2 count first (drop at font.now) ≡ Ok tt) }
    ensures { result ≡ fd_in 2 count first (drop at font.now) gid }
{
    let mut low = 0;
    let mut high = count;
    // No `partition_point`: the ranges stand as bytes, of which there is no slice of ends.
    while low < high {
        let mid = low + (high - low) / 2;
        let end = octets::u16_at(font, at + 3 * mid + 1);
        if gid < end {
            high = mid;
        } else {
            low = mid + 1;
        }
    }
    if low < count {
        return font[at + 3 * low];
    }
    0
}

// The FD of a glyph.
pub fn fd_of(font: &[u8], s: FdSelect, gid: usize) -> u8
    requires { GoodSelect font.now s }
    ensures { result ≡ fd_of font.now s gid }
{
    let count = s.count;
    let first = s.first;
    let wide = s.wide;
    let at = s.at;
    if gid < first {
        return 0;
    }
    if wide == 0 {
        let g = gid - first;
        if g < count {
            return font[at + g];
        }
        return 0;
    }
    fd_in_ranges(font, at, count, first, gid)
}
