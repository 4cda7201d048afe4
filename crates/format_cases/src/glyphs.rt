// Cases of a charset and of an FDSelect: a position, how many glyphs, and a font.
ghost use Rattle.std.specs.Prelude.{◌≡◌, ◌+◌, ◌*◌, ◌≤◌, ◌<◌, ◌++◌, length};
ghost use Rattle.charset.specs.Charset.{charset_at};
ghost use Rattle.charset.specs.Ids.{ids};
ghost use Rattle.charset.specs.FdSelect.{fd_select_at};
ghost use Rattle.charset.specs.FdPlaces.{fds_of, GoodSelect};
ghost use Rattle.format_cases.specs.Glyphs.{listed_answer, charset_answer, fd_select_answer};
ghost use Rattle.index.specs.Write.{table_bytes};

use cases::answer::Answer;
use charset::fd_select::FdSelect;
use charset::ids::Ids;

// The id of each glyph.
fn put_ids(glyphs: &Ids<'_>, to: &mut Answer)
    requires { length to.old + 2 * glyphs.now.n ≤ 4096 }
    ensures { to.new ≡ to.old ++ table_bytes 2 (ids glyphs.now) }
{
    for id in glyphs.iter() {
        to.num(id, 2);
    }
}

// The charset of n glyphs at a place of a font.
fn charset_in(font: &[u8], at: usize, n: usize) -> Option<Answer>
    requires { (0 < n) × (n < 65536) }
    ensures { result ≡ listed_answer 2 (charset_at font.now at n) }
{
    match charset::read_charset(font, at, n) {
        Err(refusal) => Some(Answer::one(refusal.number())),
        Ok(c) => {
            if 2000 < n {
                return None;
            }
            let glyphs = Ids {
                bytes: font,
                charset: c,
                n,
            };
            let mut answer = Answer::one(0);
            put_ids(&glyphs, &mut answer);
            Some(answer)
        }
    }
}

// Kind c: the ids of a charset. answer_fd_select begins alike, but allows no glyph: one for both would take that test and the rest, and is no plainer.
pub fn answer_charset(input: &[u8]) -> Option<Answer>
    ensures { result ≡ charset_answer input.now }
{
    if input.len() < 4 {
        return None;
    }
    let at = octets::u16_at(input, 0);
    let n = octets::u16_at(input, 2);
    if n == 0 {
        return None;
    }
    charset_in(&input[4..], at, n)
}

// The FD of each of n glyphs.
fn put_fds(font: &[u8], s: FdSelect, n: usize, to: &mut Answer)
    requires { (GoodSelect font.now s) × (n < 65536) × (length to.old + n ≤ 4096) }
    ensures { to.new ≡ to.old ++ table_bytes 1 (fds_of font.now s n) }
{
    let mut u = charset::fd_select::fd_select_start(s);
    for _ in 0..n {
        let step = charset::fd_select::next_fd(font, u);
        to.num(step.fd as usize, 1);
        u = step.next;
    }
}

// The FDSelect of n glyphs at a place of a font.
fn fd_select_in(font: &[u8], at: usize, n: usize) -> Option<Answer>
    requires { n < 65536 }
    ensures { result ≡ listed_answer 1 (fd_select_at font.now at n) }
{
    match charset::fd_select::read_fd_select(font, at, n) {
        Err(refusal) => Some(Answer::one(refusal.number())),
        Ok(s) => {
            if 2000 < n {
                return None;
            }
            let mut answer = Answer::one(0);
            put_fds(font, s, n, &mut answer);
            Some(answer)
        }
    }
}

// Kind s: the FDs of an FDSelect.
pub fn answer_fd_select(input: &[u8]) -> Option<Answer>
    ensures { result ≡ fd_select_answer input.now }
{
    if input.len() < 4 {
        return None;
    }
    let at = octets::u16_at(input, 0);
    let n = octets::u16_at(input, 2);
    fd_select_in(&input[4..], at, n)
}
