// One charstring or subroutine renumbered (the Rust's renumber_charstring; document 01, 'Corners in write.rs'): measured first, then written.
// A number token is held back until the next token is read.
#![tactic(auto)]

ghost use Rattle.std.specs.Prelude.{◌≡◌, true, ◌+◌, ◌-◌, ◌≤◌, ◌<◌, length};
ghost use Rattle.octets.specs.Out.{Writes};
ghost use Rattle.charstring.specs.Token.{more};
ghost use Rattle.charstring.specs.Answers.{given_at, Within, Writable};
ghost use Rattle.record.specs.Record.{rows_of, given_in};
ghost use Rattle.unfold.specs.Sites.{site_of};
ghost use Rattle.renumber.specs.Turn.{cursor, held_bytes_lem, sent_bytes, held_len_lem, own_len, sized_of, body_of_lem, is_yes};
ghost use Rattle.renumber.specs.Run.{run_bytes};
ghost use Rattle.renumber.specs.Bodies.{renumbered_of, turned_of};
ghost use Rattle.renumber.specs.Walks.{Turns};

use charstring::operand::number_before;
use charstring::{Cursor, MaskLen, Token, more, next_token, put_token, start, token_len};
use octets::out::Out;
use reach::rows::Rows;
use renumber::Turned;
use renumber::body::Body;
use renumber::runs::run_at;
use renumber::turns::{held_after, turn_of};
use type2_number::{Operand, number_len, put_number};
use unfold::Site;

// How many bytes the number that was held takes. (What is written at a token or a run is measured by one function and written by another, as bodies are: see `put_renumbered`.)
pub fn held_len(h: Option<Operand>) -> usize
    ensures { result ≡ held_len_lem h }
{
    match h {
        None => 0,
        Some(v) => number_len(v),
    }
}

// How many bytes a token takes when it is read: a number none, since it is held.
fn own_len(t: Token) -> usize
    ensures { result ≡ own_len t }
{
    match t {
        Token::Num(_) => 0,
        Token::Op(_) | Token::Esc(_) | Token::Mask { start: _, len: _ } => token_len(t),
    }
}

// How many bytes are written at a token: the number that was held, and the token.
pub fn sent_len(h: Option<Operand>, t: Token) -> usize
    requires { own_len t ≤ 67108864 }
    ensures { result ≡ held_len_lem h + own_len t }
{
    held_len(h) + own_len(t)
}

// The number that was held.
pub fn put_held(h: Option<Operand>, out: &mut Out<'_>)
    requires { out.old.at + length (held_bytes_lem h) ≤ length out.old.bytes.now }
    ensures { Writes out.old (held_bytes_lem h) out.new }
{
    match h {
        None => {}
        Some(v) => put_number(v, out),
    }
}

// The number that was held and then a token other than a number.
pub fn put_sent(code: &[u8], h: Option<Operand>, t: Token, out: &mut Out<'_>)
    requires { (Writable code.now t) × (out.old.at + length (sent_bytes code.now h t) ≤ length out.old.bytes.now) }
    ensures { Writes out.old (sent_bytes code.now h t) out.new }
{
    put_held(h, &mut *out);
    match t {
        Token::Num(_) => {}
        Token::Op(_) | Token::Esc(_) | Token::Mask { start: _, len: _ } => put_token(code, t, out),
    }
}

// How many bytes are written at a run: the number that was held, and the run up to the number that it holds back.
pub fn run_len(h: Option<Operand>, from: usize, last: usize) -> usize
    requires { (from ≤ last) × (last ≤ 67108864) }
    ensures { result ≡ held_len_lem h + (last - from) }
{
    held_len(h) + (last - from)
}

// The number that was held and then the bytes of a body between two places.
pub fn put_run(code: &[u8], h: Option<Operand>, from: usize, last: usize, out: &mut Out<'_>)
    requires { (from ≤ last) × (last ≤ length code.now) × (out.old.at + length (run_bytes code.now h from last) ≤ length out.old.bytes.now) }
    ensures { Writes out.old (run_bytes code.now h from last) out.new }
{
    put_held(h, &mut *out);
    out.copy(&code[from..last]);
}

// The length to pass on for the token at a cursor: the record's for the mask that is due.
fn given_at(rows: &Rows<'_>, site: Site, c: Cursor) -> MaskLen
    requires { (c.due ≡ true → 0 < c.at) × (c.at < 4294967296) }
    ensures { result ≡ given_at (given_in (rows_of rows.now.bytes.now) (site_of site)) c }
{
    let due = c.due;
    let at = c.at;
    if due {
        return reach::masks::given(rows, site, (at - 1) as u32);
    }
    MaskLen::Own
}

// The token where reading stands, or None where renumbering fails there. Where it stands comes as four numbers, and the loops take `next` over number by number: a Cursor passed whole is copied
// through memory at each token, which took half of the time.
pub fn turn_at(
    body: &Body<'_>,
    at: usize,
    args: usize,
    stems: usize,
    due: bool,
    h: Option<Operand>,
) -> Option<Turned>
    requires { (Within body.now.code.now (cursor at args stems due)) × (more body.now.code.now (cursor at args stems due) ≡ true) }
    ensures { Turns body.now (cursor at args stems due) h result }
{
    let c = Cursor {
        at,
        args,
        stems,
        due,
    };
    let given = given_at(&body.rows, body.site, c);
    let (token, next) = next_token(body.code, c, given)?;
    let before = turn_of(body.words, body.locals, body.globals, h, token).ok()?;
    Some(Turned {
        before,
        token,
        next,
    })
}

// The same without regard to two lengths at one offset.
fn body_len(body: &Body<'_>) -> Option<usize>
    ensures { result ≡ sized_of (turned_of body.now) }
{
    let code = body.code;
    let mut c = start();
    let mut h = None;
    let mut len: usize = 0;
    while more(code, c) {
        let run = run_at(code, c.at, c.args, c.stems, c.due);
        if c.at < run.at {
            len += run_len(h, c.at, run.last);
            h = number_before(code, run.last, run.at);
            c = Cursor {
                at: run.at,
                args: run.args,
                stems: run.stems,
                due: false,
            };
            continue;
        }
        match turn_at(body, c.at, c.args, c.stems, c.due, h) {
            Some(turned) => {
                len += sent_len(turned.before, turned.token);
                h = held_after(turned.token);
                c = Cursor {
                    at: turned.next.at,
                    args: turned.next.args,
                    stems: turned.next.stems,
                    due: turned.next.due,
                };
            }
            None => return None,
        }
    }
    Some(len + held_len(h))
}

// The length of a body renumbered, or that this fails: two lengths at one offset fail too.
pub fn renumbered_len(body: &Body<'_>) -> Option<usize>
    ensures { result ≡ sized_of (renumbered_of body.now) }
{
    if reach::masks::two_lengths(&body.rows, body.site) {
        return None;
    }
    body_len(body)
}

// A body renumbered. (It stays apart from `body_len`: measuring goes on to where renumbering fails, and writing asks that it does not fail. One walk
// for both would need room for what was sent before a failure, of which no definition speaks.)
pub fn put_renumbered(body: &Body<'_>, out: &mut Out<'_>)
    requires { (is_yes (renumbered_of body.now) ≡ true) × (out.old.at + length (body_of_lem (renumbered_of body.now)) ≤ length out.old.bytes.now) }
    ensures { Writes out.old (body_of_lem (renumbered_of body.now)) out.new }
{
    let code = body.code;
    let mut c = start();
    let mut h = None;
    while more(code, c) {
        let run = run_at(code, c.at, c.args, c.stems, c.due);
        if c.at < run.at {
            put_run(code, h, c.at, run.last, &mut *out);
            h = number_before(code, run.last, run.at);
            c = Cursor {
                at: run.at,
                args: run.args,
                stems: run.stems,
                due: false,
            };
            continue;
        }
        match turn_at(body, c.at, c.args, c.stems, c.due, h) {
            Some(turned) => {
                put_sent(code, turned.before, turned.token, &mut *out);
                h = held_after(turned.token);
                c = Cursor {
                    at: turned.next.at,
                    args: turned.next.args,
                    stems: turned.next.stems,
                    due: turned.next.due,
                };
            }
            None => return,
        }
    }
    put_held(h, out);
}
