// One charstring or subroutine with more rows of masks than a window holds, renumbered (document 01, 'Reach record': order and repeats are free): measured,
// and written. Masks come at rising offsets as the tokens are read, so that the windows of its rows follow each other. A body whose rows stand in a
// record that rises is crate `renumbered`'s: its loops ask no more than it needs.
#![tactic(auto)]

pub mod any_site;
pub mod long_body;
pub mod long_site;
pub mod offsets;
pub mod part;

ghost use Rattle.std.specs.Prelude.{◌≡◌, true, false, ◌+◌, ◌-◌, ◌≤◌, ◌<◌, length};
ghost use Rattle.octets.specs.Out.{Writes};
ghost use Rattle.charstring.specs.Token.{more};
ghost use Rattle.charstring.specs.Answers.{Within};
ghost use Rattle.record.specs.Record.{rows_of, two_lengths_lem};
ghost use Rattle.unfold.specs.Sites.{site_of};
ghost use Rattle.mask_rows.specs.SameRoom.{SameRoom};
ghost use Rattle.renumber.specs.Turn.{cursor, sized_of, body_of_lem, is_yes};
ghost use Rattle.renumber.specs.Bodies.{renumbered_of, turned_of};
ghost use Rattle.renumber.specs.Walks.{Turns};
ghost use Rattle.long_bodies.specs.Offsets.{Gives};

use crate::long_body::LongBody;
use crate::long_site::LongSite;
use crate::part::Part;
use charstring::operand::number_before;
use charstring::{Cursor, more, start};
use mask_rows::lent::Lent;
use octets::out::Out;
use renumber::Turned;
use renumber::body::{Body, rows_known};
use renumber::runs::run_at;
use renumber::turns::held_after;
use renumbered::{held_len, put_held, put_run, put_sent, run_len, sent_len, turn_at};
use type2_number::Operand;

// The token where reading stands, by the part of the rows that has the offset of a mask there.
fn turn_in(
    body: &Body<'_>,
    part: Part,
    lent: &Lent<'_>,
    at: usize,
    args: usize,
    stems: usize,
    due: bool,
    h: Option<Operand>,
) -> Option<Turned>
    requires { (Within body.now.code.now (cursor at args stems due)) × (more body.now.code.now (cursor at args stems due) ≡ true)
        × (Gives body.now.rows.bytes.now lent.now.bytes.now body.now.site part) × (part.from ≤ at - 1) × (at - 1 < part.end) }
    ensures { Turns body.now (cursor at args stems due) h result }
{
    let locals = body.locals;
    let globals = body.globals;
    let site = body.site;
    let rows = rows_known(lent.rows(part.len), true);
    let shown = Body {
        code: body.code,
        words: body.words,
        locals,
        globals,
        rows,
        site,
    };
    turn_at(&shown, at, args, stems, due, h)
}

// The length of a body renumbered, of one length at each offset; or that this fails. (A mask asks for the offset of its operator.)
fn body_len(one: &LongBody<'_>, lent: &mut Lent<'_>) -> Option<usize>
    requires { two_lengths_lem (rows_of one.now.body.now.rows.bytes.now) (site_of one.now.body.now.site) ≡ false }
    ensures { (result ≡ sized_of (turned_of one.now.body.now)) × SameRoom lent.old lent.new }
{
    let body = one.body;
    let code = body.code;
    let site = body.site;
    let of = LongSite { site };
    let mut part = None;
    let mut c = start();
    let mut h = None;
    let mut len: usize = 0;
    while more(code, c) {
        let run = run_at(code, c.at, c.args, c.stems, c.due);
        if c.at < run.at {
            len += run_len(h, c.at, run.last);
            h = number_before(code, run.last, run.at);
            c = Cursor {
                at: run.at,
                args: run.args,
                stems: run.stems,
                due: false,
            };
            continue;
        }
        let offset = c.at.saturating_sub(1);
        let next = offsets::advance(part, body.rows.bytes, of, offset, &mut *lent);
        part = Some(next);
        match turn_in(body, next, &*lent, c.at, c.args, c.stems, c.due, h) {
            Some(turned) => {
                len += sent_len(turned.before, turned.token);
                h = held_after(turned.token);
                c = Cursor {
                    at: turned.next.at,
                    args: turned.next.args,
                    stems: turned.next.stems,
                    due: turned.next.due,
                };
            }
            None => return None,
        }
    }
    Some(len + held_len(h))
}

// The length of a body renumbered, or that this fails: two lengths at one offset fail too.
pub fn renumbered_len(one: &LongBody<'_>, lent: &mut Lent<'_>) -> Option<usize>
    ensures { (result ≡ sized_of (renumbered_of one.now.body.now)) × SameRoom lent.old lent.new }
{
    let body = one.body;
    if offsets::two_lengths_of(body.rows.bytes, body.site, &mut *lent.keys) {
        return None;
    }
    body_len(one, lent)
}

// A body renumbered.
pub fn put_renumbered(one: &LongBody<'_>, out: &mut Out<'_>, lent: &mut Lent<'_>)
    requires { (is_yes (renumbered_of one.now.body.now) ≡ true) × (out.old.at + length (body_of_lem (renumbered_of one.now.body.now)) ≤ length out.old.bytes.now) }
    ensures { (Writes out.old (body_of_lem (renumbered_of one.now.body.now)) out.new) × SameRoom lent.old lent.new }
{
    let body = one.body;
    let code = body.code;
    let site = body.site;
    let of = LongSite { site };
    let mut part = None;
    let mut c = start();
    let mut h = None;
    while more(code, c) {
        let run = run_at(code, c.at, c.args, c.stems, c.due);
        if c.at < run.at {
            put_run(code, h, c.at, run.last, &mut *out);
            h = number_before(code, run.last, run.at);
            c = Cursor {
                at: run.at,
                args: run.args,
                stems: run.stems,
                due: false,
            };
            continue;
        }
        let offset = c.at.saturating_sub(1);
        let next = offsets::advance(part, body.rows.bytes, of, offset, &mut *lent);
        part = Some(next);
        match turn_in(body, next, &*lent, c.at, c.args, c.stems, c.due, h) {
            Some(turned) => {
                put_sent(code, turned.before, turned.token, &mut *out);
                h = held_after(turned.token);
                c = Cursor {
                    at: turned.next.at,
                    args: turned.next.args,
                    stems: turned.next.stems,
                    due: turned.next.due,
                };
            }
            None => return,
        }
    }
    put_held(h, out);
}
