// The new numbers of subroutines (document 02, Wish 7): a bit in the work words for each subroutine that is reached, which is numbered by the
// ones below its bit. (Marks that become ranks, plus 1, number the FDs in use.)
ghost use Rattle.std.specs.Prelude.{◌≡◌, ◌+◌, ◌≤◌, ◌<◌, eqb, length};
ghost use Rattle.octets.specs.Octets.{put};
ghost use Rattle.bits.specs.Bits.{words_for, bits_of};
ghost use Rattle.record.specs.Record.{rows_of};
ghost use Rattle.reach.specs.Reach.{SubrsFit, row_in, set_of, ranked_of};
ghost use Rattle.reach.specs.Ranks.{tells, mark_row, marked, past_row, past_of, ranked, counted, reached_in, counts_of};

use crate::{Row, Subrs};

// How many of some subroutines are reached, whether the record has no other number, and how many are reached below each eighth of their words.
#[derive(Clone, Copy)]
pub struct Ranked {
    pub reached: usize,
    pub all: bool,
    pub low: usize,
    pub high: usize,
}

// Sets the words of count subroutines, from `at` on, to a bit for each that the record has: globals, or locals of an FD.
pub fn rank_reached(rows: &[u8], of: Subrs, words: &mut [u32], at: usize, count: usize) -> Ranked
    requires { (SubrsFit of) × (count < 65536) × (at + words_for count ≤ length words.old) }
    ensures { (words.new ≡ put words.old at (bits_of (set_of (rows_of rows.now) of) count))
        × (result ≡ ranked_of (set_of (rows_of rows.now) of) count) }
{
    let end = at + bits::words_for(count);
    match of {
        Subrs::Global => rank_rows(rows, 1, 0, count, &mut words[at..end]),
        Subrs::Local(fd) => rank_rows(rows, 0, fd as u8, count, &mut words[at..end]),
    }
}

// The same for all of some words, and the rows of a kind and an FD. The kind is the number that the rows have.
fn rank_rows(rows: &[u8], kind: u8, fd: u8, count: usize, held: &mut [u32]) -> Ranked
    requires { (count < 65536) × (length held.old ≡ words_for count) }
    ensures { (held.new ≡ bits_of (reached_in (rows_of rows.now) kind fd) count)
        × (result ≡ ranked_of (reached_in (rows_of rows.now) kind fd) count) }
{
    held.fill(0);
    let all = mark_rows(rows, kind, fd, count, held);
    sums_of(held, all)
}

// How many bits are set in some words, and how many below each eighth of them.
fn sums_of(held: &[u32], all: bool) -> Ranked
    requires { length held.now ≤ 2048 }
    ensures { result ≡ counts_of held.now all }
{
    let n = held.len();
    let e = bits::sums::eighth(n);
    let reached = bits::whole_ones(held, 0, n);
    let low = bits::sums::four_sums(held, 0, e);
    let high = bits::sums::four_sums(held, 4 * e, e);
    Ranked {
        reached,
        all,
        low,
        high,
    }
}

// Whether a row says that a subroutine of a kind and an FD is reached.
fn tells(r: Row, kind: u8, fd: u8) -> bool
    ensures { result ≡ tells (row_in r) kind fd }
{
    if r.kind != kind {
        return false;
    }
    if r.fd != fd {
        return false;
    }
    if r.offset != 0 {
        return false;
    }
    r.len == 0
}

// Sets the bit of the subroutine that a row says is reached; false where there is no such subroutine.
fn mark_row(r: Row, kind: u8, fd: u8, count: usize, held: &mut [u32]) -> bool
    requires { words_for count ≤ length held.old }
    ensures { (held.new ≡ mark_row kind fd count held.old (row_in r)) × (result ≡ eqb (past_row kind fd count (row_in r)) 0) }
{
    let number = r.number as usize;
    if tells(r, kind, fd) {
        if number < count {
            bits::set_bit(held, 0, number);
            return true;
        }
        return false;
    }
    true
}

// Sets the bits of the subroutines that the rows say are reached; false where one of the rows has no subroutine.
fn mark_rows(rows: &[u8], kind: u8, fd: u8, count: usize, held: &mut [u32]) -> bool
    requires { words_for count ≤ length held.old }
    ensures { (held.new ≡ marked kind fd count (rows_of rows.now) held.old)
        × (result ≡ eqb (past_of kind fd count (rows_of rows.now)) 0) }
{
    let mut all = true;
    for i in 0..rows.len() / 10 {
        let r = crate::row_at(rows, i);
        if !mark_row(r, kind, fd, count, &mut *held) {
            all = false;
        }
    }
    all
}

// Turns marks into ranks, plus 1; returns how many marks there were.
pub fn rank_marks(marks: &mut [u32]) -> usize
    requires { length marks.old < 65536 }
    ensures { (marks.new ≡ ranked 0 marks.old) × (result ≡ counted 0 marks.old) }
{
    let mut reached = 0;
    for mark in marks.iter_mut() {
        if *mark != 0 {
            reached += 1;
            *mark = reached as u32;
        }
    }
    reached
}
