// Document 01, 'One sheet, whole': a sheet taken from standard input, or from another reader, piece by piece, and what is printed of it. The programs `cut` and `cut_long` print it.
#![tactic(auto)]

ghost use Rattle.std.specs.Prelude.{◌≤◌, ◌≤ℤ◌, pos, negsuc, length};
ghost use Rattle.io.specs.Counts.{IsPrefixLen};
ghost use Rattle.sheet_cut.specs.Cutting.{Given};
ghost use Rattle.sheet_read.specs.Program.{Begun, Goes, Prints};

use sheet::taking::Taking;
use std::io::Read;

// What came of one read: it failed, the input is at its end, or more was taken.
#[derive(Clone, Copy)]
enum Next {
    Failed,
    End,
    More,
}

// Takes what a read that answered got has put in front of a piece.
fn take_read(got: isize, piece: &[u8], taking: &mut Taking<'_>) -> Next
    ensures { Goes got piece.now taking.old taking.new result }
{
    if got < 0 {
        return Next::Failed;
    }
    let n = io::count(got, piece);
    if n == 0 {
        return Next::End;
    }
    taking.take(&piece[..n]);
    Next::More
}

// What a read put in front of a piece: how many bytes, or -1 if it failed.
fn read_piece(input: &mut impl Read, piece: &mut [u8; 4096]) -> isize
    ensures least { negsuc 0 ≤ℤ result }
    ensures most { result ≤ℤ pos (length piece.new) }
{
    match input.read(&mut *piece) {
        Ok(n) => n as isize,
        Err(_) => -1,
    }
}

// Takes the input to its end; returns how many bytes are in the buffer. After a read that fails nothing is: that is other input. Which bytes a read
// gives is known to no contract, so this one says that some text was taken. A proved loop has to end: this one has more turns than any run takes.
fn take_input(input: &mut impl Read, taking: &mut Taking<'_>) -> usize
    requires { Begun taking.old.len taking.old.mode taking.old.buffer.now }
    ensures { Given result taking.new.buffer.now }
{
    for _ in 0..u64::MAX {
        let mut piece = [0u8; 4096];
        let got = read_piece(input, &mut piece);
        let next = take_read(got, &piece, taking);
        match next {
            Next::Failed => return 0,
            Next::End => return taking.len,
            Next::More => {}
        }
    }
    taking.len
}

// Writes what is printed of the input to the start of page; returns its length.
pub fn put_cut(input: &mut impl Read, page: &mut [u8]) -> usize
    requires { 98316 ≤ length page.old }
    ensures { (Prints page.old page.new result) × IsPrefixLen result page.new }
{
    let mut buffer = [0u8; 48134];
    let mut taking = Taking {
        buffer: &mut buffer,
        len: 0,
        mode: 0,
    };
    let len = take_input(input, &mut taking);
    let Taking {
        buffer: taken,
        len: _,
        mode: _,
    } = taking;
    sheet_cut::cut_taken(&*taken, len, page)
}
