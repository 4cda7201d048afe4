// Replays stored cases, a line each (tools/oracle/README.md, 'Lines'), against the proved functions, and prints of each file how many of
// each kind agreed: the original Rust's answers, and document 01's corners.
#![tactic(auto)]

mod answers;
mod lines;

ghost use Rattle.std.specs.Prelude.{◌≤◌, length};
ghost use Rattle.io.specs.Counts.{IsPrefixLen};
ghost use Rattle.octets.specs.Octets.{Wrote};
ghost use Rattle.cases.specs.Report.{report_of};
ghost use Rattle.replay.specs.Answers.{answer_to};

use std::fs::File;
use std::io::Read;
use std::rt::Files;

// The report of the n bytes that were read into a buffer, written to the start of out; its length. It takes the whole buffer: where they fill it, the file may
// have more.
fn put_report_of(kinds: &[u8], buffer: &[u8], n: usize, out: &mut [u8]) -> usize
    requires { (length kinds.now ≤ 24) × (n ≤ length buffer.now) × (2048 ≤ length out.old) }
    ensures { (Wrote out.old 0 (report_of answer_to kinds.now buffer.now n) out.new result) × IsPrefixLen result out.new }
{
    if n < buffer.len() {
        let mut counts = [0usize; 50];
        let first = lines::replay(kinds, &buffer[..n], &mut counts);
        return cases::report::put_report(kinds, &counts, first, out);
    }
    octets::put_bytes(out, 0, b"text too long\n")
}

// Reads until a buffer is full, the file ends or a read fails; how many bytes it put at the start of the buffer.
fn read_full(file: &mut impl Read, buffer: &mut [u8]) -> usize
    ensures { IsPrefixLen result buffer.new }
{
    let mut done = 0;
    while done < buffer.len() {
        match file.read(&mut buffer[done..]) {
            Ok(0) => break,
            Ok(n) => done += n,
            Err(_) => break,
        }
    }
    done
}

// Prints the report of a file, by these kinds; lines of other kinds are counted in the row `?`. Returns how many bytes it printed, which
// `put_report_of` determines: 0 where there is no such file.
fn replay_file(
    rt: &(impl Files + Print + Eprint),
    path: &str,
    kinds: &[u8],
    buffer: &mut [u8; 1048576],
) -> usize
    requires { length kinds.now ≤ 24 }
    ensures { result ≤ 2048 }
{
    let mut file = match File::open(rt, path) {
        Ok(file) => file,
        Err(e) => {
            let _ = eprintln!(rt; "{path}: {e}");
            return 0;
        }
    };
    let n = read_full(&mut file, &mut *buffer);
    let mut out = [0u8; 2048];
    let k = put_report_of(kinds, &*buffer, n, &mut out);
    let _ = rt.write_all(&out[..k]);
    k
}

// The file corners holds document 01's cases, 'Corners in charstring.rs', written by hand: the bias at 1239, 1240, 33899 and 33900;
// four numbers rewritten; the own count of a mask, one stem at 1, 3, 18, 23, 19 and 20 and none at 21, 17 and 18 numbers, stems of
// three operators, numbers before 21; the record's length, longer and shorter than the own, and one for another offset.
fn main(rt: HostRuntime) {
    let mut buffer = [0u8; 1048576];
    replay_file(&rt, "charstring", b"nifteb", &mut buffer);
    replay_file(&rt, "corners", b"nifteb", &mut buffer);
    replay_file(&rt, "format", b"xdwcs", &mut buffer);
    replay_file(&rt, "cff", b"RNCI", &mut buffer);
    replay_file(&rt, "subset", b"SD", &mut buffer);
}
