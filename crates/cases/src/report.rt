// What is printed of a text: a row for each kind, and the first line that failed.
ghost use Rattle.std.specs.Prelude.{◌+◌, ◌*◌, ◌≤◌, length};
ghost use Rattle.io.specs.Counts.{IsPrefixLen};
ghost use Rattle.octets.specs.Octets.{Wrote};
ghost use Rattle.octets.specs.Out.{Writes};
ghost use Rattle.cases.specs.Report.{decimal, word_bytes, tally_bytes, row_bytes, rows_bytes, other_bytes, first_bytes, report_bytes};

use octets::out::Out;

fn put_decimal(n: usize, out: &mut Out<'_>)
    requires { out.old.at + 20 ≤ length out.old.bytes.now }
    ensures { Writes out.old (decimal 20 n) out.new }
{
    let mut text = [0u8; 20];
    let k = io::decimal(n as u64, &mut text);
    out.copy(&text[..k]);
}

// A word and a number.
fn put_count(word: &[u8], n: usize, out: &mut Out<'_>)
    requires { (length word.now ≤ 18) × (out.old.at + 38 ≤ length out.old.bytes.now) }
    ensures { Writes out.old (word_bytes word.now n) out.new }
{
    out.copy(word);
    put_decimal(n, out);
}

// How many lines agreed and how many failed.
fn put_tally(agreed: usize, failed: usize, out: &mut Out<'_>)
    requires { out.old.at + 66 ≤ length out.old.bytes.now }
    ensures { Writes out.old (tally_bytes agreed failed) out.new }
{
    put_count(b" agreed ", agreed, out);
    put_count(b" failed ", failed, out);
}

// A row: its letter, its counts and a line feed. The kind is that letter, as the lines have it.
fn put_row(kind: u8, agreed: usize, failed: usize, out: &mut Out<'_>)
    requires { out.old.at + 68 ≤ length out.old.bytes.now }
    ensures { Writes out.old (row_bytes kind agreed failed) out.new }
{
    out.byte(kind);
    put_tally(agreed, failed, out);
    out.byte(b'\n');
}

fn put_rows(kinds: &[u8], counts: &[usize], out: &mut Out<'_>)
    requires { (2 * length kinds.now ≤ length counts.now) × (out.old.at + (58 * length kinds.now + 10) ≤ length out.old.bytes.now) }
    ensures { Writes out.old (rows_bytes kinds.now counts.now 0) out.new }
{
    for (i, kind) in kinds.iter().enumerate() {
        put_row(*kind, counts[2 * i], counts[2 * i + 1], out);
    }
}

fn put_first(first: Option<usize>, out: &mut Out<'_>)
    requires { out.old.at + 58 ≤ length out.old.bytes.now }
    ensures { Writes out.old (first_bytes first) out.new }
{
    match first {
        None => out.copy(b"all agreed\n"),
        Some(line) => {
            put_count(b"first failed line ", line, out);
            out.byte(b'\n');
        }
    }
}

// The row of lines that are of no kind.
fn put_other(kinds: &[u8], counts: &[usize], out: &mut Out<'_>)
    requires { (2 * length kinds.now + 2 ≤ length counts.now) × (out.old.at + 68 ≤ length out.old.bytes.now) }
    ensures { Writes out.old (other_bytes kinds.now counts.now) out.new }
{
    let k = 2 * kinds.len();
    put_row(b'?', counts[k], counts[k + 1], out);
}

// The report of a text, from the start of out on; its length.
pub fn put_report(kinds: &[u8], counts: &[usize], first: Option<usize>, out: &mut [u8]) -> usize
    requires { (length kinds.now ≤ 24) × (2 * length kinds.now + 2 ≤ length counts.now) × (2048 ≤ length out.old) }
    ensures { (Wrote out.old 0 (report_bytes kinds.now counts.now first) out.new result) × IsPrefixLen result out.new }
{
    let mut to = Out { bytes: out, at: 0 };
    put_rows(kinds, counts, &mut to);
    put_other(kinds, counts, &mut to);
    put_first(first, &mut to);
    to.at
}
