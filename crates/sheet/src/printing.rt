// What the program `cut` prints: a refusal, or the way, the length and the bytes, 16 a line.
ghost use Rattle.std.specs.Prelude.{◌≡◌, [], ◌∷◌, ◌+◌, ◌≤◌, ◌<◌, length};
ghost use Rattle.octets.specs.Octets.{bytes_of, Wrote};
ghost use Rattle.octets.specs.Out.{Writes};
ghost use Rattle.hexlines.specs.Hexlines.{digit_of, hex_text};
ghost use Rattle.sheet.specs.Sheet.{in_lines, refusal_line, subset_lines};
ghost use Rattle.sheet.specs.Printing.{head_bytes, cell_bytes, next_col};

use octets::out::Out;

// The digit of a value below 16.
fn digit(v: u8) -> u8
    requires { v < 16 }
    ensures { result ≡ digit_of v }
{
    if v < 10 {
        return 48 + v;
    }
    87 + v
}

// A byte in two digits.
fn put_octet(b: u8, out: &mut Out<'_>)
    requires { out.old.at + 2 ≤ length out.old.bytes.now }
    ensures { Writes out.old (hex_text (b ∷ [])) out.new }
{
    let high = digit(b / 16);
    let low = digit(b % 16);
    out.pair(high, low);
}

// The low two bytes of a number in four digits.
fn put_two(v: usize, out: &mut Out<'_>)
    requires { out.old.at + 4 ≤ length out.old.bytes.now }
    ensures { Writes out.old (hex_text (bytes_of 2 v)) out.new }
{
    put_octet((v / 256 % 256) as u8, out);
    put_octet((v % 256) as u8, out);
}

// The low four bytes of a number in eight digits.
fn put_four(v: usize, out: &mut Out<'_>)
    requires { out.old.at + 8 ≤ length out.old.bytes.now }
    ensures { Writes out.old (hex_text (bytes_of 4 v)) out.new }
{
    put_two(v / 256 / 256, out);
    put_two(v, out);
}

// The first line of a subset: the number of its way and its length.
fn put_head(way: u8, n: usize, out: &mut Out<'_>)
    requires { out.old.at + 11 ≤ length out.old.bytes.now }
    ensures { Writes out.old (head_bytes way n) out.new }
{
    put_octet(way, out);
    put_four(n, out);
    out.byte(b'\n');
}

// A byte of a line that holds col already, and a line feed behind the last of a line.
fn put_cell(b: u8, col: usize, out: &mut Out<'_>)
    requires { out.old.at + length (cell_bytes b col) ≤ length out.old.bytes.now }
    ensures { Writes out.old (cell_bytes b col) out.new }
{
    if col == 15 {
        put_octet(b, out);
        out.byte(b'\n');
        return;
    }
    put_octet(b, out);
}

// How many bytes the line holds after one more.
fn next_col(col: usize) -> usize
    requires { col ≤ 15 }
    ensures { (result ≡ next_col col) × (result ≤ 15) }
{
    if col == 15 {
        return 0;
    }
    col + 1
}

// Bytes, 16 a line.
fn put_lines(bytes: &[u8], out: &mut Out<'_>)
    requires { out.old.at + length (in_lines 0 bytes.now) ≤ length out.old.bytes.now }
    ensures { Writes out.old (in_lines 0 bytes.now) out.new }
{
    let mut col = 0;
    for b in bytes {
        put_cell(*b, col, out);
        col = next_col(col);
    }
    if col == 0 {
        return;
    }
    out.byte(b'\n');
}

// Writes what is printed of the number of a refusal, 0 for other input, to the start of out; returns its length.
pub fn put_refused(n: u8, out: &mut [u8]) -> usize
    requires { 5 ≤ length out.old }
    ensures { Wrote out.old 0 (refusal_line n) out.new result }
{
    let mut to = Out { bytes: out, at: 0 };
    put_octet(255, &mut to);
    put_octet(n, &mut to);
    to.byte(b'\n');
    to.at
}

// Writes what is printed of a subset to the start of out; returns its length. The way is its number, and any other number is printed as it is.
pub fn put_subset(way: u8, bytes: &[u8], out: &mut [u8]) -> usize
    requires { length (subset_lines way bytes.now) ≤ length out.old }
    ensures { Wrote out.old 0 (subset_lines way bytes.now) out.new result }
{
    let mut to = Out { bytes: out, at: 0 };
    put_head(way, bytes.len(), &mut to);
    put_lines(bytes, &mut to);
    to.at
}
