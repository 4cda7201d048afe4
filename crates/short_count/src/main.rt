// Walks all short charstrings from nothing on (document 02, Wish 13), and prints how many there are of each length, how many in all, and FNV-1a, 32
// bits, over their bytes one behind the other. tools/short_charstrings.py makes the same text another way.
#![tactic(auto)]

ghost use Rattle.std.specs.Prelude.{◌≡◌};
ghost use Rattle.short_count.specs.Count.{fnv, fnv_over, zeros, Walked};

use std::io;

// One byte more.
fn mix(hash: u32, b: u8) -> u32
    ensures { result ≡ fnv hash b }
{
    let x = hash ^ (b as u32);
    ((x as u64) * 16777619 % 4294967296) as u32
}

// The bytes of a charstring more.
fn mix_all(hash: u32, code: &[u8]) -> u32
    ensures { result ≡ fnv_over hash code.now }
{
    code.iter().fold(hash, |h, b| mix(h, *b))
}

// All of them, counted: in all at place 0, and of each length at its place; FNV-1a of their bytes.
fn walk_all(counts: &mut [u64]) -> u32
    requires { counts.old ≡ zeros }
    ensures { Walked counts.new result }
{
    let mut code = [0u8; 4];
    let mut n = 0;
    let mut hash: u32 = 2166136261;
    loop {
        let mut next = [0u8; 4];
        match short_charstrings::next_charstring(&code[..n], &mut next) {
            Err(_) => return hash,
            Ok(None) => return hash,
            Ok(Some(k)) => {
                code = next;
                n = k;
                counts[0] += 1;
                counts[k] += 1;
                hash = mix_all(hash, &next[..k]);
            }
        }
    }
}

fn print_line(rt: &impl Print, word: &[u8], n: u64) -> io::Result<()> {
    rt.write_all(word)?;
    println!(rt; "{n}")
}

fn main(rt: HostRuntime) -> io::Result<()> {
    let mut counts = [0u64; 5];
    let hash = walk_all(&mut counts);
    print_line(&rt, b"1 byte: ", counts[1])?;
    print_line(&rt, b"2 bytes: ", counts[2])?;
    print_line(&rt, b"3 bytes: ", counts[3])?;
    print_line(&rt, b"4 bytes: ", counts[4])?;
    print_line(&rt, b"all: ", counts[0])?;
    println!(rt; "FNV-1a: {hash:08x}")
}
