// Document 01, 'One sheet, whole': reads a sheet from standard input, cuts its font and prints the subset or the refusal.
#![tactic(auto)]

use std::io;

fn main(rt: HostRuntime) -> io::Result<()> {
    let mut page = [0u8; 98316];
    let n = sheet_read::put_cut(&mut rt.stdin(), &mut page);
    rt.write_all(&page[..n])
}
