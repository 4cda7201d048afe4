// The program `cut` again, for another stored run: its stdin has above 4,096 bytes, so that it comes in more than one read, and thousands of empty rows.
// No contract says which bytes a read gives; this run stops a loop that takes too few.
#![tactic(auto)]

use std::io;

fn main(rt: HostRuntime) -> io::Result<()> {
    let mut page = [0u8; 98316];
    let n = sheet_read::put_cut(&mut rt.stdin(), &mut page);
    rt.write_all(&page[..n])
}
