// Reads an archive from standard input and prints the sums of its lines by month and owner.
#![tactic(auto)]

use rolls::summary;
use std::io;
use std::io::{Read, Write};

fn main(rt: HostRuntime) -> io::Result<()> {
    // One byte more than can be summed tells that the archive is too long.
    let mut archive = Vec::new(rt.alloc());
    rt.stdin().take(65_530).read_to_end(&mut archive)?;
    let mut page = [0; 65_536];
    let count = summary(&archive, &mut page);
    rt.stdout().write_all(&page[0..count])
}
