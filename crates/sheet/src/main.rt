// Checks a sheet: prints it back, or the line that names its first fault.
#![tactic(auto)]

use std::io;
use std::io::{Read, Write};
use writers::answers::checks::{READ, checked};

fn main(rt: HostRuntime) -> io::Result<()> {
    let mut input = Vec::new(rt.alloc());
    rt.stdin().take(READ as u64).read_to_end(&mut input)?;
    rt.stdout().write_all(checked(input.as_slice()).text())
}
