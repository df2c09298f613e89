// Prices an allocation of a sheet's drawing: the sheet on standard input, its width digits, its space digits and possibly `total`, `worst` or
// `late` as arguments.
#![tactic(auto)]

use quotes::quotes::{READ, quoted};
use std::env;
use std::io::{Read, Write};

fn main(rt: HostRuntime) -> anyhow::Result<()> {
    let heap = rt.alloc();
    let mut input = Vec::new(heap);
    rt.stdin().take(READ as u64).read_to_end(&mut input)?;
    // Arguments that are no text are as good as none: the answer says how to ask.
    let args = match env::args(&rt) {
        Ok(words) => words.skip(1).collect(heap)?,
        Err(_) => Vec::new(heap),
    };
    rt.stdout()
        .write_all(quoted(input.as_slice(), args.as_slice()).text())?;
    Ok(())
}
