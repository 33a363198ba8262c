// `vatcowslip`: prints the listing of the script on standard input.
#![tactic(auto)]

use scripts::program::{INPUT_BYTES, OUTPUT_BYTES, print_into};
use std::io::{Read, Write};

fn work(rt: &HostRuntime) -> anyhow::Result<()> {
    let mut input = Vec::new(rt.alloc());
    rt.stdin().take(INPUT_BYTES).read_to_end(&mut input)?;
    let mut output = [0; OUTPUT_BYTES];
    let length = print_into(input.as_slice(), &mut output);
    rt.stdout().write_all(&output[..length])?;
    Ok(())
}

fn main(rt: HostRuntime) -> anyhow::Result<()> {
    work(&rt)
}
