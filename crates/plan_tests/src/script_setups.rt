// Calls with an output whose bytes are known before them, and what the call must do to it.
use scripts::program::{OUTPUT_BYTES, print_into};
use scripts::{ScriptFault, list};
use std::alloc::Global;
use std::process::Abort;
use std::test::Fail;

// What every byte of an output is before the call.
const BEFORE: u8 = 0xaa;

// An output of so many bytes gets this listing, and keeps its bytes after it.
pub(crate) fn lists_in(
    rt: &impl Abort,
    heap: Global,
    room: usize,
    script: &[u8],
    listing: &str,
) -> Result<(), Fail> {
    let mut output = vec![in heap; BEFORE; room]?;
    let length = list(script, output.as_mut_slice())?;
    let (written, after) = output.as_slice().split_at(length);
    assert_eq!(rt; written, listing.as_bytes());
    assert!(rt; after.iter().all(|b| *b == BEFORE));
    Ok(())
}

// An output of so many bytes is refused, and keeps them all.
pub(crate) fn refuses_in(
    rt: &impl Abort,
    heap: Global,
    room: usize,
    script: &[u8],
) -> Result<(), Fail> {
    let mut output = vec![in heap; BEFORE; room]?;
    assert_eq!(rt; list(script, output.as_mut_slice()), Err(ScriptFault::Room));
    assert!(rt; output.iter().all(|b| *b == BEFORE));
    Ok(())
}

// Each script has the listing beside it.
pub(crate) fn list_each(
    rt: &impl Abort,
    heap: Global,
    scripts: &[(&str, &str)],
) -> Result<(), Fail> {
    for (script, listing) in scripts {
        lists_in(rt, heap, 1_024, script.as_bytes(), listing)?;
    }
    Ok(())
}

// The program prints this of a text that begins with the input, and its output keeps its bytes after that.
pub(crate) fn prints(rt: &impl Abort, input: &[u8], printed: &str) {
    let mut output = [BEFORE; OUTPUT_BYTES];
    let length = print_into(input, &mut output);
    let (written, after) = output.split_at(length);
    assert_eq!(rt; written, printed.as_bytes());
    assert!(rt; after.iter().all(|b| *b == BEFORE));
}
