// How long a script may be, and how short an output.
use crate::script_setups::{lists_in, prints, refuses_in};
use faults::{Fault, Layer};
use scripts::ScriptFault;
use std::alloc::Global;
use std::test::Fail;

// An output of so many bytes gets a listing, or is refused.
#[test]
fn outputs_of_64_bytes_a_line(rt: HostRuntime) -> Result<(), Fail> {
    let table = [
        (0, "", Some("")),
        (0, "T 1", None),
        (63, "T 1", None),
        (64, "T 1", Some("1 S 0\n")),
        (63, "T 1\n", None),
        (64, "T 1\n", Some("1 S 0\n")),
        (64, "T 1\nW 0", None),
        (127, "T 1\nW 0", None),
        (128, "T 1\nW 0", Some("1 S 0\n2 W 0 0 0 0\n")),
        (127, "\n\n", None),
        (128, "\n\n", Some("1 E 12 L 0\n2 E 12 L 0\n")),
    ];
    for (room, script, listing) in table {
        match listing {
            Some(listing) => lists_in(&rt, rt.alloc(), room, script.as_bytes(), listing)?,
            None => refuses_in(&rt, rt.alloc(), room, script.as_bytes())?,
        }
    }
    Ok(())
}

// A script of so many empty lines, and its listing.
fn empty_lines(heap: Global, count: usize) -> Result<(Vec<u8>, String), Fail> {
    let script = vec![in heap; b'\n'; count]?;
    let mut listing = String::new(heap);
    for number in 0..count {
        listing.push_str(format!(in heap; "{} E 12 L 0\n", number + 1)?.as_str())?;
    }
    Ok((script, listing))
}

// An output of 65,536 bytes is enough for 1,024 lines.
#[test]
fn lines_with_nothing_in_them(rt: HostRuntime) -> Result<(), Fail> {
    let heap = rt.alloc();
    let (script, listing) = empty_lines(heap, 1_024)?;
    refuses_in(&rt, heap, 65_535, script.as_slice())?;
    lists_in(&rt, heap, 65_536, script.as_slice(), listing.as_str())
}

#[test]
fn one_line_more_with_nothing_in_it(rt: HostRuntime) -> Result<(), Fail> {
    let heap = rt.alloc();
    let (script, listing) = empty_lines(heap, 1_025)?;
    refuses_in(&rt, heap, 65_536, script.as_slice())?;
    refuses_in(&rt, heap, 65_599, script.as_slice())?;
    lists_in(&rt, heap, 65_600, script.as_slice(), listing.as_str())
}

// One more byte is refused, however long the output is.
#[test]
fn the_longest_scripts(rt: HostRuntime) -> Result<(), Fail> {
    let heap = rt.alloc();
    let mut script = vec![in heap; b'W'; 32_768]?;
    lists_in(&rt, heap, 64, script.as_slice(), "1 E 12 L 0\n")?;
    script.push(b'W')?;
    refuses_in(&rt, heap, 64, script.as_slice())?;
    refuses_in(&rt, heap, 100_000, script.as_slice())
}

#[test]
fn what_the_program_prints(rt: HostRuntime) {
    prints(&rt, b"", "");
    prints(&rt, b"T 1\nW 0", "1 S 0\n2 W 0 0 0 0\n");
}

// The program has room for 1,024 lines, and tells by one line that a text has more, or more than 32,768 bytes.
#[test]
fn what_the_program_prints_of_the_longest_scripts(rt: HostRuntime) -> Result<(), Fail> {
    let heap = rt.alloc();
    let too_long = "E 14 L 0\n";
    let (script, listing) = empty_lines(heap, 1_024)?;
    prints(&rt, script.as_slice(), listing.as_str());
    prints(&rt, vec![in heap; b'\n'; 1_025]?.as_slice(), too_long);
    prints(&rt, vec![in heap; b'W'; 32_768]?.as_slice(), "1 E 12 L 0\n");
    prints(&rt, vec![in heap; b'W'; 32_769]?.as_slice(), too_long);
    Ok(())
}

#[test]
fn the_fault_of_room(rt: HostRuntime) {
    let told = Fault {
        number: 14,
        layer: Layer::Lines,
        place: 0,
    };
    assert_eq!(rt; Fault::from(ScriptFault::Room), told);
}
