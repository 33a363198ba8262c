// Where lines and fields begin and end, and what a number is.
use crate::script_setups::{list_each, lists_in};
use std::test::Fail;

#[test]
fn ends_of_lines(rt: HostRuntime) -> Result<(), Fail> {
    list_each(
        &rt,
        rt.alloc(),
        &[
            ("", ""),
            ("\n", "1 E 12 L 0\n"),
            ("T 1", "1 S 0\n"),
            ("T 1\n", "1 S 0\n"),
            ("T 1\n\n", "1 S 0\n2 E 12 L 0\n"),
            ("T 1\nW 0", "1 S 0\n2 W 0 0 0 0\n"),
            ("\nT 1", "1 E 12 L 0\n2 S 0\n"),
        ],
    )
}

#[test]
fn spaces(rt: HostRuntime) -> Result<(), Fail> {
    list_each(
        &rt,
        rt.alloc(),
        &[
            (" ", "1 E 12 L 0\n"),
            (" T 1", "1 E 12 L 0\n"),
            ("T", "1 E 12 L 1\n"),
            ("T ", "1 E 12 L 1\n"),
            ("T  1", "1 E 12 L 1\n"),
            ("T 1 ", "1 E 12 L 2\n"),
            ("T 1  ", "1 E 12 L 2\n"),
            ("T 1 1", "1 E 12 L 2\n"),
            ("W 0 ", "1 E 12 L 2\n"),
            ("P 0  0 0", "1 E 12 L 2\n"),
            ("P 0 0 0", "1 E 12 L 4\n"),
            ("P 0 0 0 ", "1 E 12 L 4\n"),
            ("P 0 0 0 0 ", "1 E 12 L 5\n"),
            ("Q 0 0 0 0 0", "1 E 12 L 5\n"),
        ],
    )
}

#[test]
fn letters(rt: HostRuntime) -> Result<(), Fail> {
    list_each(
        &rt,
        rt.alloc(),
        &[
            ("TT 1", "1 E 12 L 0\n"),
            ("t 1", "1 E 12 L 0\n"),
            ("S 1", "1 E 12 L 0\n"),
            ("T1", "1 E 12 L 0\n"),
            ("1", "1 E 12 L 0\n"),
            ("# a note", "1 E 12 L 0\n"),
        ],
    )
}

// A number that can be read is then refused for its size, or as one that no plan has points of.
#[test]
fn numbers(rt: HostRuntime) -> Result<(), Fail> {
    list_each(
        &rt,
        rt.alloc(),
        &[
            ("T -", "1 E 12 L 1\n"),
            ("T --1", "1 E 12 L 1\n"),
            ("T +1", "1 E 12 L 1\n"),
            ("T 1-", "1 E 12 L 1\n"),
            ("T 12345678901", "1 E 12 L 1\n"),
            ("T -12345678901", "1 E 12 L 1\n"),
            ("T 00000000001", "1 E 12 L 1\n"),
            ("T 0000000001", "1 S 0\n"),
            ("T -0", "1 E 3 P 0\n"),
            ("W -0", "1 E 1 P 0\n"),
            ("P -0 -0 -0 -0", "1 E 1 P 0\n"),
            ("W 9999999999", "1 E 7 D 1\n"),
            ("P 0 0 -9999999999 -", "1 E 12 L 4\n"),
            ("P 0 0 -9999999999 0", "1 E 7 D 3\n"),
        ],
    )
}

// Byte 13 is no end of a line, and none of these bytes is a space.
#[test]
fn other_bytes(rt: HostRuntime) -> Result<(), Fail> {
    let heap = rt.alloc();
    for byte in [0, 9, 11, 13, 127, 128, 255] {
        lists_in(&rt, heap, 64, &[byte], "1 E 12 L 0\n")?;
        lists_in(&rt, heap, 64, &[b'T', byte, b'1'], "1 E 12 L 0\n")?;
        lists_in(&rt, heap, 64, &[b'T', b' ', b'1', byte], "1 E 12 L 1\n")?;
        lists_in(
            &rt,
            heap,
            128,
            &[b'T', b' ', b'1', b'\n', byte],
            "1 S 0\n2 E 12 L 0\n",
        )?;
    }
    Ok(())
}
