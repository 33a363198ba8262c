// What is kept of a line, where its fields begin and end, and which values are in them.
use lines::fault::LineFault;
use lines::fields::Fields;
use lines::line::Line;
use lines::listing::values;

#[test]
fn a_line_keeps_its_front(rt: HostRuntime) {
    let mut line = Line::new();
    assert!(rt; line.is_empty());
    for b in b'0'..b'p' {
        line.push(b);
    }
    assert_eq!(rt;
        line.bytes(),
        b"0123456789:;<=>?@ABCDEFGHIJKLMNOPQRSTUVWXYZ[\\]^_".as_slice()
    );
    line.clear();
    assert!(rt; line.is_empty());
}

#[test]
fn fields_of_a_line(rt: HostRuntime) {
    let mut fields = Fields::new(b"a  b ");
    let (first, second) = (fields.next(), fields.next());
    assert_eq!(rt;
        (first, second),
        (Some(b"a".as_slice()), Some(b"".as_slice()))
    );
    assert_eq!(rt; fields.count(), 2);
}

fn at(field: u64) -> LineFault {
    LineFault::Unreadable { field }
}

#[test]
fn numbers_in_lines(rt: HostRuntime) {
    let table: [(&str, Result<[i64; 4], LineFault>); 11] = [
        ("0 1 -20 0", Ok([0, 1, -20, 0])),
        ("-0 0 0 0", Ok([0, 0, 0, 0])),
        (
            "9999999999 0 -9999999999 0",
            Ok([9999999999, 0, -9999999999, 0]),
        ),
        ("1 0 5", Err(at(4))),
        ("1  0 5 0", Err(at(2))),
        ("1 0 5 0 ", Err(at(5))),
        ("", Err(at(1))),
        ("- 0 0 0", Err(at(1))),
        ("0 00000000001 0 0", Err(at(2))),
        ("0 0 A 0", Err(at(3))),
        ("0\t0 0 0", Err(at(1))),
    ];
    for (line, numbers) in table {
        assert_eq!(rt; values(line.as_bytes()), numbers, "{line}");
    }
}

#[test]
fn a_byte_that_is_no_character(rt: HostRuntime) {
    let numbers: Result<[i64; 4], LineFault> = values(b"0 0 0 \xff");
    assert_eq!(rt; numbers, Err(at(4)));
}

#[test]
fn words_in_lines(rt: HostRuntime) {
    let table: [(&str, Result<[u32; 3], LineFault>); 7] = [
        (
            "40000001 BFFFFFEC C0000000",
            Ok([0x40000001, 0xBFFFFFEC, 0xC0000000]),
        ),
        (
            "00000000 ffffffff 89abCDEF",
            Ok([0, 0xFFFFFFFF, 0x89ABCDEF]),
        ),
        ("4000001 BFFFFFEC C0000000", Err(at(1))),
        ("40000001 0BFFFFFEC C0000000", Err(at(2))),
        ("40000001 BFFFFFEC C000000G", Err(at(3))),
        ("40000001 BFFFFFEC", Err(at(3))),
        ("40000001 BFFFFFEC C0000000 ", Err(at(4))),
    ];
    for (line, words) in table {
        assert_eq!(rt; values(line.as_bytes()), words, "{line}");
    }
}
