// The word tool on whole inputs, and on inputs that come in pieces.
use listings::{Task, Tool, run};
use std::alloc::Global;
use std::process::Abort;
use std::test::Fail;

// What the tool prints for an input that comes in two pieces.
fn in_two(heap: Global, task: Task, first: &[u8], second: &[u8]) -> Result<String, Fail> {
    let (tool, mut out) = Tool::new(task).feed(heap, first)?;
    let (tool, text) = tool.feed(heap, second)?;
    out.push_str(text.as_str())?;
    out.push_str(tool.finish(heap)?.text.as_str())?;
    Ok(out)
}

// The tool prints this text for the input, however the input is cut in two.
fn prints(rt: &impl Abort, heap: Global, task: Task, input: &[u8], text: &str) -> Result<(), Fail> {
    assert_eq!(rt; run(heap, task, input)?.text.as_str(), text);
    // each cut lies between two bytes, so it is a number and no element
    for cut in 0..input.len() {
        let (first, second) = input.split_at(cut);
        assert_eq!(rt; in_two(heap, task, first, second)?.as_str(), text);
    }
    Ok(())
}

#[test]
fn a_listing_is_written(rt: HostRuntime) -> Result<(), Fail> {
    prints(
        &rt,
        rt.alloc(),
        Task::Write,
        b"0 1 -20 0\n# a note\n4095 0 500000000 -500000000",
        "40000001 BFFFFFEC C0000000\n40FFF000 9DCD6500 E2329B00\n# lines read: 3, bounds written: 2, notes: 1, refused: 0\n",
    )
}

#[test]
fn words_are_read(rt: HostRuntime) -> Result<(), Fail> {
    prints(
        &rt,
        rt.alloc(),
        Task::Read,
        b"40000001 BFFFFFEC C0000000\n40fff000 9dcd6500 e2329b00\n# lines read: 3, bounds written: 2, notes: 1, refused: 0\n",
        "0 1 -20 0\n4095 0 500000000 -500000000\n# lines read: 3, bounds read: 2, notes: 1, refused: 0\n",
    )
}

#[test]
fn a_listing_comes_back(rt: HostRuntime) -> Result<(), Fail> {
    prints(
        &rt,
        rt.alloc(),
        Task::RoundTrip,
        b"0 1 -20 0\n",
        "40000001 BFFFFFEC C0000000 -> 0 1 -20 0\n# lines read: 1, bounds written and read back: 1, notes: 0, refused: 0. The listing came back whole.\n",
    )
}

#[test]
fn no_line_begins_at_the_end(rt: HostRuntime) -> Result<(), Fail> {
    let heap = rt.alloc();
    let none = "# lines read: 0, bounds written: 0, notes: 0, refused: 0\n";
    assert_eq!(rt; run(heap, Task::Write, b"")?.text.as_str(), none);
    prints(
        &rt,
        heap,
        Task::Write,
        b"\n",
        "line 1 refused: a field is missing, unreadable or extra (fault 12, layer L, place 1)\n# lines read: 1, bounds written: 0, notes: 0, refused: 1\n",
    )
}

#[test]
fn refused_numbers(rt: HostRuntime) -> Result<(), Fail> {
    prints(
        &rt,
        rt.alloc(),
        Task::RoundTrip,
        b"4096 0 0 0\n0 -1 0 0\n0 0 500000001 0\n0 0 0 -500000001\n0 1 2\n0 1 2 3 4\n0  1 2 3",
        "line 1 refused: the left point is not from 0 to 4095 (fault 7, layer D, place 1)\n\
         line 2 refused: the right point is not from 0 to 4095 (fault 7, layer D, place 2)\n\
         line 3 refused: t is not from -500000000 to 500000000 (fault 7, layer D, place 3)\n\
         line 4 refused: s is not from -500000000 to 500000000 (fault 7, layer D, place 4)\n\
         line 5 refused: a field is missing, unreadable or extra (fault 12, layer L, place 4)\n\
         line 6 refused: a field is missing, unreadable or extra (fault 12, layer L, place 5)\n\
         line 7 refused: a field is missing, unreadable or extra (fault 12, layer L, place 2)\n\
         # lines read: 7, bounds written and read back: 0, notes: 0, refused: 7. The listing did not come back whole.\n",
    )
}

#[test]
fn refused_words(rt: HostRuntime) -> Result<(), Fail> {
    prints(
        &rt,
        rt.alloc(),
        Task::Read,
        b"00000000 BFFFFFEC C0000000\n40000001 9DCD6501 C0000000\n40000001 BFFFFFEC\n0 1 -20 0\n",
        "line 1 refused: the word breaks its row (fault 13, layer B, place 0)\n\
         line 2 refused: the word breaks its row (fault 13, layer B, place 1)\n\
         line 3 refused: a field is missing, unreadable or extra (fault 12, layer L, place 3)\n\
         line 4 refused: a field is missing, unreadable or extra (fault 12, layer L, place 1)\n\
         # lines read: 4, bounds read: 0, notes: 0, refused: 4\n",
    )
}

// A line that begins so, and goes on with one byte ten thousand times.
fn push_long(input: &mut Vec<u8>, front: &[u8], byte: u8) -> Result<(), Fail> {
    input.extend_from_slice(front)?;
    for _ in 0..10_000 {
        input.push(byte)?;
    }
    Ok(())
}

// A line that is longer than what is kept of it is decided by its front.
#[test]
fn long_lines(rt: HostRuntime) -> Result<(), Fail> {
    let heap = rt.alloc();
    let mut input = Vec::new(heap);
    push_long(&mut input, b"0 0 0 ", b'0')?;
    push_long(&mut input, b"\n0 1 -20 0 ", b'0')?;
    push_long(&mut input, b"\n#", 0xff)?;
    let ending = run(heap, Task::Write, input.as_slice())?;
    let text =
        "line 1 refused: a field is missing, unreadable or extra (fault 12, layer L, place 4)\n\
         line 2 refused: a field is missing, unreadable or extra (fault 12, layer L, place 5)\n\
         # lines read: 3, bounds written: 0, notes: 1, refused: 2\n";
    assert_eq!(rt; (ending.text.as_str(), ending.tally.refused), (text, 2));
    Ok(())
}
