// Calls that are played on a book, each with the answer that it must have.
use books::{Book, BookFault, add_all};
use bounds::{Bound, BoundFault};
use std::process::Abort;
use std::test::Fail;

// What is asked of a book.
#[derive(Clone, Copy)]
pub(crate) enum Call<'a> {
    // its numbers of fixed bounds, added bounds and free places
    Count,
    // the bound of this number
    Read(usize),
    // to add the bounds from one number up to another, one by one
    Fill(i64, i64),
    AddAll(&'a [Bound]),
    Cut(usize),
}

#[derive(Clone, Copy, PartialEq, Eq, Debug)]
pub(crate) enum Answer {
    Numbers(usize, usize, usize),
    Holds(i64),
    // another bound than those that are added here
    Strange,
    Nothing,
    Added,
    Full,
    Cut,
    NotCut,
}

// Bounds that differ, by a number.
pub(crate) fn bound(n: i64) -> Result<Bound, BoundFault> {
    Bound::new(1, 2, n, 0)
}

// The numbers of fixed bounds, added bounds and free places of any book.
pub(crate) fn numbers<B: Book>(book: &B) -> (usize, usize, usize) {
    (book.fixed_count(), book.added_count(), book.free_count())
}

// Adds the bounds from one number up to another to any book.
pub(crate) fn fill<B: Book>(book: &mut B, from: i64, to: i64) -> Result<(), Fail> {
    for n in from..to {
        book.add(bound(n)?)?;
    }
    Ok(())
}

fn added<B: Book>(book: &mut B, from: i64, to: i64) -> Answer {
    for n in from..to {
        let Ok(bound) = bound(n) else {
            return Answer::Strange;
        };
        if book.add(bound).is_err() {
            return Answer::Full;
        }
    }
    Answer::Added
}

fn held(found: Bound) -> Answer {
    let t = i64::from(found.row().t);
    if bound(t) == Ok(found) {
        Answer::Holds(t)
    } else {
        Answer::Strange
    }
}

fn ask<B: Book>(book: &mut B, call: Call) -> Answer {
    match call {
        Call::Count => {
            let (fixed, added, free) = numbers(book);
            Answer::Numbers(fixed, added, free)
        }
        Call::Read(number) => book.read(number).map_or(Answer::Nothing, held),
        Call::Fill(from, to) => added(book, from, to),
        Call::AddAll(bounds) => match add_all(book, bounds) {
            Ok(()) => Answer::Added,
            Err(BookFault::Full) => Answer::Full,
        },
        Call::Cut(count) => {
            if book.cut(count) {
                Answer::Cut
            } else {
                Answer::NotCut
            }
        }
    }
}

// Makes the calls one after another, and compares each answer with the one beside the call.
pub(crate) fn play<B: Book>(rt: &impl Abort, book: &mut B, calls: &[(Call, Answer)]) {
    for (number, (call, expected)) in calls.iter().enumerate() {
        assert_eq!(rt; ask(book, *call), *expected, "call {number}");
    }
}

// A book that has `fixed` and `added` bounds and no free place: it refuses another, and nothing changes.
pub(crate) fn check_full<B: Book>(
    rt: &impl Abort,
    book: &mut B,
    fixed: usize,
    added: usize,
) -> Result<(), Fail> {
    let numbers = Answer::Numbers(fixed, added, 0);
    let one = [bound(-1)?];
    let calls = [
        (Call::Count, numbers),
        (Call::Fill(-1, 0), Answer::Full),
        (Call::AddAll(&one), Answer::Full),
        (Call::Count, numbers),
    ];
    play(rt, book, &calls);
    Ok(())
}

// Cuts of a book with these numbers to what there is, to one more, and to nothing.
pub(crate) fn check_cuts<B: Book>(
    rt: &impl Abort,
    book: &mut B,
    fixed: usize,
    added: usize,
    free: usize,
) {
    let numbers = Answer::Numbers(fixed, added, free);
    let calls = [
        (Call::Count, numbers),
        (Call::Cut(added.saturating_add(1)), Answer::NotCut),
        (Call::Count, numbers),
        (Call::Cut(added), Answer::Cut),
        (Call::Count, numbers),
        (Call::Cut(0), Answer::Cut),
        (
            Call::Count,
            Answer::Numbers(fixed, 0, free.saturating_add(added)),
        ),
    ];
    play(rt, book, &calls);
}
