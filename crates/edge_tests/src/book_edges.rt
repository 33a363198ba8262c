// Books at their edges: the last free place and one more, cuts to nothing, to all and past it, trials on trials, and words of
// every awkward length.
use crate::book_calls::{Answer, Call, bound, check_cuts, check_full, fill, numbers, play};
use books::{Book, BookFault, Table, Trial, WordBook, add_all};
use bounds::Bound;
use faults::{Fault, Layer};
use std::alloc::Global;
use std::test::Fail;
use words::BoundWords;

// The three words of a bound.
fn words_of(bound: Bound) -> [u32; 3] {
    BoundWords::from(bound).0
}

#[test]
fn a_table_to_its_last_place(rt: HostRuntime) -> Result<(), Fail> {
    let mut table = Table::new();
    let pair = [bound(0)?, bound(1)?];
    let to_the_last = [
        (Call::Count, Answer::Numbers(0, 0, 1_024)),
        (Call::Read(0), Answer::Nothing),
        (Call::Fill(0, 1_023), Answer::Added),
        (Call::Count, Answer::Numbers(0, 1_023, 1)),
        (Call::AddAll(&pair), Answer::Full),
        (Call::Count, Answer::Numbers(0, 1_023, 1)),
        (Call::Fill(1_023, 1_024), Answer::Added),
    ];
    play(&rt, &mut table, &to_the_last);
    check_full(&rt, &mut table, 0, 1_024)?;
    let reads = [
        (Call::Read(0), Answer::Holds(0)),
        (Call::Read(1_023), Answer::Holds(1_023)),
        (Call::Read(1_024), Answer::Nothing),
    ];
    play(&rt, &mut table, &reads);
    check_cuts(&rt, &mut table, 0, 1_024, 0);
    Ok(())
}

#[test]
fn a_trial_to_its_last_place(rt: HostRuntime) -> Result<(), Fail> {
    let mut table = Table::new();
    fill(&mut table, 0, 2)?;
    let mut trial = Trial::lay(table);
    let to_the_last = [
        (Call::Count, Answer::Numbers(2, 0, 64)),
        (Call::Fill(2, 66), Answer::Added),
    ];
    play(&rt, &mut trial, &to_the_last);
    check_full(&rt, &mut trial, 2, 64)?;
    assert_eq!(rt; trial.own_count(), 64);
    let reads = [
        (Call::Read(0), Answer::Holds(0)),
        (Call::Read(1), Answer::Holds(1)),
        (Call::Read(2), Answer::Holds(2)),
        (Call::Read(65), Answer::Holds(65)),
        (Call::Read(66), Answer::Nothing),
    ];
    play(&rt, &mut trial, &reads);
    check_cuts(&rt, &mut trial, 2, 64, 0);
    assert_eq!(rt; numbers(&trial.lift()), (0, 2, 1_022));
    Ok(())
}

// A trial with the bounds 1 and 2, on a table with the bound 0.
fn first_trial() -> Result<Trial<Table>, Fail> {
    let mut table = Table::new();
    add_all(&mut table, &[bound(0)?])?;
    let mut first = Trial::lay(table);
    add_all(&mut first, &[bound(1)?, bound(2)?])?;
    Ok(first)
}

#[test]
fn trials_on_trials(rt: HostRuntime) -> Result<(), Fail> {
    let mut second = Trial::lay(first_trial()?);
    let third = [bound(3)?];
    let calls = [
        (Call::AddAll(&third), Answer::Added),
        (Call::Count, Answer::Numbers(3, 1, 63)),
        (Call::Read(0), Answer::Holds(0)),
        (Call::Read(1), Answer::Holds(1)),
        (Call::Read(2), Answer::Holds(2)),
        (Call::Read(3), Answer::Holds(3)),
        (Call::Read(4), Answer::Nothing),
    ];
    play(&rt, &mut second, &calls);
    check_cuts(&rt, &mut second, 3, 1, 63);
    let mut first = second.lift();
    let calls = [
        (Call::Count, Answer::Numbers(1, 2, 62)),
        (Call::Read(2), Answer::Holds(2)),
    ];
    play(&rt, &mut first, &calls);
    assert_eq!(rt; numbers(&first.lift()), (0, 1, 1_023));
    Ok(())
}

// The bounds below are not its own, and those that were cut no longer are.
#[test]
fn own_bounds_of_trials(rt: HostRuntime) -> Result<(), Fail> {
    let mut second = Trial::lay(first_trial()?);
    assert_eq!(rt; second.own_count(), 0);
    add_all(&mut second, &[bound(3)?, bound(4)?, bound(5)?])?;
    assert_eq!(rt; second.own_count(), 3);
    assert_eq!(rt; (second.cut(1), second.own_count()), (true, 1));
    assert_eq!(rt; second.lift().own_count(), 2);
    Ok(())
}

// A struct over any book that holds a trial on a trial.
struct Twice<B: Book> {
    top: Trial<Trial<B>>,
}

impl<B: Book> Twice<B> {
    fn over(book: B) -> Twice<B> {
        Twice {
            top: Trial::lay(Trial::lay(book)),
        }
    }

    fn back(self) -> B {
        let Twice { top } = self;
        top.lift().lift()
    }
}

#[test]
fn trials_on_trials_in_a_struct_over_any_book(rt: HostRuntime) -> Result<(), Fail> {
    let mut table = Table::new();
    fill(&mut table, 0, 2)?;
    let mut twice = Twice::over(table);
    let calls = [
        (Call::Count, Answer::Numbers(2, 0, 64)),
        (Call::Fill(2, 5), Answer::Added),
        (Call::Count, Answer::Numbers(2, 3, 61)),
        (Call::Read(1), Answer::Holds(1)),
        (Call::Read(4), Answer::Holds(4)),
        (Call::Read(5), Answer::Nothing),
    ];
    play(&rt, &mut twice.top, &calls);
    assert_eq!(rt; numbers(&twice.back()), (0, 2, 1_022));
    Ok(())
}

#[test]
fn no_words(rt: HostRuntime) -> Result<(), Fail> {
    let mut none: [u32; 0] = [];
    let mut book = WordBook::open(&mut none);
    check_full(&rt, &mut book, 0, 0)?;
    check_cuts(&rt, &mut book, 0, 0, 0);
    Ok(())
}

#[test]
fn words_of_one_place(rt: HostRuntime) -> Result<(), Fail> {
    let mut words = [0, 7, 7];
    let mut book = WordBook::open(&mut words);
    let calls = [
        (Call::Count, Answer::Numbers(0, 0, 1)),
        (Call::Fill(5, 6), Answer::Added),
    ];
    play(&rt, &mut book, &calls);
    check_full(&rt, &mut book, 0, 1)?;
    let reads = [
        (Call::Read(0), Answer::Holds(5)),
        (Call::Read(1), Answer::Nothing),
    ];
    play(&rt, &mut book, &reads);
    assert_eq!(rt; words, words_of(bound(5)?));
    Ok(())
}

#[test]
fn words_of_one_bound(rt: HostRuntime) -> Result<(), Fail> {
    let mut words = words_of(bound(5)?);
    let mut book = WordBook::open(&mut words);
    check_full(&rt, &mut book, 1, 0)?;
    check_cuts(&rt, &mut book, 1, 0, 0);
    assert_eq!(rt; words, words_of(bound(5)?));
    Ok(())
}

#[test]
fn a_row_put_into_words(rt: HostRuntime) -> Result<(), Fail> {
    let [a, b, c] = words_of(bound(1)?);
    let [d, e, f] = words_of(bound(2)?);
    let mut words = [a, b, c, 0, 7, 7, 7, 7, 7, 7, 7, 7];
    let mut book = WordBook::open(&mut words);
    add_all(&mut book, &[bound(2)?])?;
    assert_eq!(rt; words, [a, b, c, d, e, f, 0, 7, 7, 7, 7, 7]);
    Ok(())
}

#[test]
fn rows_put_into_words_at_once(rt: HostRuntime) -> Result<(), Fail> {
    let [a, b, c] = words_of(bound(1)?);
    let [d, e, f] = words_of(bound(2)?);
    let [g, h, i] = words_of(bound(3)?);
    let mut words = [a, b, c, 0, 7, 7, 7, 7, 7, 7, 7, 7];
    let mut book = WordBook::open(&mut words);
    let more = [bound(2)?, bound(3)?];
    let calls = [
        (Call::Count, Answer::Numbers(1, 0, 3)),
        (Call::AddAll(&more), Answer::Added),
    ];
    play(&rt, &mut book, &calls);
    assert_eq!(rt; words, [a, b, c, d, e, f, g, h, i, 0, 7, 7]);
    Ok(())
}

#[test]
fn rows_put_into_words_and_cut(rt: HostRuntime) -> Result<(), Fail> {
    let [a, b, c] = words_of(bound(1)?);
    let mut words = [a, b, c, 0, 7, 7, 7, 7, 7, 7, 7, 7];
    let mut book = WordBook::open(&mut words);
    fill(&mut book, 2, 5)?;
    check_full(&rt, &mut book, 1, 3)?;
    let calls = [
        (Call::Cut(1), Answer::Cut),
        (Call::Count, Answer::Numbers(1, 1, 2)),
        (Call::Read(1), Answer::Holds(2)),
        (Call::Read(2), Answer::Nothing),
    ];
    play(&rt, &mut book, &calls);
    let [d, e, f] = words_of(bound(2)?);
    let [_, g, h] = words_of(bound(3)?);
    let [i, j, k] = words_of(bound(4)?);
    assert_eq!(rt; words, [a, b, c, d, e, f, 0, g, h, i, j, k]);
    Ok(())
}

#[test]
fn words_that_are_refused(rt: HostRuntime) -> Result<(), Fail> {
    let mut words = [7, 7, 7];
    let mut book = WordBook::open(&mut words);
    check_full(&rt, &mut book, 0, 0)?;
    check_cuts(&rt, &mut book, 0, 0, 0);
    assert_eq!(rt; words, [7, 7, 7]);
    Ok(())
}

#[test]
fn a_trial_over_words(rt: HostRuntime) -> Result<(), Fail> {
    let mut words = [0, 7, 7];
    let mut trial = Trial::lay(WordBook::open(&mut words));
    let calls = [
        (Call::Count, Answer::Numbers(0, 0, 64)),
        (Call::Fill(0, 2), Answer::Added),
        (Call::Read(1), Answer::Holds(1)),
    ];
    play(&rt, &mut trial, &calls);
    let below = numbers(&trial.lift());
    assert_eq!(rt; (below, words), ((0, 0, 1), [0, 7, 7]));
    Ok(())
}

// A trial on a trial over lent words, moved as a whole.
#[test]
fn trials_on_trials_over_words(rt: HostRuntime) -> Result<(), Fail> {
    let mut words = [0, 7, 7];
    let mut first = Trial::lay(WordBook::open(&mut words));
    fill(&mut first, 0, 1)?;
    let mut second = Trial::lay(first);
    let calls = [
        (Call::Count, Answer::Numbers(1, 0, 64)),
        (Call::Fill(1, 2), Answer::Added),
        (Call::Read(1), Answer::Holds(1)),
    ];
    play(&rt, &mut second, &calls);
    let below = numbers(&second.lift().lift());
    assert_eq!(rt; (below, words), ((0, 0, 1), [0, 7, 7]));
    Ok(())
}

// The words of so many rows.
fn rows(heap: Global, row: [u32; 3], count: usize) -> Result<Vec<u32>, Fail> {
    let mut words = Vec::new(heap);
    for _ in 0..count {
        words.extend_from_slice(&row)?;
    }
    Ok(words)
}

#[test]
fn a_trial_over_almost_the_most_bounds(rt: HostRuntime) -> Result<(), Fail> {
    let mut words = rows(rt.alloc(), words_of(bound(0)?), 65_500)?;
    let mut trial = Trial::lay(WordBook::open(words.as_mut_slice()));
    let to_the_last = [
        (Call::Count, Answer::Numbers(65_500, 0, 35)),
        (Call::Fill(0, 35), Answer::Added),
    ];
    play(&rt, &mut trial, &to_the_last);
    check_full(&rt, &mut trial, 65_500, 35)?;
    check_cuts(&rt, &mut trial, 65_500, 35, 0);
    Ok(())
}

#[test]
fn the_most_bounds(rt: HostRuntime) -> Result<(), Fail> {
    let mut words = rows(rt.alloc(), words_of(bound(0)?), 65_535)?;
    assert_eq!(rt; words.len(), 196_605);
    let mut trial = Trial::lay(WordBook::open(words.as_mut_slice()));
    check_full(&rt, &mut trial, 65_535, 0)?;
    words.extend_from_slice(&[7, 7, 7])?;
    let mut book = WordBook::open(words.as_mut_slice());
    check_full(&rt, &mut book, 65_535, 0)
}

// Adds the bound 9 as often as a book has places.
fn fill_with_nines(book: &mut WordBook) -> Result<(), Fail> {
    for _ in 0..65_535 {
        book.add(bound(9)?)?;
    }
    Ok(())
}

// The words have room for one bound more than a book has.
#[test]
fn words_past_the_last_place(rt: HostRuntime) -> Result<(), Fail> {
    let mut words = rows(rt.alloc(), [0, 7, 7], 65_536)?;
    assert_eq!(rt; words.len(), 196_608);
    let mut book = WordBook::open(words.as_mut_slice());
    play(
        &rt,
        &mut book,
        &[(Call::Count, Answer::Numbers(0, 0, 65_535))],
    );
    fill_with_nines(&mut book)?;
    check_full(&rt, &mut book, 0, 65_535)?;
    let [a, b, c] = words_of(bound(9)?);
    assert_eq!(rt; words.len(), 196_608);
    assert!(rt; words.as_slice().ends_with(&[a, b, c, 0, 7, 7]));
    Ok(())
}

#[test]
fn the_fault_of_a_full_book(rt: HostRuntime) {
    let told = Fault {
        number: 9,
        layer: Layer::Books,
        place: 0,
    };
    assert_eq!(rt; Fault::from(BookFault::Full), told);
}
