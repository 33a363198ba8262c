// Posts that move points, that move none, that are covered, that conflict, and that find no free place.
use crate::setups::{
    Answer, Call, FIRST, FLOOR, Numbers, POSTED, TickPlan, counts, play, play_on, post, settled,
};
use books::{Book, BookFault, Table, Trial, WordBook};
use bounds::Bound;
use delays::{Ranked, Ticks};
use plans::{Plan, PlanFault, Posted};
use std::process::Abort;
use std::test::Fail;
use words::BoundWords;

// Point 1 is at most 5 after point 0, and at least 5.
#[test]
fn a_post_that_moves_a_point(rt: HostRuntime) -> Result<(), Fail> {
    let calls = [
        (Call::Post([1, 0, 5, 0]), Answer::Moved(0)),
        (Call::Read(1), Answer::Time(0, 0)),
        (Call::Post([0, 1, -5, 0]), Answer::Moved(1)),
        (Call::Read(0), Answer::Time(0, 0)),
        (Call::Read(1), Answer::Time(5, 0)),
        (Call::Post([0, 1, -5, 0]), Answer::Covered),
    ];
    play_on(&rt, 2, &[], &calls, 2)
}

// Point 1 is at most 5 after point 0, and at least 6, at each try.
#[test]
fn a_post_that_conflicts_changes_nothing(rt: HostRuntime) -> Result<(), Fail> {
    let mut plan: TickPlan = settled(2, &[])?;
    let calls = [
        (Call::Post([1, 0, 5, 0]), Answer::Moved(0)),
        (
            Call::PostOn([0, 1, -6, 0], 4),
            Answer::Conflict(&[POSTED, FIRST]),
        ),
        (Call::Read(1), Answer::Time(0, 0)),
        (
            Call::PostOn([0, 1, -6, 0], 4),
            Answer::Conflict(&[POSTED, FIRST]),
        ),
        (Call::Read(1), Answer::Time(0, 0)),
    ];
    play(&rt, &mut plan, &calls);
    let book = plan.close();
    assert_eq!(rt; counts(&book), (0, 1, 1_023));
    let mut plan: TickPlan = Plan::open(book, 2, 7);
    let calls = [
        (Call::Settle, Answer::Settled(0)),
        (Call::Post([0, 1, -5, 0]), Answer::Moved(1)),
    ];
    play(&rt, &mut plan, &calls);
    Ok(())
}

// Each of these bounds conflicts with floors alone, or with itself.
#[test]
fn conflicts_of_no_book(rt: HostRuntime) -> Result<(), Fail> {
    let bounds: [(usize, Numbers, &[u32]); 5] = [
        (1, [0, 0, -1, 0], &[POSTED]),
        (2, [0, 0, -500_000_000, 0], &[POSTED]),
        (2, [1, 1, -1, 0], &[POSTED]),
        (2, [1, 0, -5, 0], &[POSTED, FLOOR + 1]),
        (128, [127, 0, -1, 0], &[POSTED, FLOOR + 127]),
    ];
    for (points, numbers, chain) in bounds {
        let call = (Call::Post(numbers), Answer::Conflict(chain));
        play_on(&rt, points, &[], &[call], 0)?;
    }
    Ok(())
}

#[test]
fn posts_on_one_point(rt: HostRuntime) -> Result<(), Fail> {
    let past = PlanFault::Point { place: 2 };
    let calls = [
        (Call::PostOn([0, 0, 0, 0], 1), Answer::Moved(0)),
        (Call::PostOn([0, 0, 0, 0], 1), Answer::Covered),
        (Call::PostOn([0, 0, -1, 0], 1), Answer::Conflict(&[POSTED])),
        (Call::PostOn([0, 1, 0, 0], 1), Answer::Refused(past)),
        (Call::Read(0), Answer::Time(0, 0)),
    ];
    play_on(&rt, 1, &[], &calls, 1)
}

// Point 2 is two steps after point 0, and less than a millisecond.
#[test]
fn ranked_posts(rt: HostRuntime) -> Result<(), Fail> {
    let mut plan: Plan<Ranked, Table> = settled(3, &[])?;
    let calls = [
        (Call::Post([0, 1, 0, -1]), Answer::Moved(1)),
        (Call::Post([1, 2, 0, -1]), Answer::Moved(1)),
        (Call::Read(2), Answer::Time(0, 2)),
        (
            Call::PostOn([2, 1, 0, 0], 3),
            Answer::Conflict(&[POSTED, FIRST + 1]),
        ),
        (Call::Post([2, 0, 1, -500_000_000]), Answer::Moved(0)),
        (Call::Post([2, 0, 1, 0]), Answer::Covered),
        (Call::Read(2), Answer::Time(0, 2)),
    ];
    play(&rt, &mut plan, &calls);
    Ok(())
}

// A bound of the same two points covers a bound that says no more. A floor covers none, and no bound of the opposite two points does.
#[test]
fn covers(rt: HostRuntime) -> Result<(), Fail> {
    let calls = [
        (Call::Post([1, 0, 5, 0]), Answer::Covered),
        (Call::Post([1, 0, 6, 0]), Answer::Covered),
        (Call::Post([1, 0, 500_000_000, 0]), Answer::Covered),
        (Call::Post([1, 0, 4, 0]), Answer::Moved(0)),
        (Call::Post([1, 0, 5, 0]), Answer::Covered),
        (Call::Post([1, 0, 4, 0]), Answer::Covered),
        (Call::Post([1, 0, 0, 0]), Answer::Moved(0)),
        (Call::Post([1, 0, 1, 0]), Answer::Covered),
        (Call::Post([1, 0, 0, 0]), Answer::Covered),
        (Call::Post([0, 1, 0, 0]), Answer::Moved(0)),
        (Call::Post([0, 1, 5, 0]), Answer::Covered),
        (Call::Post([1, 1, 5, 0]), Answer::Moved(0)),
    ];
    play_on(&rt, 2, &[[1, 0, 5, 0]], &calls, 5)
}

// A bound of a full book covers, and the check for a conflict comes before that for a free place. The bound numbered 0 says most.
fn check_full<B: Book>(rt: &impl Abort, plan: &mut Plan<Ticks, B>) {
    let full = Answer::Refused(PlanFault::Book(BookFault::Full));
    let calls = [
        (Call::Settle, Answer::Settled(0)),
        (Call::Post([1, 0, 5, 0]), Answer::Covered),
        (
            Call::PostOn([0, 1, -6, 0], 3),
            Answer::Conflict(&[POSTED, FIRST]),
        ),
        (Call::PostOn([0, 1, -5, 0], 3), full),
        (Call::Read(1), Answer::Time(0, 0)),
        (Call::Post([1, 0, 4, 0]), full),
    ];
    play(rt, plan, &calls);
}

// Adds bounds with the delays from 5 up to another: the first says most.
fn fill<B: Book>(book: &mut B, end: i64) -> Result<(), Fail> {
    for t in 5..end {
        book.add(Bound::new(1, 0, t, 0)?)?;
    }
    Ok(())
}

#[test]
fn full_tables(rt: HostRuntime) -> Result<(), Fail> {
    let mut table = Table::new();
    fill(&mut table, 1_029)?;
    let mut plan = Plan::open(table, 2, 7);
    check_full(&rt, &mut plan);
    assert_eq!(rt; counts(&plan.close()), (0, 1_024, 0));
    Ok(())
}

#[test]
fn full_trials(rt: HostRuntime) -> Result<(), Fail> {
    let mut trial = Trial::lay(Table::new());
    fill(&mut trial, 69)?;
    let mut plan = Plan::open(trial, 2, 7);
    check_full(&rt, &mut plan);
    assert_eq!(rt; counts(&plan.close()), (0, 64, 0));
    Ok(())
}

#[test]
fn full_words(rt: HostRuntime) -> Result<(), Fail> {
    let before = BoundWords::from(Bound::new(1, 0, 5, 0)?).0;
    let mut words = before;
    let mut plan = Plan::open(WordBook::open(&mut words), 2, 7);
    check_full(&rt, &mut plan);
    let numbers = counts(&plan.close());
    assert_eq!(rt; (numbers, words), ((1, 0, 0), before));
    Ok(())
}

// Posts go into the trial, and the words below stay.
#[test]
fn a_trial_over_words(rt: HostRuntime) -> Result<(), Fail> {
    let [a, b, c] = BoundWords::from(Bound::new(1, 0, 5, 0)?).0;
    let mut words = [a, b, c, 0, 7, 7];
    let trial = Trial::lay(WordBook::open(&mut words));
    let mut plan: Plan<Ticks, Trial<WordBook>> = Plan::open(trial, 2, 7);
    let calls = [
        (Call::Settle, Answer::Settled(0)),
        (Call::Post([0, 1, -5, 0]), Answer::Moved(1)),
    ];
    play(&rt, &mut plan, &calls);
    let trial = plan.close();
    let above = counts(&trial);
    let below = counts(&trial.lift());
    assert_eq!(rt;
        (above, below, words),
        ((1, 1, 63), (1, 0, 1), [a, b, c, 0, 7, 7])
    );
    Ok(())
}

// Each point comes at least 1 after the one before it.
#[test]
fn posts_along_a_path(rt: HostRuntime) -> Result<(), Fail> {
    let chain = [POSTED, FIRST, FIRST + 1, FIRST + 2, FIRST + 3];
    let calls = [
        (Call::Post([0, 1, -1, 0]), Answer::Moved(1)),
        (Call::Post([1, 2, -1, 0]), Answer::Moved(1)),
        (Call::Post([2, 3, -1, 0]), Answer::Moved(1)),
        (Call::Post([3, 4, -1, 0]), Answer::Moved(1)),
        (Call::PostOn([4, 0, 3, 0], 6), Answer::Conflict(&chain)),
        (Call::Post([0, 1, -3, 0]), Answer::Moved(4)),
        (Call::Read(4), Answer::Time(6, 0)),
        (Call::Post([4, 0, 6, 0]), Answer::Moved(0)),
        (Call::Post([0, 2, -4, 0]), Answer::Moved(0)),
        (Call::Post([4, 5, 0, 0]), Answer::Moved(1)),
        (Call::Read(5), Answer::Time(6, 0)),
    ];
    play_on(&rt, 6, &[], &calls, 8)
}

// Posts a path over all points from its end: each bound moves all points after it, and the last point has this time.
fn check_path(rt: &impl Abort, t: i64, last: i64) -> Result<(), Fail> {
    let mut plan: TickPlan = settled(128, &[])?;
    for n in 1..128u8 {
        let path = [i64::from(127 - n), i64::from(128 - n), t, 0];
        let count = usize::from(n);
        assert_eq!(rt; post(&mut plan, path), Ok(Posted::Moved { count }));
    }
    play(rt, &mut plan, &[(Call::Read(127), Answer::Time(last, 0))]);
    Ok(())
}

#[test]
fn the_longest_path(rt: HostRuntime) -> Result<(), Fail> {
    check_path(&rt, -1, 127)?;
    check_path(&rt, -500_000_000, 63_500_000_000)
}

// The chain needs each bound of the path.
#[test]
fn the_longest_chain(rt: HostRuntime) -> Result<(), Fail> {
    let mut plan: TickPlan = settled(128, &[])?;
    for n in 0..127 {
        post(&mut plan, [n, n + 1, -1, 0])?;
    }
    let mut chain = [POSTED; 128];
    for (word, n) in chain[1..].iter_mut().zip(FIRST..) {
        *word = n;
    }
    let calls = [
        (Call::Post([127, 0, 127, 0]), Answer::Moved(0)),
        (
            Call::PostOn([127, 0, 126, 0], 129),
            Answer::Conflict(&chain),
        ),
        (Call::Read(127), Answer::Time(127, 0)),
    ];
    play(&rt, &mut plan, &calls);
    Ok(())
}
