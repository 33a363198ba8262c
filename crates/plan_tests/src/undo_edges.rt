// What backs and refusals leave: the times, the bounds and the free places that there were.
use crate::setups::{
    Answer, Call, End, FIRST, Numbers, POSTED, TickPlan, bound, check_times, counts, play, play_on,
    settled,
};
use books::{BookFault, WordBook};
use delays::Ticks;
use plans::{Plan, PlanFault};
use std::process::Abort;
use std::test::Fail;
use words::BoundWords;

// A bound that is posted under a mark, how many points it moves, and the times then.
type Level = (Numbers, usize, [i64; 4]);

// Posts the bounds, each under a mark of its own, until all marks are open, and takes each back.
fn climb(
    rt: &impl Abort,
    plan: &mut TickPlan,
    before: &[i64],
    levels: &[Level],
) -> Result<(), PlanFault> {
    let [(numbers, count, times), rest @ ..] = levels else {
        let full = Answer::Refused(PlanFault::MarksFull);
        play(rt, plan, &[(Call::Try(&[], End::Back), full)]);
        return Ok(());
    };
    let slip = plan.mark()?;
    check_times(rt, plan, before);
    play(rt, plan, &[(Call::Post(*numbers), Answer::Moved(*count))]);
    check_times(rt, plan, times);
    let above = climb(rt, plan, times, rest);
    plan.back(slip)?;
    check_times(rt, plan, before);
    above
}

#[test]
fn a_post_under_each_of_eight_marks(rt: HostRuntime) -> Result<(), Fail> {
    let bounds = [[0, 1, -1, 0], [1, 2, -2, 0], [3, 0, 100, 0]];
    let levels = [
        ([0, 1, -2, 0], 2, [0, 2, 4, 0]),
        ([2, 3, -1, 0], 1, [0, 2, 4, 5]),
        ([3, 1, 9, 0], 0, [0, 2, 4, 5]),
        ([1, 3, -4, 0], 1, [0, 2, 4, 6]),
        ([0, 1, -10, 0], 3, [0, 10, 12, 14]),
        ([2, 1, 3, 0], 0, [0, 10, 12, 14]),
        ([0, 2, -13, 0], 1, [0, 10, 13, 14]),
        ([0, 3, -20, 0], 2, [0, 11, 13, 20]),
    ];
    let mut plan: TickPlan = settled(4, &bounds)?;
    climb(&rt, &mut plan, &[0, 1, 3, 0], &levels)?;
    climb(&rt, &mut plan, &[0, 1, 3, 0], &levels)?;
    assert_eq!(rt; counts(&plan.close()), (0, 3, 1_021));
    Ok(())
}

// The numbers of bounds that were taken back are those of others now, with other points. A bound covers while it is there.
#[test]
fn covers_and_chains_after_backs(rt: HostRuntime) -> Result<(), Fail> {
    let calls = [
        (
            Call::Try(&[[1, 0, 5, 0], [2, 0, 8, 0], [1, 0, 3, 0]], End::Back),
            Answer::Tried,
        ),
        (Call::Post([2, 0, 8, 0]), Answer::Moved(0)),
        (Call::Post([1, 0, 5, 0]), Answer::Moved(0)),
        (
            Call::Try(&[[1, 0, 4, 0], [2, 1, 0, 0], [1, 0, 2, 0]], End::Back),
            Answer::Tried,
        ),
        (Call::Post([1, 0, 5, 0]), Answer::Covered),
        (Call::Post([1, 2, 4, 0]), Answer::Moved(0)),
        (Call::Post([1, 0, 4, 0]), Answer::Moved(0)),
        (
            Call::Try(&[[1, 0, 2, 0], [1, 0, 1, 0], [2, 0, 1, 0]], End::Keep),
            Answer::Tried,
        ),
        (Call::Post([1, 0, 1, 0]), Answer::Covered),
        (Call::Post([1, 0, 9, 0]), Answer::Covered),
        (Call::Post([2, 0, 8, 0]), Answer::Covered),
        (Call::Post([2, 1, 0, 0]), Answer::Moved(0)),
        (
            Call::Post([0, 1, -2, 0]),
            Answer::Conflict(&[POSTED, FIRST + 6]),
        ),
        (
            Call::Try(&[[0, 1, -1, 0], [1, 3, -6, 0]], End::Back),
            Answer::Tried,
        ),
        (Call::Post([1, 3, -6, 0]), Answer::Moved(1)),
        (Call::Post([0, 1, -1, 0]), Answer::Moved(2)),
        (Call::Read(3), Answer::Time(7, 0)),
    ];
    play_on(&rt, 4, &[[1, 0, 9, 0]], &calls, 11)
}

// The words have place for one bound more. Each bound that finds none would move points.
#[test]
fn posts_that_find_no_place(rt: HostRuntime) -> Result<(), Fail> {
    let [a, b, c] = BoundWords::from(bound([0, 1, -1, 0])?).0;
    let [d, e, f] = BoundWords::from(bound([1, 2, -1, 0])?).0;
    let mut words = [a, b, c, d, e, f, 0, 7, 7];
    let mut plan: Plan<Ticks, WordBook> = Plan::open(WordBook::open(&mut words), 4, 7);
    let full = Answer::Refused(PlanFault::Book(BookFault::Full));
    let calls = [
        (Call::Settle, Answer::Settled(2)),
        (Call::Try(&[[0, 1, -4, 0], [1, 3, -1, 0]], End::Back), full),
        (Call::Read(1), Answer::Time(1, 0)),
        (Call::Read(2), Answer::Time(2, 0)),
        (Call::Read(3), Answer::Time(0, 0)),
        (Call::Try(&[[0, 1, -4, 0], [0, 1, -9, 0]], End::Keep), full),
        (Call::Read(1), Answer::Time(4, 0)),
        (Call::Read(2), Answer::Time(5, 0)),
        (Call::Post([1, 3, -1, 0]), full),
        (Call::Read(3), Answer::Time(0, 0)),
        (Call::Post([0, 1, -4, 0]), Answer::Covered),
        (
            Call::PostOn([2, 0, 4, 0], 4),
            Answer::Conflict(&[POSTED, FIRST + 2, FIRST + 1]),
        ),
        (Call::Read(2), Answer::Time(5, 0)),
    ];
    play(&rt, &mut plan, &calls);
    assert_eq!(rt; counts(&plan.close()), (2, 1, 0));
    Ok(())
}
