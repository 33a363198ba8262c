// What a plan refuses, and which refusal comes first.
use crate::setups::{
    Answer, Call, End, Numbers, TickPlan, play, play_on, settled, strayed, table, unread,
};
use books::Table;
use plans::{Plan, PlanFault};
use std::test::Fail;

const UNSETTLED: Answer = Answer::Refused(PlanFault::Unsettled);

const SHORT: Answer = Answer::Refused(PlanFault::ListShort);

fn point(place: usize) -> PlanFault {
    PlanFault::Point { place }
}

// An unsettled plan with no bound.
fn opened(points: usize) -> TickPlan {
    Plan::open(Table::new(), points, 7)
}

#[test]
fn numbers_of_points_and_lengths_of_lists(rt: HostRuntime) {
    let points_fault = Answer::Refused(PlanFault::Points);
    let table = [
        (0, 128, points_fault),
        (0, 0, points_fault),
        (129, 128, points_fault),
        (129, 0, points_fault),
        (4_096, 128, points_fault),
        (4_096, 0, points_fault),
        (usize::MAX, 128, points_fault),
        (usize::MAX, 0, points_fault),
        (1, 128, Answer::Settled(0)),
        (2, 128, Answer::Settled(0)),
        (127, 128, Answer::Settled(0)),
        (128, 128, Answer::Settled(0)),
        (1, 0, SHORT),
        (128, 127, SHORT),
    ];
    for (points, length, answer) in table {
        play(
            &rt,
            &mut opened(points),
            &[(Call::SettleOn(length), answer)],
        );
    }
}

#[test]
fn lists_at_the_number_of_points(rt: HostRuntime) {
    let settled_already = Answer::Refused(PlanFault::SettledAlready);
    let calls = [
        (Call::SettleOn(2), SHORT),
        (Call::SettleOn(3), Answer::Settled(0)),
        (Call::PostOn([1, 0, 5, 0], 2), SHORT),
        (Call::PostOn([1, 0, 5, 0], 3), Answer::Moved(0)),
        (Call::SettleOn(3), settled_already),
        (Call::SettleOn(0), settled_already),
    ];
    play(&rt, &mut opened(3), &calls);
}

#[test]
fn calls_before_settle(rt: HostRuntime) -> Result<(), Fail> {
    let mut plan = opened(2);
    let calls = [
        (Call::Post([2, 2, 0, 1]), UNSETTLED),
        (Call::Read(0), UNSETTLED),
        (Call::Read(2), UNSETTLED),
        (Call::Try(&[], End::Keep), UNSETTLED),
    ];
    play(&rt, &mut plan, &calls);
    let mut other: TickPlan = settled(2, &[])?;
    for end in [End::Keep, End::Back] {
        assert_eq!(rt;
            strayed(&mut other, &mut plan, end),
            Err(PlanFault::Unsettled)
        );
    }
    Ok(())
}

#[test]
fn points_that_are_read(rt: HostRuntime) -> Result<(), Fail> {
    let past = Answer::Refused(point(1));
    let calls = [
        (Call::Read(0), Answer::Time(0, 0)),
        (Call::Read(1), Answer::Time(5, 0)),
        (Call::Read(2), past),
        (Call::Read(127), past),
        (Call::Read(128), past),
        (Call::Read(usize::MAX), past),
    ];
    play_on(&rt, 2, &[[0, 1, -5, 0]], &calls, 1)
}

// The list is too short at each of these posts but the last. The two before it are covered, and conflict.
#[test]
fn posts_are_refused_in_order(rt: HostRuntime) -> Result<(), Fail> {
    let calls = [
        (Call::PostOn([2, 2, 0, 1], 1), Answer::Refused(point(1))),
        (Call::PostOn([4095, 0, 0, 0], 1), Answer::Refused(point(1))),
        (Call::PostOn([1, 2, 0, 1], 1), Answer::Refused(point(2))),
        (Call::PostOn([1, 0, 5, 1], 1), Answer::Refused(unread(0))),
        (Call::PostOn([1, 0, 5, -1], 1), Answer::Refused(unread(0))),
        (Call::PostOn([1, 0, 5, 0], 1), SHORT),
        (Call::PostOn([0, 0, -1, 0], 1), SHORT),
        (Call::Post([0, 1, -5, 0]), Answer::Moved(1)),
    ];
    play_on(&rt, 2, &[[1, 0, 5, 0]], &calls, 2)
}

// The first bound that does not fit is named, and of one that does not fit in both ways its points. Some of these bounds conflict.
#[test]
fn books_that_do_not_fit(rt: HostRuntime) -> Result<(), Fail> {
    let books: [([Numbers; 3], PlanFault); 6] = [
        ([[2, 0, 0, 0], [0, 1, 0, 1], [0, 2, 0, 0]], point(0)),
        ([[1, 0, 5, 0], [0, 2, 0, 0], [0, 1, 0, 1]], point(1)),
        ([[1, 0, 5, 0], [0, 2, 0, 1], [0, 1, 0, 1]], point(1)),
        ([[0, 0, -1, 0], [1, 1, -1, 0], [4095, 0, 0, 0]], point(2)),
        ([[1, 0, 5, 0], [0, 1, 0, 1], [2, 0, 0, 0]], unread(1)),
        ([[1, 0, 5, 0], [0, 1, -6, 0], [0, 1, 0, -1]], unread(2)),
    ];
    for (bounds, fault) in books {
        let mut plan: TickPlan = Plan::open(table(&bounds)?, 2, 7);
        let calls = [
            (Call::SettleOn(1), SHORT),
            (Call::SettleOn(2), Answer::Refused(fault)),
            (Call::Read(0), UNSETTLED),
        ];
        play(&rt, &mut plan, &calls);
    }
    Ok(())
}
