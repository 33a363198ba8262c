// Marks in one another, and slips that are good and that are not.
use crate::setups::{
    Answer, Call, End, TickPlan, close, counts, play, play_on, post, settled, strayed, tried,
};
use books::{Table, WordBook};
use bounds::Bound;
use delays::Ticks;
use plans::{Plan, PlanFault};
use std::process::Abort;
use std::test::Fail;
use words::BoundWords;

// Opens so many marks in one another, and keeps each.
fn nest(plan: &mut TickPlan, marks: u32) -> Result<(), PlanFault> {
    if marks == 0 {
        return Ok(());
    }
    let slip = plan.mark()?;
    let inner = nest(plan, marks - 1);
    plan.keep(slip)?;
    inner
}

// The plan takes so many marks more, and then no other.
fn check_room(rt: &impl Abort, plan: &mut TickPlan, marks: u8) {
    let marks = u32::from(marks);
    let nested = (nest(plan, marks), nest(plan, marks + 1));
    assert_eq!(rt; nested, (Ok(()), Err(PlanFault::MarksFull)));
}

#[test]
fn nine_marks(rt: HostRuntime) -> Result<(), Fail> {
    let mut plan: TickPlan = settled(2, &[])?;
    check_room(&rt, &mut plan, 8);
    check_room(&rt, &mut plan, 8);
    Ok(())
}

// The earliest times are had again, and so are the free places.
#[test]
fn a_back_takes_posts_back(rt: HostRuntime) -> Result<(), Fail> {
    let posts = [[0, 1, -7, 0], [1, 2, -1, 0], [2, 0, 9, 0]];
    let calls = [
        (Call::Try(&posts, End::Back), Answer::Tried),
        (Call::Read(1), Answer::Time(0, 0)),
        (Call::Read(2), Answer::Time(1, 0)),
        (Call::Try(&posts, End::Back), Answer::Tried),
        (Call::Read(1), Answer::Time(0, 0)),
        (Call::Read(2), Answer::Time(1, 0)),
        (Call::Post([0, 1, -7, 0]), Answer::Moved(1)),
        (Call::Post([1, 2, -1, 0]), Answer::Moved(1)),
    ];
    play_on(&rt, 3, &[[0, 2, -1, 0]], &calls, 3)
}

#[test]
fn a_back_after_a_conflict_and_a_cover(rt: HostRuntime) -> Result<(), Fail> {
    let chain = [0xC000_0000, 0x4000_0000];
    let calls = [
        (
            Call::Try(&[[0, 1, -4, 0], [0, 1, -6, 0]], End::Back),
            Answer::Conflict(&chain),
        ),
        (Call::Try(&[[1, 0, 6, 0]], End::Back), Answer::Tried),
        (Call::Read(1), Answer::Time(0, 0)),
        (Call::Try(&[[0, 1, -4, 0]], End::Keep), Answer::Tried),
        (Call::Read(1), Answer::Time(4, 0)),
    ];
    play_on(&rt, 2, &[[1, 0, 5, 0]], &calls, 2)
}

// A post, and under a second mark one more.
fn nested(plan: &mut TickPlan, inner: End, outer: End) -> Result<(), PlanFault> {
    let slip = plan.mark()?;
    let first = post(plan, [0, 1, -2, 0]);
    let second = tried(plan, &[[0, 1, -7, 0]], &mut [0; 128], inner);
    close(plan, slip, outer)?;
    first?;
    second
}

// The time of point 1, and the numbers of the book.
#[test]
fn marks_in_marks(rt: HostRuntime) -> Result<(), Fail> {
    let ends = [
        (End::Keep, End::Keep, 7, (0, 3, 1_021)),
        (End::Keep, End::Back, 0, (0, 1, 1_023)),
        (End::Back, End::Keep, 2, (0, 2, 1_022)),
        (End::Back, End::Back, 0, (0, 1, 1_023)),
    ];
    for (inner, outer, t, numbers) in ends {
        let mut plan: TickPlan = settled(2, &[[1, 0, 9, 0]])?;
        nested(&mut plan, inner, outer)?;
        play(&rt, &mut plan, &[(Call::Read(1), Answer::Time(t, 0))]);
        assert_eq!(rt; counts(&plan.close()), numbers);
    }
    Ok(())
}

// The answers to a slip of another plan, and to the slip of the plan's own mark after it.
fn strayed_and_own(
    other: &mut TickPlan,
    plan: &mut TickPlan,
    end: End,
) -> Result<(Result<(), PlanFault>, Result<(), PlanFault>), PlanFault> {
    let slip = plan.mark()?;
    let stray = strayed(other, plan, end);
    let own = close(plan, slip, end);
    Ok((stray, own))
}

// A refused keep or back has used its slip, and the mark stays open in its own plan.
#[test]
fn slips_of_another_plan(rt: HostRuntime) -> Result<(), Fail> {
    for end in [End::Keep, End::Back] {
        let mut plan: TickPlan = settled(2, &[])?;
        let mut other: TickPlan = Plan::open(Table::new(), 2, 8);
        play(&rt, &mut other, &[(Call::Settle, Answer::Settled(0))]);
        let both = strayed_and_own(&mut plan, &mut other, end);
        let again = strayed(&mut plan, &mut other, end);
        let wrong = Err(PlanFault::WrongSlip);
        assert_eq!(rt; (both, again), (Ok((wrong, Ok(()))), wrong));
        check_room(&rt, &mut plan, 6);
        check_room(&rt, &mut other, 8);
    }
    Ok(())
}

// A slip is judged by the plan's number and the depth alone: plans with one number take each other's.
#[test]
fn slips_of_a_plan_with_the_same_number(rt: HostRuntime) -> Result<(), Fail> {
    for end in [End::Keep, End::Back] {
        let mut plan: TickPlan = settled(2, &[])?;
        let mut other: TickPlan = settled(2, &[])?;
        let both = strayed_and_own(&mut plan, &mut other, end);
        assert_eq!(rt; both, Ok((Ok(()), Err(PlanFault::WrongSlip))));
    }
    Ok(())
}

// Two marks, whose slips are handed on in the wrong order.
fn crossed(
    plan: &mut TickPlan,
    end: End,
) -> Result<(Result<(), PlanFault>, Result<(), PlanFault>), PlanFault> {
    let outer = plan.mark()?;
    let inner = plan.mark();
    let first = close(plan, outer, end);
    let second = match inner {
        Ok(slip) => close(plan, slip, end),
        Err(fault) => Err(fault),
    };
    Ok((first, second))
}

#[test]
fn the_slip_of_an_outer_mark(rt: HostRuntime) -> Result<(), Fail> {
    for end in [End::Keep, End::Back] {
        let mut plan: TickPlan = settled(2, &[])?;
        let both = crossed(&mut plan, end);
        assert_eq!(rt; both, Ok((Err(PlanFault::WrongSlip), Ok(()))));
        check_room(&rt, &mut plan, 7);
    }
    Ok(())
}

// Over words a plan posts into them, and a back ends its rows where they ended.
#[test]
fn a_back_over_words(rt: HostRuntime) -> Result<(), Fail> {
    let [a, b, c] = BoundWords::from(Bound::new(1, 0, 5, 0)?).0;
    let [_, e, f] = BoundWords::from(Bound::new(0, 1, -4, 0)?).0;
    let mut words = [a, b, c, 0, 7, 7, 0, 7, 7];
    let mut plan: Plan<Ticks, WordBook> = Plan::open(WordBook::open(&mut words), 2, 7);
    let calls = [
        (Call::Settle, Answer::Settled(0)),
        (Call::Try(&[[0, 1, -4, 0]], End::Back), Answer::Tried),
        (Call::Read(1), Answer::Time(0, 0)),
    ];
    play(&rt, &mut plan, &calls);
    let numbers = counts(&plan.close());
    assert_eq!(rt; (numbers, words), ((1, 0, 2), [a, b, c, 0, e, f, 0, 7, 7]));
    Ok(())
}
