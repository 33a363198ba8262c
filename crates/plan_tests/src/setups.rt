// Bounds, tables and plans for the tests, and calls that are played on a plan, each with the answer that it must have.
use books::{Book, Table};
use bounds::{Bound, BoundFault};
use delays::{Delay, KindFault, Ticks};
use plans::{Plan, PlanFault, Posted, Slip};
use std::process::Abort;
use std::test::Fail;

pub(crate) type TickPlan = Plan<Ticks, Table>;

// The numbers left, right, t and s of a bound.
pub(crate) type Numbers = [i64; 4];

// The words of a posted bound, of the first bound of the book, and of the floor of point 0.
pub(crate) const POSTED: u32 = 0xC000_0000;

pub(crate) const FIRST: u32 = 0x4000_0000;

pub(crate) const FLOOR: u32 = 0x8000_0000;

// How a mark is closed.
#[derive(Clone, Copy)]
pub(crate) enum End {
    Keep,
    Back,
}

// What is asked of a plan. A settle or a post has a list of 128 words, or of so many.
#[derive(Clone, Copy)]
pub(crate) enum Call<'a> {
    Settle,
    SettleOn(usize),
    Post(Numbers),
    PostOn(Numbers, usize),
    // the parts of the earliest time of a point
    Read(usize),
    // posts under a mark
    Try(&'a [Numbers], End),
}

// What a plan answers. Of a conflict it is the words in the list.
#[derive(Clone, Copy, PartialEq, Eq, Debug)]
pub(crate) enum Answer<'a> {
    Settled(usize),
    Moved(usize),
    Covered,
    Time(i64, i64),
    Tried,
    Conflict(&'a [u32]),
    Refused(PlanFault),
}

pub(crate) fn bound(numbers: Numbers) -> Result<Bound, BoundFault> {
    let [left, right, t, s] = numbers;
    Bound::new(left, right, t, s)
}

pub(crate) fn table(bounds: &[Numbers]) -> Result<Table, Fail> {
    let mut table = Table::new();
    for numbers in bounds {
        table.add(bound(*numbers)?)?;
    }
    Ok(table)
}

// The fault of parts that the kind has no delay with.
pub(crate) fn unread(place: usize) -> PlanFault {
    PlanFault::Kind {
        fault: KindFault::Unread,
        place,
    }
}

// The numbers of fixed bounds, added bounds and free places of any book.
pub(crate) fn counts<B: Book>(book: &B) -> (usize, usize, usize) {
    (book.fixed_count(), book.added_count(), book.free_count())
}

// A settled plan with the number 7 over a table.
pub(crate) fn settled<D: Delay>(points: usize, bounds: &[Numbers]) -> Result<Plan<D, Table>, Fail> {
    let mut plan = Plan::open(table(bounds)?, points, 7);
    plan.settle(&mut [0; 128])?;
    Ok(plan)
}

pub(crate) fn post<D: Delay, B: Book>(
    plan: &mut Plan<D, B>,
    numbers: Numbers,
) -> Result<Posted, PlanFault> {
    plan.post(bound(numbers)?, &mut [0; 128])
}

pub(crate) fn close<D: Delay, B: Book>(
    plan: &mut Plan<D, B>,
    slip: Slip,
    end: End,
) -> Result<(), PlanFault> {
    match end {
        End::Keep => plan.keep(slip),
        End::Back => plan.back(slip),
    }
}

fn post_all<D: Delay, B: Book>(
    plan: &mut Plan<D, B>,
    bounds: &[Numbers],
    list: &mut [u32],
) -> Result<(), PlanFault> {
    for numbers in bounds {
        plan.post(bound(*numbers)?, list)?;
    }
    Ok(())
}

// Posts under a mark.
pub(crate) fn tried<D: Delay, B: Book>(
    plan: &mut Plan<D, B>,
    bounds: &[Numbers],
    list: &mut [u32],
    end: End,
) -> Result<(), PlanFault> {
    let slip = plan.mark()?;
    let posted = post_all(plan, bounds, list);
    close(plan, slip, end)?;
    posted
}

// A slip of a plan, handed to another one.
pub(crate) fn strayed(from: &mut TickPlan, to: &mut TickPlan, end: End) -> Result<(), PlanFault> {
    let slip = from.mark()?;
    close(to, slip, end)
}

// The first words of a list that has room for all the plans here.
fn front(list: &mut [u32; 130], length: usize) -> &mut [u32] {
    &mut list[..length.min(130)]
}

fn settled_on<D: Delay, B: Book>(
    plan: &mut Plan<D, B>,
    list: &mut [u32],
) -> Result<Answer<'static>, PlanFault> {
    Ok(Answer::Settled(plan.settle(list)?))
}

fn posted_on<D: Delay, B: Book>(
    plan: &mut Plan<D, B>,
    numbers: Numbers,
    list: &mut [u32],
) -> Result<Answer<'static>, PlanFault> {
    match plan.post(bound(numbers)?, list)? {
        Posted::Moved { count } => Ok(Answer::Moved(count)),
        Posted::Covered => Ok(Answer::Covered),
    }
}

fn read_at<D: Delay, B: Book>(
    plan: &Plan<D, B>,
    point: usize,
) -> Result<Answer<'static>, PlanFault> {
    let (t, s) = plan.read(point)?.parts();
    Ok(Answer::Time(t, s))
}

fn tried_on<D: Delay, B: Book>(
    plan: &mut Plan<D, B>,
    bounds: &[Numbers],
    list: &mut [u32],
    end: End,
) -> Result<Answer<'static>, PlanFault> {
    tried(plan, bounds, list, end)?;
    Ok(Answer::Tried)
}

fn called<D: Delay, B: Book>(
    plan: &mut Plan<D, B>,
    call: Call,
    list: &mut [u32; 130],
) -> Result<Answer<'static>, PlanFault> {
    match call {
        Call::Settle => settled_on(plan, front(list, 128)),
        Call::SettleOn(length) => settled_on(plan, front(list, length)),
        Call::Post(numbers) => posted_on(plan, numbers, front(list, 128)),
        Call::PostOn(numbers, length) => posted_on(plan, numbers, front(list, length)),
        Call::Read(point) => read_at(plan, point),
        Call::Try(bounds, end) => tried_on(plan, bounds, front(list, 128), end),
    }
}

// The answer to a call with a list of sevens, and whether all after a chain in the list is as it was.
fn ask<'a, D: Delay, B: Book>(
    plan: &mut Plan<D, B>,
    call: Call,
    list: &'a mut [u32; 130],
) -> (Answer<'a>, bool) {
    match called(plan, call, list) {
        Err(PlanFault::Conflict { length }) if length <= 130 => {
            let (chain, rest) = list.split_at(length);
            (Answer::Conflict(chain), is_untouched(rest))
        }
        Err(fault) => (Answer::Refused(fault), is_untouched(list)),
        Ok(answer) => (answer, is_untouched(list)),
    }
}

fn is_untouched(list: &[u32]) -> bool {
    list.iter().all(|word| *word == 7)
}

// Makes the calls one after another, and compares each answer with the one beside the call.
pub(crate) fn play<D: Delay, B: Book>(
    rt: &impl Abort,
    plan: &mut Plan<D, B>,
    calls: &[(Call, Answer)],
) {
    for (number, (call, expected)) in calls.iter().enumerate() {
        assert_eq!(rt;
            ask(plan, *call, &mut [7; 130]),
            (*expected, true),
            "call {number}"
        );
    }
}

// The points from point 0 on have these times.
pub(crate) fn check_times(rt: &impl Abort, plan: &mut TickPlan, times: &[i64]) {
    for (point, time) in times.iter().enumerate() {
        play(rt, plan, &[(Call::Read(point), Answer::Time(*time, 0))]);
    }
}

// Plays calls on a settled plan over a table with these bounds, which then has so many.
pub(crate) fn play_on(
    rt: &impl Abort,
    points: usize,
    bounds: &[Numbers],
    calls: &[(Call, Answer)],
    count: usize,
) -> Result<(), Fail> {
    let mut plan: TickPlan = settled(points, bounds)?;
    play(rt, &mut plan, calls);
    assert_eq!(rt;
        counts(&plan.close()),
        (0, count, 1_024usize.saturating_sub(count))
    );
    Ok(())
}
