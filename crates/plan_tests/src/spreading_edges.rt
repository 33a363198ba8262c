// How times spread at the edges: as many bounds as a book has, all points waiting at once, floors in chains, and rings through the last point.
use crate::setups::{
    Answer, Call, End, FIRST, FLOOR, Numbers, POSTED, TickPlan, bound, check_times, play, settled,
    table,
};
use books::{BookFault, WordBook};
use delays::Ticks;
use plans::{Plan, PlanFault};
use std::alloc::Global;
use std::process::Abort;
use std::test::Fail;
use words::BoundWords;

fn words_of(numbers: Numbers) -> Result<[u32; 3], Fail> {
    Ok(BoundWords::from(bound(numbers)?).0)
}

// The words of 65,535 rows: that of a bound that 65,533 others follow which leave the same point, and the last.
fn most_words(heap: Global, last: [u32; 3]) -> Result<Vec<u32>, Fail> {
    let other = words_of([1, 2, 500_000_000, 0])?;
    let mut words = Vec::new(heap);
    words.extend_from_slice(&words_of([1, 0, 5, 0])?)?;
    for _ in 0..65_533 {
        words.extend_from_slice(&other)?;
    }
    words.extend_from_slice(&last)?;
    Ok(words)
}

// Posts to such a book, whose last bound is that point 1 comes at least 3 after point 0.
fn check_most(rt: &impl Abort, plan: &mut Plan<Ticks, WordBook>) {
    let full = Answer::Refused(PlanFault::Book(BookFault::Full));
    let calls = [
        (Call::Post([1, 0, 5, 0]), Answer::Covered),
        (Call::Post([1, 2, 500_000_000, 0]), Answer::Covered),
        (Call::Post([0, 1, -3, 0]), Answer::Covered),
        (
            Call::Post([0, 1, -6, 0]),
            Answer::Conflict(&[POSTED, FIRST]),
        ),
        (
            Call::Post([1, 0, 2, 0]),
            Answer::Conflict(&[POSTED, FIRST + 65_534]),
        ),
        (
            Call::Post([2, 0, -1, 0]),
            Answer::Conflict(&[POSTED, FLOOR + 2]),
        ),
        (Call::Post([1, 0, 4, 0]), full),
        (Call::Post([0, 1, -5, 0]), full),
        (Call::Read(1), Answer::Time(3, 0)),
        (Call::Post([0, 2, -7, 0]), full),
        (Call::Read(2), Answer::Time(0, 0)),
    ];
    play(rt, plan, &calls);
}

#[test]
fn the_most_bounds_at_settle(rt: HostRuntime) -> Result<(), Fail> {
    let mut words = most_words(rt.alloc(), words_of([0, 1, -3, 0])?)?;
    let book = WordBook::open(words.as_mut_slice());
    let mut plan: Plan<Ticks, WordBook> = Plan::open(book, 3, 7);
    play(&rt, &mut plan, &[(Call::Settle, Answer::Settled(1))]);
    check_most(&rt, &mut plan);
    Ok(())
}

// The last bound is posted, first under a mark.
#[test]
fn the_most_bounds_by_a_post(rt: HostRuntime) -> Result<(), Fail> {
    let mut words = most_words(rt.alloc(), [0, 7, 7])?;
    let book = WordBook::open(words.as_mut_slice());
    let mut plan: Plan<Ticks, WordBook> = Plan::open(book, 3, 7);
    let calls = [
        (Call::Settle, Answer::Settled(0)),
        (Call::Try(&[[1, 0, 1, 0]], End::Back), Answer::Tried),
        (Call::Post([0, 1, -3, 0]), Answer::Moved(1)),
    ];
    play(&rt, &mut plan, &calls);
    check_most(&rt, &mut plan);
    Ok(())
}

// Bounds after which point 127 leads to all points but itself: point 0 comes at least 999 before it, and each other at most 500 before it
// and at least 1 after the point of the next lower number. The bounds that leave point 127 are taken newest first, so the points wait in
// falling order, and as one is taken up the one before it is moved once more.
fn wide(heap: Global) -> Result<Vec<Numbers>, Fail> {
    let mut bounds = Vec::new(heap);
    bounds.push([127, 0, 999, 0])?;
    for n in 1..127 {
        bounds.push([127, n, 500, 0])?;
    }
    for n in 1..126 {
        bounds.push([n, n + 1, -1, 0])?;
    }
    Ok(bounds)
}

// A conflict stops while points wait, and what is posted after it moves all points but point 0.
#[test]
fn all_points_wait_at_a_post(rt: HostRuntime) -> Result<(), Fail> {
    let bounds = wide(rt.alloc())?;
    let mut plan: TickPlan = settled(128, bounds.as_slice())?;
    let chain = Answer::Conflict(&[POSTED, FIRST]);
    let calls = [
        (Call::Read(126), Answer::Time(125, 0)),
        (Call::PostOn([0, 127, -1_000, 0], 128), chain),
        (Call::Read(126), Answer::Time(125, 0)),
        (Call::Read(127), Answer::Time(0, 0)),
        (Call::Try(&[[0, 127, -999, 0]], End::Back), Answer::Tried),
        (Call::Read(126), Answer::Time(125, 0)),
        (Call::Post([0, 127, -999, 0]), Answer::Moved(127)),
        (Call::PostOn([0, 127, -1_000, 0], 128), chain),
    ];
    play(&rt, &mut plan, &calls);
    check_times(&rt, &mut plan, &[0, 499, 500, 501]);
    let calls = [
        (Call::Read(126), Answer::Time(624, 0)),
        (Call::Read(127), Answer::Time(999, 0)),
    ];
    play(&rt, &mut plan, &calls);
    Ok(())
}

// Settles a plan over the bounds, which hold one chain alone. It is these words, which may begin at any of them.
fn check_ring(
    rt: &impl Abort,
    points: usize,
    bounds: &[Numbers],
    ring: &[u32],
) -> Result<(), Fail> {
    let mut plan: TickPlan = Plan::open(table(bounds)?, points, 7);
    let mut list = [7; 130];
    let length = ring.len();
    assert_eq!(rt; plan.settle(&mut list), Err(PlanFault::Conflict { length }));
    let (words, rest) = list.split_at_mut(length.min(130));
    let place = words.iter().position(|word| ring.starts_with(&[*word]));
    words.rotate_left(place.unwrap_or(0));
    assert_eq!(rt; &*words, ring);
    assert!(rt; rest.iter().all(|word| *word == 7));
    Ok(())
}

// Point 127 comes 1,000 after point 0, which is 1 too much, or 999.
#[test]
fn all_points_wait_at_a_settle(rt: HostRuntime) -> Result<(), Fail> {
    let mut bounds = wide(rt.alloc())?;
    bounds.push([0, 127, -1_000, 0])?;
    check_ring(&rt, 128, bounds.as_slice(), &[FIRST, FIRST + 252])?;
    bounds.pop();
    bounds.push([0, 127, -999, 0])?;
    let mut plan: TickPlan = Plan::open(table(bounds.as_slice())?, 128, 7);
    let calls = [
        (Call::Settle, Answer::Settled(127)),
        (Call::Read(126), Answer::Time(624, 0)),
        (Call::Read(127), Answer::Time(999, 0)),
    ];
    play(&rt, &mut plan, &calls);
    check_times(&rt, &mut plan, &[0, 499, 500, 501]);
    Ok(())
}

// Each book with its times, and a post that gives one chain alone. The times stay.
#[test]
fn floors_in_chains_of_posts(rt: HostRuntime) -> Result<(), Fail> {
    let books: [([Numbers; 3], [i64; 4], Numbers, &[u32]); 3] = [
        (
            [[2, 0, 4, 0], [3, 1, -2, 0], [0, 3, 7, 0]],
            [0, 2, 0, 0],
            [1, 2, -3, 0],
            &[POSTED, FIRST, FLOOR + 3, FIRST + 1],
        ),
        (
            [[3, 2, -1, 0], [2, 1, -1, 0], [0, 0, 0, 0]],
            [0, 2, 1, 0],
            [1, 0, 1, 0],
            &[POSTED, FLOOR + 3, FIRST, FIRST + 1],
        ),
        (
            [[1, 0, 1, 0], [0, 2, 5, 0], [3, 3, 0, 0]],
            [0, 0, 0, 0],
            [2, 1, -2, 0],
            &[POSTED, FIRST, FLOOR + 2],
        ),
    ];
    for (bounds, times, posted, chain) in books {
        let mut plan: TickPlan = settled(4, &bounds)?;
        let call = (Call::PostOn(posted, 4), Answer::Conflict(chain));
        play(&rt, &mut plan, &[call, call]);
        check_times(&rt, &mut plan, &times);
    }
    Ok(())
}

// Each book holds one chain alone, and those over 128 points need the last of them.
#[test]
fn floors_and_the_last_point_in_chains_of_settles(rt: HostRuntime) -> Result<(), Fail> {
    let books: [(usize, [Numbers; 3], &[u32]); 5] = [
        (
            4,
            [[1, 2, -3, 0], [2, 0, 4, 0], [3, 1, -2, 0]],
            &[FLOOR + 3, FIRST + 2, FIRST, FIRST + 1],
        ),
        (
            3,
            [[1, 0, -5, 0], [0, 1, 9, 0], [2, 2, 0, 0]],
            &[FLOOR + 1, FIRST],
        ),
        (
            4,
            [[3, 2, -1, 0], [2, 1, -1, 0], [1, 0, 1, 0]],
            &[FLOOR + 3, FIRST, FIRST + 1, FIRST + 2],
        ),
        (
            128,
            [[0, 127, -5, 0], [127, 64, 2, 0], [64, 0, 2, 0]],
            &[FIRST, FIRST + 1, FIRST + 2],
        ),
        (
            128,
            [[127, 0, -1, 0], [0, 127, 3, 0], [127, 64, 0, 0]],
            &[FLOOR + 127, FIRST],
        ),
    ];
    for (points, bounds, ring) in books {
        check_ring(&rt, points, &bounds, ring)?;
    }
    Ok(())
}

// The ring goes through all points, and the bound that leaves the last one closes it: with a delay of 127 it can be met.
#[test]
fn a_ring_closed_at_the_last_point(rt: HostRuntime) -> Result<(), Fail> {
    let mut bounds = Vec::new(rt.alloc());
    for n in 0..127 {
        bounds.push([n, n + 1, -1, 0])?;
    }
    bounds.push([127, 0, 127, 0])?;
    let mut plan: TickPlan = Plan::open(table(bounds.as_slice())?, 128, 7);
    play(&rt, &mut plan, &[(Call::Settle, Answer::Settled(127))]);
    check_times(&rt, &mut plan, &[0, 1, 2]);
    bounds.pop();
    bounds.push([127, 0, 126, 0])?;
    let mut ring = Vec::new(rt.alloc());
    for word in FIRST..FIRST + 128 {
        ring.push(word)?;
    }
    check_ring(&rt, 128, bounds.as_slice(), ring.as_slice())
}
