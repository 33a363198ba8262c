// Settling over books that can be met, and over books that can't.
use crate::setups::{Answer, Call, Numbers, TickPlan, bound, play, table};
use books::Table;
use delays::{Delay, Ranked, read_pair};
use faults::Fault;
use network::{Edge, Link, edge_of, floor, is_chain};
use plans::{Plan, PlanFault};
use std::alloc::Global;
use std::process::Abort;
use std::test::Fail;

// How many times are not zero, and the time of point 2.
#[test]
fn settled_times(rt: HostRuntime) -> Result<(), Fail> {
    let books: [([Numbers; 3], usize, i64); 5] = [
        ([[0, 0, 0, 0], [1, 2, 0, 0], [2, 1, 0, 0]], 0, 0),
        ([[1, 0, 5, 0], [0, 1, -5, 0], [2, 0, 0, 0]], 1, 0),
        ([[1, 2, -1, 0], [0, 1, -1, 0], [2, 0, 2, 0]], 2, 2),
        ([[0, 2, -1, 0], [1, 2, -1, 0], [0, 1, -4, 0]], 2, 5),
        (
            [
                [0, 1, -500_000_000, 0],
                [1, 2, -500_000_000, 0],
                [2, 1, 500_000_000, 0],
            ],
            2,
            1_000_000_000,
        ),
    ];
    for (bounds, count, last) in books {
        let mut plan: TickPlan = Plan::open(table(&bounds)?, 3, 7);
        let calls = [
            (Call::Settle, Answer::Settled(count)),
            (Call::Read(2), Answer::Time(last, 0)),
        ];
        play(&rt, &mut plan, &calls);
    }
    Ok(())
}

// A step is more than none, and less than any millisecond.
#[test]
fn settled_ranked_times(rt: HostRuntime) -> Result<(), Fail> {
    let bounds = [
        [0, 1, 0, -1],
        [1, 2, 0, -1],
        [2, 0, 1, -500_000_000],
        [0, 3, -1, 2],
    ];
    let mut plan: Plan<Ranked, Table> = Plan::open(table(&bounds)?, 5, 7);
    let calls = [
        (Call::Settle, Answer::Settled(3)),
        (Call::Read(0), Answer::Time(0, 0)),
        (Call::Read(1), Answer::Time(0, 1)),
        (Call::Read(2), Answer::Time(0, 2)),
        (Call::Read(3), Answer::Time(1, -2)),
        (Call::Read(4), Answer::Time(0, 0)),
    ];
    play(&rt, &mut plan, &calls);
    Ok(())
}

fn edge<D: Delay>(numbers: Numbers) -> Result<Edge<D>, Fail> {
    let row = bound(numbers)?.row();
    Ok(Edge {
        left: usize::from(row.left),
        right: usize::from(row.right),
        delay: read_pair(i64::from(row.t), i64::from(row.s))?,
    })
}

// The bounds and floors that the words name. None is a posted one.
fn named<D: Delay>(heap: Global, bounds: &[Numbers], words: &[u32]) -> Result<Vec<Edge<D>>, Fail> {
    let mut book = Vec::new(heap);
    for numbers in bounds {
        book.push(edge(*numbers)?)?;
    }
    let mut row = Vec::new(heap);
    for word in words {
        let link = Link::try_from(*word)?;
        row.push(edge_of(link, book.as_slice(), floor(0)).ok_or(*word)?)?;
    }
    Ok(row)
}

// The length of the chain, which is the place of the fault.
fn chain_length(answer: Result<usize, PlanFault>) -> Option<usize> {
    let fault = answer.err()?;
    let PlanFault::Conflict { length } = fault else {
        return None;
    };
    (Fault::from(fault).place == length as u64).then_some(length)
}

// Settles a plan over a book with these bounds, which can't be met: the list begins with the words of a chain, the rest of it is as it was, and
// the plan stays unsettled.
fn check_conflict<D: Delay>(
    rt: &impl Abort,
    heap: Global,
    plan: &mut Plan<D, Table>,
    bounds: &[Numbers],
) -> Result<(), Fail> {
    let mut list = [7; 130];
    let length = chain_length(plan.settle(&mut list)).ok_or(1u8)?;
    assert!(rt; length <= 128);
    let (words, rest) = list.split_at(length);
    assert!(rt; words.iter().all(|word| *word != 0xC000_0000));
    let row: Vec<Edge<D>> = named(heap, bounds, words)?;
    assert_eq!(rt; is_chain(row.as_slice()), Some(true));
    assert!(rt; rest.iter().all(|word| *word == 7));
    play(
        rt,
        plan,
        &[(Call::Read(0), Answer::Refused(PlanFault::Unsettled))],
    );
    Ok(())
}

#[test]
fn books_that_conflict(rt: HostRuntime) -> Result<(), Fail> {
    let books: [(usize, [Numbers; 3]); 7] = [
        (1, [[0, 0, 0, 0], [0, 0, -1, 0], [0, 0, 0, 0]]),
        (2, [[1, 0, 5, 0], [0, 1, -6, 0], [0, 0, 0, 0]]),
        (2, [[0, 1, 5, 0], [0, 0, 0, 0], [1, 0, -5, 0]]),
        (3, [[2, 2, 1, 0], [2, 2, -1, 0], [0, 0, 0, 0]]),
        (4, [[0, 1, -1, 0], [2, 0, 1, 0], [1, 2, -1, 0]]),
        (4, [[1, 2, -1, 0], [2, 1, 0, 0], [3, 0, 0, 0]]),
        (
            128,
            [
                [126, 127, -500_000_000, 0],
                [127, 126, 499_999_999, 0],
                [0, 126, -1, 0],
            ],
        ),
    ];
    for (points, bounds) in books {
        let mut plan: TickPlan = Plan::open(table(&bounds)?, points, 7);
        check_conflict(&rt, rt.alloc(), &mut plan, &bounds)?;
    }
    let bounds = [[1, 0, 0, 500_000_000], [0, 1, -1, 500_000_000]];
    let mut plan: Plan<Ranked, Table> = Plan::open(table(&bounds)?, 2, 7);
    check_conflict(&rt, rt.alloc(), &mut plan, &bounds)
}

// All points on one ring, and all bounds with the greatest delay.
#[test]
fn the_longest_ring(rt: HostRuntime) -> Result<(), Fail> {
    let mut bounds = Vec::new(rt.alloc());
    for n in 0..127 {
        bounds.push([n, n + 1, -500_000_000, 0])?;
    }
    bounds.push([127, 0, -500_000_000, 0])?;
    let mut plan: TickPlan = Plan::open(table(bounds.as_slice())?, 128, 7);
    check_conflict(&rt, rt.alloc(), &mut plan, bounds.as_slice())
}
