// `bench BOUNDS POINTS ROUNDS [PART]`: settles a plan over many bounds, and then posts and takes back, so that each can be timed from outside.
#![tactic(auto)]

use anyhow::anyhow;
use books::{Book, WordBook};
use delays::Ticks;
use plans::{Plan, PlanFault};
use std::env;

mod asked;
mod load;
mod part;
mod rounds;
mod slow;
mod tally;

use asked::Asked;
use rounds::{checksum, go_through};
use tally::Tally;

// What a run has to tell at its end.
struct Ending {
    settled: usize,
    tally: Tally,
    checksum: u64,
    bounds: usize,
}

// What the arguments ask for.
fn arguments(rt: &HostRuntime) -> anyhow::Result<Asked> {
    let words: Vec<String> = env::args(rt)?.skip(1).collect(rt.alloc())?;
    match words.as_slice() {
        [] => Asked::new("2000", "128", "20", "all"),
        [bounds, points, rounds] => Asked::new(bounds, points, rounds, "all"),
        [bounds, points, rounds, part] => Asked::new(bounds, points, rounds, part),
        _ => Err(anyhow!("three arguments, or four, or none: BOUNDS POINTS ROUNDS PART")),
    }
}

// Settles a plan over the words, and goes through the rounds.
fn run(asked: &Asked, words: &mut [u32], list: &mut [u32]) -> Result<Ending, PlanFault> {
    let mut plan = Plan::<Ticks, WordBook>::open(
        WordBook::open(words),
        usize::from(asked.points),
        1,
    );
    let settled = plan.settle(list)?;
    let tally = go_through(asked, &mut plan, list)?;
    let checksum = checksum(&plan, asked.points)?;
    let bounds = plan.close().count();
    Ok(Ending {
        settled,
        tally,
        checksum,
        bounds,
    })
}

fn work(rt: &HostRuntime) -> anyhow::Result<()> {
    let heap = rt.alloc();
    let asked = arguments(rt)?;
    let mut words = load::make_words(heap, &asked)?;
    let mut list = vec![in heap; 0u32; usize::from(asked.points)]?;
    let Ending {
        settled,
        tally,
        checksum,
        bounds,
    } = run(&asked, words.as_mut_slice(), list.as_mut_slice())?;
    println!(rt; "{asked}")?;
    println!(rt; "settled: {settled} points are not at zero")?;
    println!(rt; "{tally}")?;
    println!(rt; "at the end: {bounds} bounds, and the times come to {checksum:016X}")?;
    Ok(())
}

fn main(rt: HostRuntime) -> anyhow::Result<()> {
    work(&rt)
}
