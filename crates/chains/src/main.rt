// `chains`: settles the plan on standard input and posts bounds to it, and prints each answer, of a conflict the words of its chain.
#![tactic(auto)]

use books::{Book, WordBook};
use bounds::Bound;
use delays::{Delay, Ranked, Ticks};
use faults::Fault;
use plans::{Plan, PlanFault, Posted};
use std::io;

mod asked;

use asked::{Asked, Kind};

// The most points of a plan, and so the most bounds of a chain.
const POINTS: usize = 128;

// The words of the chain that the list begins with, or the number, layer and place of any other fault.
fn print_refusal(rt: &HostRuntime, fault: PlanFault, list: &[u32]) -> io::Result<()> {
    let PlanFault::Conflict { length } = fault else {
        let Fault {
            number,
            layer,
            place,
        } = Fault::from(fault);
        let letter = char::from(layer);
        return println!(rt; "E {number} {letter} {place}");
    };
    print!(rt; "X")?;
    for word in list.iter().take(length) {
        print!(rt; " {word:08X}")?;
    }
    println!(rt; "")
}

fn print_post(rt: &HostRuntime, answer: Result<Posted, PlanFault>, list: &[u32]) -> io::Result<()> {
    match answer {
        Ok(Posted::Covered) => println!(rt; "C"),
        Ok(Posted::Moved { count }) => println!(rt; "A {count}"),
        Err(fault) => print_refusal(rt, fault, list),
    }
}

// Settles the plan and posts the bounds; where it can't be settled, none is posted.
fn answer<D: Delay, B: Book>(
    rt: &HostRuntime,
    plan: &mut Plan<D, B>,
    posts: &[Bound],
) -> io::Result<()> {
    let mut list = [0; POINTS];
    match plan.settle(&mut list) {
        Ok(count) => println!(rt; "S {count}")?,
        Err(fault) => return print_refusal(rt, fault, &list),
    }
    for bound in posts {
        let answer = plan.post(*bound, &mut list);
        print_post(rt, answer, &list)?;
    }
    Ok(())
}

fn work(rt: &HostRuntime) -> anyhow::Result<()> {
    let heap = rt.alloc();
    let text = io::read_to_string(heap, rt.stdin())?;
    let Asked {
        kind,
        points,
        mut words,
        posts,
    } = Asked::read(heap, text.as_str())?;
    let book = WordBook::open(words.as_mut_slice());
    let points = usize::from(points);
    let posts = posts.as_slice();
    match kind {
        Kind::Ticks => answer(
            rt,
            &mut Plan::<Ticks, WordBook>::open(book, points, 1),
            posts,
        )?,
        Kind::Ranked => answer(
            rt,
            &mut Plan::<Ranked, WordBook>::open(book, points, 1),
            posts,
        )?,
    }
    Ok(())
}

fn main(rt: HostRuntime) -> anyhow::Result<()> {
    work(&rt)
}
