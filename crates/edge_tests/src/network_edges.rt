// Times, chains and walks at the edges of what meets and what does not, and the words of links.
use crate::kinds::{REACH, ranked, ticks};
use delays::{Delay, KindFault, Ranked, Ticks, read_pair};
use network::{
    Edge, Link, Mismatch, NoLink, NoWord, check_times, comes_over, edge_of, floor, in_force,
    is_chain,
};
use std::alloc::Global;
use std::process::Abort;
use std::test::Fail;

fn edge<D: Delay>(left: usize, right: usize, t: i64, s: i64) -> Result<Edge<D>, KindFault> {
    Ok(Edge {
        left,
        right,
        delay: read_pair(t, s)?,
    })
}

fn in_ticks(left: usize, right: usize, t: i64) -> Result<Edge<Ticks>, KindFault> {
    edge(left, right, t, 0)
}

// The answer of `is_chain` to the edges with these numbers left, right and t in ticks.
fn is_chain_of(heap: Global, numbers: &[(usize, usize, i64)]) -> Result<Option<bool>, Fail> {
    let mut row = Vec::new(heap);
    for (left, right, t) in numbers {
        row.push(in_ticks(*left, *right, *t)?)?;
    }
    Ok(is_chain(row.as_slice()))
}

// Rows of edges, each with the answer of `is_chain` to it.
type Chains<'a> = &'a [(&'a [(usize, usize, i64)], Option<bool>)];

fn check_chains(rt: &impl Abort, heap: Global, chains: Chains) -> Result<(), Fail> {
    for (row, answer) in chains {
        assert_eq!(rt; is_chain_of(heap, row)?, *answer);
    }
    Ok(())
}

// Point 1 is at most 5 after point 0, and at least 5, or at least 6.
#[test]
fn a_sum_of_zero_is_no_chain(rt: HostRuntime) -> Result<(), Fail> {
    let chains: Chains = &[
        (&[(1, 0, 5), (0, 1, -5)], Some(false)),
        (&[(1, 0, 5), (0, 1, -6)], Some(true)),
        (&[(0, 1, -6), (1, 0, 5)], Some(true)),
        (&[(0, 0, -1)], Some(true)),
        (&[], Some(false)),
    ];
    check_chains(&rt, rt.alloc(), chains)
}

#[test]
fn a_chain_is_closed_and_leaves_no_point_twice(rt: HostRuntime) -> Result<(), Fail> {
    let chains: Chains = &[
        (&[(0, 1, -1)], Some(false)),
        (&[(0, 1, -1), (0, 1, -1)], Some(false)),
        (&[(0, 1, -1), (1, 2, -1)], Some(false)),
        (&[(0, 1, -1), (1, 0, 0), (0, 1, -1), (1, 0, 0)], Some(false)),
    ];
    check_chains(&rt, rt.alloc(), chains)
}

// A sum on the way leaves the reach, in a closed row and in one that is not.
#[test]
fn a_chain_past_the_reach(rt: HostRuntime) -> Result<(), Fail> {
    let chains: Chains = &[
        (&[(0, 1, -REACH), (1, 0, -1)], None),
        (&[(0, 1, -REACH), (1, 0, 0)], Some(true)),
        (&[(0, 1, -REACH), (1, 2, -1)], Some(false)),
    ];
    check_chains(&rt, rt.alloc(), chains)
}

#[test]
fn times_that_meet_and_that_do_not(rt: HostRuntime) -> Result<(), Fail> {
    let edges = [in_ticks(1, 0, 5)?, in_ticks(0, 1, -5)?, floor(0), floor(1)];
    let table = [
        ([0, 5], Ok(())),
        ([0, 6], Err(Mismatch::Unmet { number: 0 })),
        ([0, 4], Err(Mismatch::Unmet { number: 1 })),
        ([1, 6], Err(Mismatch::Start)),
    ];
    for ([first, second], answer) in table {
        let times = [ticks(first)?, ticks(second)?];
        assert_eq!(rt; check_times(&edges, &times), answer);
    }
    let of_none = (check_times(&edges, &[]), check_times::<Ticks>(&[], &[]));
    assert_eq!(rt; of_none, (Err(Mismatch::Unmet { number: 1 }), Ok(())));
    Ok(())
}

// An edge in ticks as its points and its parts.
fn numbers_of(edge: Option<Edge<Ticks>>) -> Option<(usize, usize, (i64, i64))> {
    let edge = edge?;
    Some((edge.left, edge.right, edge.delay.parts()))
}

// The book's edges come first, and then a floor for each point.
#[test]
fn edges_in_force(rt: HostRuntime) -> Result<(), Fail> {
    let book = [in_ticks(1, 0, 5)?];
    let table = [
        (0, Some((1, 0, (5, 0)))),
        (1, Some((0, 0, (0, 0)))),
        (2, Some((0, 1, (0, 0)))),
        (3, None),
    ];
    for (number, edge) in table {
        assert_eq!(rt; numbers_of(in_force(&book, 2, number)), edge);
    }
    assert_eq!(rt; numbers_of(in_force(&[], 0, 0)), None);
    Ok(())
}

#[test]
fn times_at_the_reach(rt: HostRuntime) -> Result<(), Fail> {
    let edges = [in_ticks(0, 1, 0)?, in_ticks(0, 1, 1)?];
    let table = [
        (REACH, Err(Mismatch::Reach { number: 1 })),
        (REACH - 1, Ok(())),
    ];
    for (t, answer) in table {
        assert_eq!(rt; check_times(&edges, &[ticks(0)?, ticks(t)?]), answer);
    }
    Ok(())
}

// A step to point 1, and one from there to point 2.
fn two_steps() -> Result<[Edge<Ranked>; 2], KindFault> {
    Ok([edge(0, 1, 0, -1)?, edge(1, 2, 0, -1)?])
}

// Two steps are no millisecond, so they leave room before the next one.
#[test]
fn ranked_steps_are_no_milliseconds(rt: HostRuntime) -> Result<(), Fail> {
    let [first, second] = two_steps()?;
    let back = edge(2, 0, 1, -500_000_000)?;
    let edges = [first, second, back, floor(0), floor(1), floor(2)];
    let times = [ranked(0, 0)?, ranked(0, 1)?, ranked(0, 2)?];
    let told = (check_times(&edges, &times), is_chain(&edges[0..3]));
    assert_eq!(rt; told, (Ok(()), Some(false)));
    Ok(())
}

#[test]
fn ranked_walks_to_a_time(rt: HostRuntime) -> Result<(), Fail> {
    let steps = two_steps()?;
    for (point, time, answer) in [(2, 2, true), (1, 1, false), (2, 1, false)] {
        let told = comes_over(&steps, point, ranked(0, time)?);
        assert_eq!(rt; told, Some(answer));
    }
    Ok(())
}

#[test]
fn walks_to_a_time(rt: HostRuntime) -> Result<(), Fail> {
    let row = [in_ticks(0, 1, -REACH)?, in_ticks(1, 2, -1)?];
    let table = [
        (&row[0..1], 1, REACH, Some(true)),
        (&row[0..1], 1, REACH - 1, Some(false)),
        (&row[0..2], 2, REACH, None),
        (&row[0..2], 1, REACH, Some(false)),
        (&row[0..0], 0, 0, Some(true)),
    ];
    for (walk, point, t, answer) in table {
        assert_eq!(rt; comes_over(walk, point, ticks(t)?), answer);
    }
    Ok(())
}

#[test]
fn words_of_links(rt: HostRuntime) {
    for (link, word) in [
        (Link::Book { number: 0 }, 0x4000_0000),
        (
            Link::Book {
                number: 0x3FFF_FFFF,
            },
            0x7FFF_FFFF,
        ),
        (Link::Floor { point: 0 }, 0x8000_0000),
        (Link::Floor { point: 127 }, 0x8000_007F),
        (Link::Posted, 0xC000_0000),
    ] {
        let told = (u32::try_from(link), Link::try_from(word));
        assert_eq!(rt; told, (Ok(word), Ok(link)));
    }
}

#[test]
fn links_and_words_of_none(rt: HostRuntime) {
    for link in [
        Link::Book {
            number: 0x4000_0000,
        },
        Link::Floor { point: 0xFFFF_FFFF },
    ] {
        assert_eq!(rt; u32::try_from(link), Err(NoWord));
    }
    for word in [0, 1, 0x3FFF_FFFF, 0xC000_0001, 0xFFFF_FFFF] {
        assert_eq!(rt; Link::try_from(word), Err(NoLink));
    }
}

#[test]
fn edges_of_links(rt: HostRuntime) -> Result<(), Fail> {
    let book = [in_ticks(1, 0, 5)?];
    let posted = in_ticks(0, 1, -6)?;
    let table = [
        (Link::Book { number: 0 }, Some((1, 0, (5, 0)))),
        (Link::Posted, Some((0, 1, (-6, 0)))),
        (Link::Floor { point: 3 }, Some((0, 3, (0, 0)))),
        (Link::Book { number: 1 }, None),
    ];
    for (link, edge) in table {
        assert_eq!(rt; numbers_of(edge_of(link, &book, posted)), edge);
    }
    Ok(())
}

#[test]
fn a_chain_of_links(rt: HostRuntime) -> Result<(), Fail> {
    let book = [in_ticks(1, 0, 5)?];
    let posted = in_ticks(0, 1, -6)?;
    let first = edge_of(Link::Book { number: 0 }, &book, posted).ok_or(1u8)?;
    let second = edge_of(Link::Posted, &book, posted).ok_or(1u8)?;
    assert_eq!(rt; is_chain(&[first, second]), Some(true));
    Ok(())
}

#[test]
fn errors_are_told(rt: HostRuntime) -> Result<(), Fail> {
    let told = format!(in rt.alloc();
        "{} / {} / {}",
        NoWord,
        NoLink,
        Mismatch::Reach { number: 17 }
    )?;
    assert_eq!(rt;
        told.as_str(),
        "the number of the link is 2^30 or more / no link has this word / the limit of edge 17 is past the reach"
    );
    Ok(())
}
