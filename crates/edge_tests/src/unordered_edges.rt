// Sums and checks over values with no order, whose `==` tells more apart than their delays.
ghost use Rattle.delays.specs.SizesLaws.{small_room};
ghost use Rattle.delays.specs.Ticks.{ticks_kind};
ghost use Rattle.delays.specs.TicksLaws.{ticks_lawful};

use crate::kinds::{REACH, ticks};
use delays::quantity::Quantity;
use delays::{Delay, KindFault, Ticks, read_pair, total};
use network::{
    Edge, Link, Mismatch, check_times, comes_over, edge_of, floor, in_force, is_chain, meets, sum,
};
use std::test::Fail;

// Ticks with a note, which is no part of what the value means.
#[derive(Clone, Copy, PartialEq, Eq, Debug)]
struct Noted {
    delay: Ticks,
    note: u8,
}

impl Quantity for Noted {
    ghost kind = { ticks_kind };

    ghost means = { λ x. ⟦<Ticks as Delay>⟧.means x.delay };

    ghost lawful = { ticks_lawful };

    ghost room = { small_room };

    ghost within = { λ x. x.delay.t.within };

    fn zero() -> Noted {
        Noted {
            delay: Delay::zero(),
            note: 0,
        }
    }

    fn opposite(self) -> Noted {
        Noted {
            delay: Delay::opposite(self.delay),
            note: self.note,
        }
    }

    fn add(self, other: Noted) -> Option<Noted> {
        Some(Noted {
            delay: Delay::add(self.delay, other.delay)?,
            note: other.note,
        })
    }

    fn at_most(self, other: Noted) -> bool {
        self.delay <= other.delay
    }

    fn parts(self) -> (i64, i64) {
        Delay::parts(self.delay)
    }

    fn read(t: i64, s: i64) -> Option<Noted> {
        Some(Noted {
            delay: Delay::read(t, s)?,
            note: 0,
        })
    }
}

fn with_note(t: i64, note: u8) -> Result<Noted, KindFault> {
    Ok(Noted {
        delay: ticks(t)?,
        note,
    })
}

fn edge(left: usize, right: usize, t: i64) -> Result<Edge<Noted>, KindFault> {
    Ok(Edge {
        left,
        right,
        delay: with_note(t, 1)?,
    })
}

// The number of milliseconds of a value, where there is one.
fn number_of(value: Option<Noted>) -> Option<i64> {
    Some(value?.parts().0)
}

// An edge as its points and its milliseconds.
fn numbers_of(edge: Option<Edge<Noted>>) -> Option<(usize, usize, i64)> {
    let edge = edge?;
    Some((edge.left, edge.right, edge.delay.parts().0))
}

#[test]
fn pairs_and_sums(rt: HostRuntime) -> Result<(), Fail> {
    assert_eq!(rt; read_pair::<Noted>(15, 3), Err(KindFault::Unread));
    assert_eq!(rt; read_pair::<Noted>(15, 0), Ok(with_note(15, 0)?));
    let row = [with_note(REACH, 1)?, with_note(-2, 2)?, with_note(3, 3)?];
    let told = (number_of(total(&row[0..2])), number_of(total(&row)));
    assert_eq!(rt; told, (Some(REACH - 2), None));
    let edges = [edge(0, 1, REACH)?, edge(1, 2, -2)?, edge(2, 3, 3)?];
    let told = (number_of(sum(&edges[0..2])), number_of(sum(&edges)));
    assert_eq!(rt; told, (Some(REACH - 2), None));
    Ok(())
}

// Point 1 is at most 5 after point 0, and at least 5, or at least 6.
#[test]
fn chains(rt: HostRuntime) -> Result<(), Fail> {
    let five = is_chain(&[edge(1, 0, 5)?, edge(0, 1, -5)?]);
    let six = is_chain(&[edge(1, 0, 5)?, edge(0, 1, -6)?]);
    let past = is_chain(&[edge(0, 1, -REACH)?, edge(1, 0, -1)?]);
    assert_eq!(rt; (five, six, past), (Some(false), Some(true), None));
    Ok(())
}

#[test]
fn edges_by_name(rt: HostRuntime) -> Result<(), Fail> {
    let book = [edge(1, 0, 5)?];
    assert_eq!(rt; numbers_of(Some(floor(3))), Some((0, 3, 0)));
    let table = [(0, Some((1, 0, 5))), (2, Some((0, 1, 0))), (3, None)];
    for (number, answer) in table {
        assert_eq!(rt; numbers_of(in_force(&book, 2, number)), answer);
    }
    let table = [
        (Link::Book { number: 0 }, Some((1, 0, 5))),
        (Link::Posted, Some((0, 1, -6))),
        (Link::Book { number: 1 }, None),
    ];
    for (link, answer) in table {
        assert_eq!(rt; numbers_of(edge_of(link, &book, edge(0, 1, -6)?)), answer);
    }
    Ok(())
}

// Point 0 is at zero and point 1 at 5, whatever the notes.
#[test]
fn times_with_notes(rt: HostRuntime) -> Result<(), Fail> {
    let edges = [edge(1, 0, 5)?, edge(0, 1, -5)?];
    let table = [
        (0, 5, Ok(())),
        (0, 6, Err(Mismatch::Unmet { number: 0 })),
        (0, 4, Err(Mismatch::Unmet { number: 1 })),
        (1, 6, Err(Mismatch::Start)),
    ];
    for (first, second, answer) in table {
        let times = [with_note(first, 7)?, with_note(second, 8)?];
        assert_eq!(rt; check_times(&edges, &times), answer);
    }
    Ok(())
}

#[test]
fn an_edge_with_notes(rt: HostRuntime) -> Result<(), Fail> {
    let edge = edge(0, 1, 1)?;
    let table = [(-1, Some(true)), (-2, Some(false)), (REACH, None)];
    for (t, answer) in table {
        assert_eq!(rt; meets(edge, &[with_note(0, 7)?, with_note(t, 8)?]), answer);
    }
    Ok(())
}

#[test]
fn a_walk_to_a_time_with_a_note(rt: HostRuntime) -> Result<(), Fail> {
    let row = [edge(0, 1, -5)?];
    for (t, note, answer) in [(5, 1, true), (5, 9, true), (4, 1, false)] {
        assert_eq!(rt; comes_over(&row, 1, with_note(t, note)?), Some(answer));
    }
    Ok(())
}
