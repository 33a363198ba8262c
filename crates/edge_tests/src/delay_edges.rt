// Delays at the reach, one past it, and at the ends of 64 bits.
use crate::kinds::{REACH, ranked, ticks};
use delays::{Delay, KindFault, Ranked, Ticks, read_pair, total};
use faults::{Fault, Layer};
use std::test::Fail;

#[test]
fn pairs_of_ticks(rt: HostRuntime) -> Result<(), Fail> {
    for t in [0, 1, -1, 500_000_000, REACH, -REACH] {
        assert_eq!(rt; ticks(t)?.parts(), (t, 0));
    }
    for (t, s) in [
        (REACH + 1, 0),
        (-REACH - 1, 0),
        (i64::MAX, 0),
        (i64::MIN, 0),
        (0, 1),
        (0, i64::MIN),
    ] {
        assert_eq!(rt; Ticks::read(t, s), None);
    }
    assert_eq!(rt; read_pair::<Ticks>(15, 3), Err(KindFault::Unread));
    Ok(())
}

#[test]
fn pairs_of_ranked(rt: HostRuntime) -> Result<(), Fail> {
    for (t, s) in [(0, 0), (1, -1), (REACH, -REACH), (-REACH, REACH)] {
        assert_eq!(rt; ranked(t, s)?.parts(), (t, s));
    }
    for (t, s) in [
        (REACH + 1, 0),
        (0, REACH + 1),
        (0, -REACH - 1),
        (i64::MIN, 0),
        (0, i64::MIN),
        (i64::MAX, i64::MAX),
    ] {
        assert_eq!(rt; Ranked::read(t, s), None);
    }
    Ok(())
}

#[test]
fn delays_as_they_are_shown(rt: HostRuntime) -> Result<(), Fail> {
    let (t, r) = (ticks(5)?, ranked(5, -3)?);
    let told = format!(in rt.alloc(); "{t:?} {r:?}")?;
    assert_eq!(rt; told.as_str(), "Ticks { t: 5 } Ranked { t: 5, s: -3 }");
    Ok(())
}

type Parts = (i64, i64);

// The parts of the sum of two delays with these parts.
fn sum_of<D: Delay>(first: Parts, second: Parts) -> Result<Option<Parts>, KindFault> {
    let first: D = read_pair(first.0, first.1)?;
    match first.add(read_pair(second.0, second.1)?) {
        Some(sum) => Ok(Some(sum.parts())),
        None => Ok(None),
    }
}

#[test]
fn sums_of_ticks_at_the_reach(rt: HostRuntime) {
    let table = [
        (REACH - 1, 1, Some((REACH, 0))),
        (REACH, 0, Some((REACH, 0))),
        (REACH, 1, None),
        (REACH, REACH, None),
        (-REACH, -1, None),
        (REACH, -REACH, Some((0, 0))),
    ];
    for (first, second, sum) in table {
        assert_eq!(rt; sum_of::<Ticks>((first, 0), (second, 0)), Ok(sum));
    }
}

#[test]
fn sums_of_ranked_at_the_reach(rt: HostRuntime) {
    let table = [
        ((0, REACH - 1), (0, 1), Some((0, REACH))),
        ((0, REACH), (0, 1), None),
        ((REACH, 0), (1, 0), None),
        ((REACH, -3), (-1, 1), Some((REACH - 1, -2))),
    ];
    for (first, second, sum) in table {
        assert_eq!(rt; sum_of::<Ranked>(first, second), Ok(sum));
    }
}

#[test]
fn opposites_at_the_reach(rt: HostRuntime) -> Result<(), Fail> {
    let (top, one) = (ticks(REACH)?, ticks(1)?);
    assert_eq!(rt; top.add(Ticks::zero()), Some(top));
    let told = (top.opposite().add(one.opposite()), top.add(top.opposite()));
    assert_eq!(rt; told, (None, Some(Ticks::zero())));
    Ok(())
}

// Whether the first of two delays with these parts is at most the second.
fn at_most<D: Delay>(first: Parts, second: Parts) -> Result<bool, KindFault> {
    let first: D = read_pair(first.0, first.1)?;
    Ok(first <= read_pair(second.0, second.1)?)
}

#[test]
fn orders(rt: HostRuntime) {
    for (first, second, is_at_most) in [(-1, 0, true), (0, 0, true), (1, 0, false)] {
        let told = at_most::<Ticks>((first, 0), (second, 0));
        assert_eq!(rt; told, Ok(is_at_most));
    }
    let table = [
        ((0, REACH), (1, -REACH), true),
        ((1, -REACH), (0, REACH), false),
        ((1, 2), (1, 2), true),
        ((1, 1), (1, 2), true),
        ((1, 2), (1, 1), false),
    ];
    for (first, second, is_at_most) in table {
        assert_eq!(rt; at_most::<Ranked>(first, second), Ok(is_at_most));
    }
}

#[test]
fn totals(rt: HostRuntime) -> Result<(), Fail> {
    assert_eq!(rt; total::<Ticks, Ticks>(&[]), Some(Ticks::zero()));
    let greatest = ticks(500_000_000)?;
    assert_eq!(rt; total(&[greatest; 256]), Some(ticks(128_000_000_000)?));
    Ok(())
}

#[test]
fn totals_at_the_reach(rt: HostRuntime) -> Result<(), Fail> {
    let (top, one, back) = (ticks(REACH)?, ticks(1)?, ticks(-1)?);
    let told = (total(&[top, one, back]), total(&[top, back, one]));
    assert_eq!(rt; told, (None, Some(top)));
    Ok(())
}

#[test]
fn greatest_sizes_and_reaches(rt: HostRuntime) {
    let numbers = (500_000_000, 1_099_511_627_776);
    assert_eq!(rt; (Ticks::GREATEST, Ticks::REACH), numbers);
    assert_eq!(rt; (Ranked::GREATEST, Ranked::REACH), numbers);
}

#[test]
fn the_fault_of_kinds(rt: HostRuntime) {
    let told = Fault {
        number: 6,
        layer: Layer::Kinds,
        place: 0,
    };
    assert_eq!(rt; Fault::from(KindFault::Unread), told);
}
