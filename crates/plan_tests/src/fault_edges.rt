// What the refusals of plans and scripts tell: number, layer and place, and words.
use crate::setups::{TickPlan, post, settled, unread};
use books::BookFault;
use bounds::BoundFault;
use delays::{Ticks, read_pair};
use faults::{Fault, Layer};
use plans::PlanFault;
use scripts::{ScriptFault, command_of};
use std::test::Fail;

#[test]
fn faults_of_plans(rt: HostRuntime) {
    let table = [
        (PlanFault::Unsettled, 1, Layer::Plans, 0),
        (PlanFault::SettledAlready, 2, Layer::Plans, 0),
        (PlanFault::Points, 3, Layer::Plans, 0),
        (PlanFault::ListShort, 4, Layer::Plans, 0),
        (PlanFault::Point { place: 2 }, 5, Layer::Plans, 2),
        (PlanFault::Point { place: 65_534 }, 5, Layer::Plans, 65_534),
        (unread(0), 6, Layer::Kinds, 0),
        (unread(65_534), 6, Layer::Kinds, 65_534),
        (PlanFault::Bound(BoundFault::LeftPoint), 7, Layer::Bounds, 1),
        (PlanFault::Bound(BoundFault::PartS), 7, Layer::Bounds, 4),
        (PlanFault::Conflict { length: 128 }, 8, Layer::Plans, 128),
        (PlanFault::Book(BookFault::Full), 9, Layer::Books, 0),
        (PlanFault::MarksFull, 10, Layer::Plans, 0),
        (PlanFault::WrongSlip, 11, Layer::Plans, 0),
    ];
    for (fault, number, layer, place) in table {
        let told = Fault {
            number,
            layer,
            place,
        };
        assert_eq!(rt; Fault::from(fault), told);
    }
}

fn read_of_ticks(t: i64, s: i64) -> Result<Ticks, PlanFault> {
    Ok(read_pair(t, s)?)
}

fn full_book() -> Result<(), PlanFault> {
    let full: Result<(), BookFault> = Err(BookFault::Full);
    Ok(full?)
}

// The post makes its bound first.
#[test]
fn faults_of_layers_below(rt: HostRuntime) -> Result<(), Fail> {
    let mut plan: TickPlan = settled(2, &[])?;
    let of_bound = Err(PlanFault::Bound(BoundFault::RightPoint));
    assert_eq!(rt; post(&mut plan, [0, 4096, 0, 0]), of_bound);
    let told = (read_of_ticks(0, 1), full_book());
    assert_eq!(rt;
        told,
        (Err(unread(0)), Err(PlanFault::Book(BookFault::Full)))
    );
    Ok(())
}

#[test]
fn faults_in_words(rt: HostRuntime) -> Result<(), Fail> {
    let table = [
        (PlanFault::Unsettled, "the plan is not settled"),
        (PlanFault::SettledAlready, "the plan is settled already"),
        (
            PlanFault::Points,
            "the number of points is not from 1 to 128",
        ),
        (
            PlanFault::ListShort,
            "the list is shorter than the number of points",
        ),
        (
            PlanFault::Point { place: 2 },
            "a point is not below the number of points (place 2)",
        ),
        (
            unread(17),
            "no delay of the kind has these parts (place 17)",
        ),
        (
            PlanFault::Conflict { length: 3 },
            "the bounds in force hold a chain of 3",
        ),
        (
            PlanFault::Bound(BoundFault::LeftPoint),
            "the left point is not from 0 to 4095",
        ),
        (
            PlanFault::Book(BookFault::Full),
            "the book has no free place",
        ),
        (PlanFault::MarksFull, "eight marks are open"),
        (
            PlanFault::WrongSlip,
            "the slip is not the plan's present one",
        ),
    ];
    for (fault, words) in table {
        let told = format!(in rt.alloc(); "{fault}")?;
        assert_eq!(rt; told.as_str(), words);
    }
    Ok(())
}

// The command of an empty line is refused for its fields.
#[test]
fn faults_of_scripts_in_words(rt: HostRuntime) -> Result<(), Fail> {
    let table = [
        (
            ScriptFault::Room,
            "the script is too long, or the output too short",
        ),
        (
            command_of(b"").err().unwrap_or(ScriptFault::Room),
            "a field is missing, unreadable or extra",
        ),
        (
            ScriptFault::Bound(BoundFault::PartT),
            "t is not from -500000000 to 500000000",
        ),
        (
            ScriptFault::Plan(PlanFault::Conflict { length: 3 }),
            "the bounds in force hold a chain of 3",
        ),
    ];
    for (fault, words) in table {
        let told = format!(in rt.alloc(); "{fault}")?;
        assert_eq!(rt; told.as_str(), words);
    }
    Ok(())
}
