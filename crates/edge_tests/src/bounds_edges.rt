// Which four numbers make a bound, and which of them is named where they make none.
use bounds::{Bound, BoundFault, Row};
use faults::{Fault, Layer};
use std::test::Fail;

fn row_of(left: i64, right: i64, t: i64, s: i64) -> Result<Row, BoundFault> {
    Ok(Bound::new(left, right, t, s)?.row())
}

#[test]
fn greatest_and_least_numbers(rt: HostRuntime) {
    assert_eq!(rt;
        row_of(0, 4095, 500_000_000, -500_000_000),
        Ok(Row {
            left: 0,
            right: 4095,
            t: 500_000_000,
            s: -500_000_000,
        })
    );
    assert_eq!(rt;
        row_of(4095, 0, -500_000_000, 500_000_000),
        Ok(Row {
            left: 4095,
            right: 0,
            t: -500_000_000,
            s: 500_000_000,
        })
    );
}

#[test]
fn one_past_each_edge(rt: HostRuntime) {
    let table = [
        ([4096, 0, 0, 0], BoundFault::LeftPoint),
        ([-1, 0, 0, 0], BoundFault::LeftPoint),
        ([i64::MIN, 0, 0, 0], BoundFault::LeftPoint),
        ([0, 4096, 0, 0], BoundFault::RightPoint),
        ([0, -1, 0, 0], BoundFault::RightPoint),
        ([0, 0, 500_000_001, 0], BoundFault::PartT),
        ([0, 0, -500_000_001, 0], BoundFault::PartT),
        ([0, 0, i64::MAX, 0], BoundFault::PartT),
        ([0, 0, 0, 500_000_001], BoundFault::PartS),
        ([0, 0, 0, -500_000_001], BoundFault::PartS),
        ([0, 0, 0, i64::MIN], BoundFault::PartS),
        ([0, 4096, 500_000_001, i64::MAX], BoundFault::RightPoint),
        ([-1, -1, i64::MAX, i64::MAX], BoundFault::LeftPoint),
    ];
    for ([left, right, t, s], fault) in table {
        assert_eq!(rt; row_of(left, right, t, s), Err(fault));
    }
}

#[test]
fn rows_of_tables(rt: HostRuntime) -> Result<(), Fail> {
    let row = Row {
        left: 7,
        right: 4095,
        t: -1,
        s: 2,
    };
    assert_eq!(rt; Bound::try_from(row)?.row(), row);
    let far = Row { right: 4096, ..row };
    assert!(rt; Bound::try_from(far).is_err());
    Ok(())
}

#[test]
fn faults_of_bounds(rt: HostRuntime) {
    let places = [
        (BoundFault::LeftPoint, 1),
        (BoundFault::RightPoint, 2),
        (BoundFault::PartT, 3),
        (BoundFault::PartS, 4),
    ];
    for (fault, place) in places {
        let told = Fault {
            number: 7,
            layer: Layer::Bounds,
            place,
        };
        assert_eq!(rt; Fault::from(fault), told);
    }
}
