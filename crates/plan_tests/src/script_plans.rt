// What the lines do to the plan, and what is printed of it.
use crate::script_setups::{list_each, lists_in};
use faults::{Fault, Layer};
use scripts::Answer;
use std::test::Fail;

#[test]
fn numbers_of_points(rt: HostRuntime) -> Result<(), Fail> {
    list_each(
        &rt,
        rt.alloc(),
        &[
            ("T 0", "1 E 3 P 0\n"),
            ("T 1", "1 S 0\n"),
            ("T 128", "1 S 0\n"),
            ("T 129", "1 E 3 P 0\n"),
            ("T -1", "1 E 3 P 0\n"),
            ("T 9999999999", "1 E 3 P 0\n"),
            ("T 4294967297", "1 E 3 P 0\n"),
            ("R 0", "1 E 3 P 0\n"),
            ("R 128", "1 S 0\n"),
            ("R -128", "1 E 3 P 0\n"),
        ],
    )
}

// A refused opening leaves no plan, and a settled plan stays.
#[test]
fn openings(rt: HostRuntime) -> Result<(), Fail> {
    list_each(
        &rt,
        rt.alloc(),
        &[
            (
                "W 0\nT 0\nW 0\nT 2\nR 0\nT 3\nW 2\n",
                "1 E 1 P 0\n2 E 3 P 0\n3 E 1 P 0\n4 S 0\n5 E 2 P 0\n6 E 2 P 0\n7 E 5 P 1\n",
            ),
            (
                "R 2\nT 0\nP 0 1 -1 -1\nW 1\n",
                "1 S 0\n2 E 2 P 0\n3 A 1\n4 W 1 1 1 0\n",
            ),
        ],
    )
}

// Bounds, a bound that is tried, one that is covered, and one whose parts no delay in ticks has.
#[test]
fn a_plan_in_ticks(rt: HostRuntime) -> Result<(), Fail> {
    list_each(
        &rt,
        rt.alloc(),
        &[(
            "T 3\nP 0 1 -20 0\nP 1 2 -15 0\nW 2\nP 2 0 40 0\nQ 2 1 10 0\nP 0 1 -20 0\nP 1 2 -15 3\nW 3\n",
            "1 S 0\n2 A 1\n3 A 1\n4 W 2 35 0 4\n5 A 0\n6 X\n7 C\n8 E 6 K 0\n9 E 5 P 1\n",
        )],
    )
}

// The step counts where the milliseconds are equal, and never runs over into them.
#[test]
fn a_ranked_plan(rt: HostRuntime) -> Result<(), Fail> {
    list_each(
        &rt,
        rt.alloc(),
        &[(
            "R 2\nP 0 1 -5 3\nW 1\nP 0 1 -5 4\nP 0 1 -5 2\nW 1\nP 1 0 5 -3\nP 1 0 5 -2\nP 0 1 -4 -500000000\n",
            "1 S 0\n2 A 1\n3 W 1 5 -3 1\n4 C\n5 A 1\n6 W 1 5 -2 1\n7 X\n8 A 0\n9 C\n",
        )],
    )
}

// What is tried has the answer of a post, and is gone after it.
#[test]
fn tries(rt: HostRuntime) -> Result<(), Fail> {
    list_each(
        &rt,
        rt.alloc(),
        &[(
            "T 2\nQ 0 1 -7 0\nW 1\nQ 0 1 -7 0\nP 0 1 -7 0\nQ 0 1 -7 0\nQ 1 0 6 0\nP 1 0 7 0\nQ 0 1 -8 0\n",
            "1 S 0\n2 A 1\n3 W 1 0 0 0\n4 A 1\n5 A 1\n6 C\n7 X\n8 A 0\n9 X\n",
        )],
    )
}

#[test]
fn hundredths_of_a_second(rt: HostRuntime) -> Result<(), Fail> {
    list_each(
        &rt,
        rt.alloc(),
        &[
            ("T 2\nP 0 1 -4 0\nW 1\n", "1 S 0\n2 A 1\n3 W 1 4 0 0\n"),
            ("T 2\nP 0 1 -5 0\nW 1\n", "1 S 0\n2 A 1\n3 W 1 5 0 1\n"),
            ("T 2\nP 0 1 -14 0\nW 1\n", "1 S 0\n2 A 1\n3 W 1 14 0 1\n"),
            ("T 2\nP 0 1 -15 0\nW 1\n", "1 S 0\n2 A 1\n3 W 1 15 0 2\n"),
        ],
    )
}

// The longest line that a plan's answers make.
#[test]
fn the_latest_time(rt: HostRuntime) -> Result<(), Fail> {
    let heap = rt.alloc();
    let mut script = String::new(heap);
    let mut listing = String::new(heap);
    script.push_str("R 128\n")?;
    listing.push_str("1 S 0\n")?;
    for point in 0..127 {
        let post = format!(in heap; "P {point} {} -500000000 500000000\n", point + 1)?;
        script.push_str(post.as_str())?;
        listing.push_str(format!(in heap; "{} A 1\n", point + 2)?.as_str())?;
    }
    script.push_str("W 127\n")?;
    listing.push_str("129 W 127 63500000000 -63500000000 6350000000\n")?;
    lists_in(&rt, heap, 129 * 64, script.as_bytes(), listing.as_str())
}

// The plan has 1,024 places. Each gap is longer than those before it, so that none is covered.
#[test]
fn a_post_too_many(rt: HostRuntime) -> Result<(), Fail> {
    let heap = rt.alloc();
    let mut script = String::new(heap);
    let mut listing = String::new(heap);
    script.push_str("T 2\n")?;
    listing.push_str("1 S 0\n")?;
    for gap in 1..1_025 {
        script.push_str(format!(in heap; "P 0 1 -{gap} 0\n")?.as_str())?;
        listing.push_str(format!(in heap; "{} A 1\n", gap + 1)?.as_str())?;
    }
    script.push_str("P 0 1 -1025 0\nQ 1 0 2000 0\nP 0 1 -7 0\nP 1 0 7 0\nW 1\n")?;
    listing.push_str("1026 E 9 B 0\n1027 E 9 B 0\n1028 C\n1029 X\n1030 W 1 1024 0 102\n")?;
    lists_in(&rt, heap, 1_030 * 64, script.as_bytes(), listing.as_str())
}

fn time(point: u16, t: i64, s: i64) -> Answer {
    Answer::Time { point, t, s }
}

#[test]
fn answers_in_text(rt: HostRuntime) -> Result<(), Fail> {
    let refused = Fault {
        number: 7,
        layer: Layer::Bounds,
        place: 3,
    };
    let table = [
        (Answer::Settled { count: 0 }, "S 0"),
        (Answer::Moved { count: 128 }, "A 128"),
        (Answer::Covered, "C"),
        (Answer::Conflict, "X"),
        (time(3, 1_994, -7), "W 3 1994 -7 199"),
        (time(127, 1_995, 500_000_000), "W 127 1995 500000000 200"),
        (time(0, -1_995, 0), "W 0 -1995 0 -199"),
        (time(0, -1_996, 0), "W 0 -1996 0 -200"),
        (Answer::Refused(refused), "E 7 D 3"),
    ];
    for (answer, text) in table {
        let told = format!(in rt.alloc(); "{answer}")?;
        assert_eq!(rt; told.as_str(), text);
    }
    Ok(())
}
