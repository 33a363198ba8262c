// What a line of a script is answered.
use faults::Fault;

// The answer to a line.
#[derive(Clone, Copy, PartialEq, Eq, Debug)]
pub enum Answer {
    // S: settled, and so many times are not zero
    Settled { count: usize },
    // A: accepted, and so many points moved
    Moved { count: usize },
    // C: covered by a bound of the book
    Covered,
    // X: no times meet it with the bounds in force
    Conflict,
    // W: the earliest time of the point, as its parts
    Time { point: u16, t: i64, s: i64 },
    // E: refused
    Refused(Fault),
}
