// Delays of the kinds, for the tests.
use delays::{KindFault, Ranked, Ticks, read_pair};

pub(crate) const REACH: i64 = 1_099_511_627_776;

pub(crate) fn ticks(t: i64) -> Result<Ticks, KindFault> {
    read_pair(t, 0)
}

pub(crate) fn ranked(t: i64, s: i64) -> Result<Ranked, KindFault> {
    read_pair(t, s)
}
