// The whole numbers that values of kinds hold.
ghost use Rattle.std.specs.Prelude.{◌≡◌, ◌<◌, ◌≤◌, ◌+ℤ◌, neg_ℤ, MatchOption, unsigned_abs};
ghost use Rattle.delays.specs.Sizes.{number_reach};

use std::fmt;
use std::ops::Neg;

// The greatest size of a small part.
pub(crate) const SMALL_PART: u64 = 500_000_000;

// The greatest size of a number.
pub(crate) const REACH: u64 = 1_099_511_627_776;

// The same, to be compared with numbers of both signs.
const LIMIT: i64 = REACH as i64;

// A whole number of a size within the reach.
#[derive(Clone, Copy, PartialEq, Eq, PartialOrd, Ord)]
pub(crate) struct Number {
    value: i64,
    ghost within: { unsigned_abs value ≤ number_reach },
}

impl Number {
    // The number, or nothing where it is past the reach.
    #[inline(always)]
    pub(crate) fn new(value: i64) -> Option<Number>
        ensures { MatchOption result (number_reach < unsigned_abs value) (λ n. n.value ≡ value) }
    {
        if -LIMIT <= value && value <= LIMIT {
            Some(Number { value })
        } else {
            None
        }
    }

    // The sum as a plain number, also past the reach.
    #[inline(always)]
    pub(crate) fn plus(self, other: Number) -> i64
        ensures { result ≡ self.value +ℤ other.value }
    {
        self.value + other.value
    }

    // The sum, or nothing where it is past the reach.
    #[inline(always)]
    pub(crate) fn checked_add(self, other: Number) -> Option<Number>
        ensures { MatchOption result (number_reach < unsigned_abs (self.value +ℤ other.value)) (λ n. n.value ≡ self.value +ℤ other.value) }
    {
        Number::new(self.plus(other))
    }

    #[inline(always)]
    pub(crate) fn value(self) -> i64
        ensures { result ≡ self.value }
    {
        self.value
    }
}

// Each number of 32 bits is within the reach.
impl From<i32> for Number {
    ghost from_gives = { λ value n. n.value ≡ value };

    #[inline(always)]
    fn from(value: i32) -> Number {
        Number {
            value: value as i64,
        }
    }
}

// As the plain number, so that a kind shows the numbers that it has.
impl fmt::Debug for Number {
    fn fmt<W: fmt::Write>(&self, f: &mut fmt::Formatter<W>) -> fmt::Result {
        self.value.fmt(f)
    }
}

impl Neg for Number {
    type Output = Number;

    ghost neg_gives = { λ x n. n.value ≡ neg_ℤ x.value };

    #[inline(always)]
    fn neg(self) -> Number {
        Number { value: -self.value }
    }
}
