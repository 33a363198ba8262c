// Delays in milliseconds, and in steps inside one millisecond.
ghost use Rattle.std.specs.Prelude.{refl};
ghost use Rattle.delays.specs.Sizes.{small_part, number_reach};
ghost use Rattle.delays.specs.SizesLaws.{small_room, max_within};
ghost use Rattle.delays.specs.Ranked.{rank, ranked_kind};
ghost use Rattle.delays.specs.RankedLaws.{ranked_lawful, ranked_ordered, ranked_equal};

use crate::delay::Delay;
use crate::number::{Number, REACH, SMALL_PART};

/// A whole number of milliseconds, and a step inside one. The order is by t, and by s where t is the same.
#[derive(Clone, Copy, PartialEq, Eq, PartialOrd, Ord, Debug)]
pub struct Ranked {
    t: Number,
    s: Number,
}

impl Delay for Ranked {
    const GREATEST: u64 = SMALL_PART;

    const REACH: u64 = REACH;

    ghost GREATEST = { small_part };

    ghost REACH = { number_reach };

    ghost kind = { ranked_kind };

    ghost means = { λ x. rank x.t.value x.s.value };

    ghost greatest = { refl };

    ghost reach = { refl };

    ghost ordered = { λ x y. ranked_ordered x.t.value x.s.value y.t.value y.s.value };

    ghost equal = { λ x y. ranked_equal x.t.value x.s.value y.t.value y.s.value };

    ghost lawful = { ranked_lawful };

    ghost room = { small_room };

    ghost within = { λ x. max_within x.t.within x.s.within };

    #[inline(always)]
    fn zero() -> Ranked {
        Ranked {
            t: Number::from(0),
            s: Number::from(0),
        }
    }

    #[inline(always)]
    fn opposite(self) -> Ranked {
        Ranked {
            t: -self.t,
            s: -self.s,
        }
    }

    #[inline(always)]
    fn add(self, other: Ranked) -> Option<Ranked> {
        Some(Ranked {
            t: self.t.checked_add(other.t)?,
            s: self.s.checked_add(other.s)?,
        })
    }

    #[inline(always)]
    fn sum_exceeds(self, other: Ranked, third: Ranked) -> bool {
        let t = self.t.plus(other.t);
        t > third.t.value() || (t == third.t.value() && self.s.plus(other.s) > third.s.value())
    }

    #[inline(always)]
    fn of_parts(t: i32, s: i32) -> Ranked {
        Ranked {
            t: Number::from(t),
            s: Number::from(s),
        }
    }

    #[inline(always)]
    fn parts(self) -> (i64, i64) {
        (self.t.value(), self.s.value())
    }

    #[inline(always)]
    fn read(t: i64, s: i64) -> Option<Ranked> {
        Some(Ranked {
            t: Number::new(t)?,
            s: Number::new(s)?,
        })
    }
}
