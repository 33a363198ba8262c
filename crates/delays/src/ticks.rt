// Delays in milliseconds.
ghost use Rattle.std.specs.Prelude.{refl};
ghost use Rattle.delays.specs.Sizes.{small_part, number_reach};
ghost use Rattle.delays.specs.SizesLaws.{small_room};
ghost use Rattle.delays.specs.OneNumberLaws.{number_ordered, number_equal};
ghost use Rattle.delays.specs.Ticks.{tick, ticks_kind};
ghost use Rattle.delays.specs.TicksLaws.{ticks_lawful};

use crate::delay::Delay;
use crate::number::{Number, REACH, SMALL_PART};

/// A whole number of milliseconds.
#[derive(Clone, Copy, PartialEq, Eq, PartialOrd, Ord, Debug)]
pub struct Ticks {
    t: Number,
}

impl Delay for Ticks {
    const GREATEST: u64 = SMALL_PART;

    const REACH: u64 = REACH;

    ghost GREATEST = { small_part };

    ghost REACH = { number_reach };

    ghost kind = { ticks_kind };

    ghost means = { λ x. tick x.t.value };

    ghost greatest = { refl };

    ghost reach = { refl };

    ghost ordered = { λ x y. number_ordered x.t.value y.t.value };

    ghost equal = { λ x y. number_equal x.t.value y.t.value };

    ghost lawful = { ticks_lawful };

    ghost room = { small_room };

    ghost within = { λ x. x.t.within };

    #[inline(always)]
    fn zero() -> Ticks {
        Ticks { t: Number::from(0) }
    }

    #[inline(always)]
    fn opposite(self) -> Ticks {
        Ticks { t: -self.t }
    }

    #[inline(always)]
    fn add(self, other: Ticks) -> Option<Ticks> {
        Some(Ticks {
            t: self.t.checked_add(other.t)?,
        })
    }

    #[inline(always)]
    fn sum_exceeds(self, other: Ticks, third: Ticks) -> bool {
        self.t.plus(other.t) > third.t.value()
    }

    #[inline(always)]
    fn of_parts(t: i32, _s: i32) -> Ticks {
        Ticks { t: Number::from(t) }
    }

    #[inline(always)]
    fn parts(self) -> (i64, i64) {
        (self.t.value(), 0)
    }

    #[inline(always)]
    fn read(t: i64, s: i64) -> Option<Ticks> {
        if s == 0 {
            Some(Ticks { t: Number::new(t)? })
        } else {
            None
        }
    }
}
