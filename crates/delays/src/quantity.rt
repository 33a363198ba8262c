// What sums of a row and checks of a network ask of a value.
ghost use Rattle.std.specs.Prelude.{◌≡◌, ◌*◌, ◌<◌, ◌≤◌, MatchOption};
ghost use Rattle.delays.specs.Kind.{Kind, Exact, Within, Lawful, Parts, Unread};

use crate::delay::Delay;

/// A value that means one exact delay of a kind, of a size within its reach. It may hold more than the delay, as a note, and it need have no order: `at_most`
/// compares the delays alone. A value of a `Delay` is a quantity.
pub trait Quantity: Copy {
    /// The kind of the delays.
    ghost kind: { Kind };

    /// The exact delay that a value means.
    ghost means: { Self → Exact kind };

    /// A value of the delay zero.
    fn zero() -> Self
        ensures { means result ≡ kind.zero };

    /// A value of the opposite delay.
    fn opposite(self) -> Self
        ensures { means result ≡ kind.opposite (means self) };

    /// The sum, or nothing exactly when its size exceeds the reach.
    fn add(self, other: Self) -> Option<Self>
        ensures { MatchOption result (kind.reach < kind.size (kind.sum (means self) (means other))) (λ v. means v ≡ kind.sum (means self) (means other)) };

    /// Whether the delay is at most that of the other.
    fn at_most(self, other: Self) -> bool
        ensures { result ≡ kind.leq (means self) (means other) };

    /// The parts t and s.
    fn parts(self) -> (i64, i64)
        ensures { Parts kind (means self) result.0 result.1 };

    /// A value with the parts t and s, or nothing exactly when no delay within the reach has them.
    fn read(t: i64, s: i64) -> Option<Self>
        ensures { MatchOption result (Unread kind t s) (λ v. Parts kind (means v) t s) };

    /// The kind keeps the laws of every kind.
    ghost lawful: { Lawful kind };

    /// The sum of 256 delays of a size of at most the greatest is within the reach.
    ghost room: { 256 * kind.greatest ≤ kind.reach };

    /// No value means a delay past the reach.
    ghost within: { (x : Self) → Within kind (means x) };
}

impl<D: Delay> Quantity for D {
    ghost kind = { D.kind };

    ghost means = { D.means };

    ghost lawful = { D.lawful };

    ghost room = { D.room };

    ghost within = { D.within };

    #[inline(always)]
    fn zero() -> D {
        Delay::zero()
    }

    #[inline(always)]
    fn opposite(self) -> D {
        Delay::opposite(self)
    }

    #[inline(always)]
    fn add(self, other: D) -> Option<D> {
        Delay::add(self, other)
    }

    #[inline(always)]
    fn at_most(self, other: D) -> bool {
        self <= other
    }

    #[inline(always)]
    fn parts(self) -> (i64, i64) {
        Delay::parts(self)
    }

    #[inline(always)]
    fn read(t: i64, s: i64) -> Option<D> {
        Delay::read(t, s)
    }
}
