ghost use Rattle.std.specs.Prelude.{◌≡◌, ℕ, ◌*◌, ◌<◌, ◌≤◌, false, MatchOption, Decides};
ghost use Rattle.std.specs.Ordering.{partial_le};
ghost use Rattle.delays.specs.Faults.{PairRead};
ghost use Rattle.delays.specs.Kind.{Kind, Exact, Within, Lawful, Parts, Unread};

use crate::fault::KindFault;
use crate::quantity::Quantity;

// A kind of delay. A value means one exact delay of the kind, of a size within its reach. What is computed with values is
// exact, and answers nothing where it would leave the reach.
pub trait Delay: Copy + Ord {
    // The greatest size of a delay whose parts are from -500,000,000 to 500,000,000.
    const GREATEST: u64;

    // The greatest size of a delay that a value can mean.
    const REACH: u64;

    ghost GREATEST: { ℕ };

    ghost REACH: { ℕ };

    // Which rows of whole numbers the kind has, and their sum, order, size and parts.
    ghost kind: { Kind };

    // The exact delay that a value means.
    ghost means: { Self → Exact kind };

    // The delay that adds nothing. It and the next two are methods, and not `Default`, `Neg` and `Add`: those would need a law each
    // to say what these clauses say, and `Add` can't answer nothing.
    fn zero() -> Self
        ensures { means result ≡ kind.zero };

    // The delay that this one adds up with to zero.
    fn opposite(self) -> Self
        ensures { means result ≡ kind.opposite (means self) };

    // The sum, or nothing exactly when its size exceeds the reach.
    fn add(self, other: Self) -> Option<Self>
        ensures { MatchOption result (kind.reach < kind.size (kind.sum (means self) (means other))) (λ v. means v ≡ kind.sum (means self) (means other)) };

    // Whether the sum is more than a third delay. It has an answer also where the sum is past the reach.
    fn sum_exceeds(self, other: Self, third: Self) -> bool
        ensures { Decides result (kind.leq (kind.sum (means self) (means other)) (means third) ≡ false) };

    // What the kind computes of the parts t and s: the delay that has them, where there is one.
    fn of_parts(t: i32, s: i32) -> Self
        ensures { means result ≡ kind.value t s };

    // The parts t and s: two numbers, since a struct would only wrap what callers have as two.
    fn parts(self) -> (i64, i64)
        ensures { Parts kind (means self) result.0 result.1 };

    // The delay with the parts t and s, or nothing exactly when no delay within the reach has them.
    fn read(t: i64, s: i64) -> Option<Self>
        ensures { MatchOption result (Unread kind t s) (λ v. Parts kind (means v) t s) };

    // The constants are the kind's two numbers.
    ghost greatest: { GREATEST ≡ kind.greatest };

    ghost reach: { REACH ≡ kind.reach };

    // `<=` is the order of the delays that values mean, and `==` tells whether they are one.
    ghost ordered: { (x y : Self) → partial_le Self.partial_cmp x y ≡ kind.leq (means x) (means y) };

    ghost equal: { (x y : Self) → Decides (Self.eq x y) (means x ≡ means y) };

    // The kind keeps the laws of every kind.
    ghost lawful: { Lawful kind };

    // The sum of 256 delays of a size of at most the greatest is within the reach.
    ghost room: { 256 * kind.greatest ≤ kind.reach };

    // No value means a delay past the reach.
    ghost within: { (x : Self) → Within kind (means x) };
}

// The delay with the parts t and s; or fault 6, which names no place, where no delay within the reach has them.
pub fn read_pair<D: Quantity>(t: i64, s: i64) -> Result<D, KindFault>
    ensures { PairRead D.kind D.means t s result }
{
    D::read(t, s).ok_or(KindFault::Unread)
}
