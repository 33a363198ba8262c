// The sum of a row of delays, and what holds of every kind.
ghost use Rattle.delays.specs.Theory.{Theory};
ghost use Rattle.delays.specs.Totals.{Summed, SmallAnswered};

use crate::has_delay::HasDelay;
use crate::quantity::Quantity;

// The sum of the delays that a row has, or nothing where a sum on the way leaves the reach. That of at most 256, none of a size
// above the greatest, is always had. The theory is what every kind gives by its laws. A loop: with `try_fold`, `sums` and `small` stayed unproved.
#[tactic(auto, using(crate::proofs::TheoryLaws::theory, crate::proofs::TotalLaws::sum_begins, crate::proofs::TotalLaws::sum_ends))]
pub fn total<D: Quantity, T: HasDelay<D>>(xs: &[T]) -> Option<D>
    ensures sums { Summed D.kind D.means (λ x. D.means (T.delay_of x)) xs.now result }
    ensures small { SmallAnswered D.kind (λ x. D.means (T.delay_of x)) xs.now result }
    ensures theory { Theory D.kind }
{
    let mut sum = D::zero();
    for x in xs {
        sum = sum.add(x.delay())?;
    }
    Some(sum)
}
