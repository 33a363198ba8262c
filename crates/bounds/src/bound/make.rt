// How bounds are made, and what they say.
ghost use Rattle.std.specs.Prelude.{◌≡◌, pos, MatchOption};
ghost use Rattle.bounds.specs.Range.{Point, Part, Sound};
ghost use Rattle.bounds.specs.Making.{Made, row_of};

use crate::bound::Bound;
use crate::fault::BoundFault;
use crate::row::Row;

const GREATEST_POINT: i64 = 4_095;

const GREATEST_PART: i64 = 500_000_000;

// `point` and `part` stay two: one function of a range answers an i64, and then each cast of `new` needs a proof of its own by hand.
fn point(x: i64) -> Option<u16>
    ensures { MatchOption result (¬ Point x) (λ p. (pos p ≡ x) × Point x) }
{
    if 0 <= x && x <= GREATEST_POINT {
        Some(x as u16)
    } else {
        None
    }
}

fn part(x: i64) -> Option<i32>
    ensures { MatchOption result (¬ Part x) (λ p. (p ≡ x) × Part x) }
{
    if -GREATEST_PART <= x && x <= GREATEST_PART {
        Some(x as i32)
    } else {
        None
    }
}

impl Bound {
    /// The bound of four numbers: the left and the right point, and the parts t and s. Or the first of them that is out of range,
    /// which is fault 7 at its place, from 1.
    pub fn new(left: i64, right: i64, t: i64, s: i64) -> Result<Bound, BoundFault>
        ensures { Made left right t s result }
    {
        let left = point(left).ok_or(BoundFault::LeftPoint)?;
        let right = point(right).ok_or(BoundFault::RightPoint)?;
        let t = part(t).ok_or(BoundFault::PartT)?;
        let s = part(s).ok_or(BoundFault::PartS)?;
        Ok(Bound {
            row: Row { left, right, t, s },
        })
    }

    /// The four numbers of the bound, all in range: the bound's one field, with the promise of its range.
    #[inline(always)]
    pub fn row(self) -> Row
        ensures value { result ≡ row_of self }
        ensures range { Sound result }
    {
        self.row
    }
}

/// The bound of a row of which nothing is known; or the first of its numbers that is out of range, as `Bound::new` refuses it.
impl TryFrom<Row> for Bound {
    type Error = BoundFault;

    ghost try_from_gives = { λ row made. Made (pos row.left) (pos row.right) row.t row.s made };

    fn try_from(row: Row) -> Result<Bound, BoundFault> {
        Bound::new(
            i64::from(row.left),
            i64::from(row.right),
            i64::from(row.t),
            i64::from(row.s),
        )
    }
}
