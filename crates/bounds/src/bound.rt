ghost use Rattle.bounds.specs.Range.{Sound};

use crate::row::Row;

pub mod make;

/// A bound says that its left point comes at most a delay after its right point: left minus right is at most the delay
/// that the parts t and s stand for.
///
/// Every bound that can exist has its four numbers in range: the points are from 0 to 4,095, and the parts from -500,000,000
/// to 500,000,000. `Bound { row }` is allowed wherever the row is proved to be so, and costs no test there: a table that keeps
/// plain rows makes the bounds that it is read for in this way. Where the range is not known, `Bound::new` tests it.
#[derive(Clone, Copy, PartialEq, Eq, Debug)]
pub struct Bound {
    /// The four numbers of the bound.
    pub row: Row,
    pub ghost sound: { Sound row },
}
