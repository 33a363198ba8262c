// Small checks of a plan's bounds and times.
ghost use Rattle.std.specs.Prelude.{◌≡◌, ◌≤◌};
ghost use Rattle.books.specs.Meaning.{bounds_of};
ghost use Rattle.network.specs.Edges.{time_of_point};
ghost use Rattle.plans.specs.Rows.{moved_count};
ghost use Rattle.plans.specs.Misfits.{PairChecked, RowChecked, RowsChecked};

use crate::fault::PlanFault;
use books::Book;
use bounds::Row;
use delays::{Delay, KindFault, read_pair};

// The delay with the row's parts, or that the kind has none.
#[inline(always)]
pub(crate) fn check_pair<D: Delay>(row: Row) -> Result<D, KindFault>
    ensures { PairChecked D.kind D.means row result }
{
    read_pair::<D>(i64::from(row.t), i64::from(row.s))
}

// Whether the row with the number fits: first its points, then its parts.
fn check_row<D: Delay>(row: Row, points: usize, place: usize) -> Result<(), PlanFault>
    ensures { RowChecked D.kind points place row result }
{
    if points <= usize::from(row.left) || points <= usize::from(row.right) {
        return Err(PlanFault::Point { place });
    }
    match check_pair::<D>(row) {
        Ok(_) => Ok(()),
        Err(fault) => Err(PlanFault::Kind { fault, place }),
    }
}

// Whether every bound of the book fits so many points, or why the first that does not fit does not.
pub(crate) fn first_misfit<D: Delay, B: Book>(book: &B, points: usize) -> Result<(), PlanFault>
    ensures { RowsChecked D.kind points (bounds_of (B.meaning book.now)) result }
{
    let mut place = 0;
    while let Some(bound) = book.read(place) {
        check_row::<D>(bound.row(), points, place)?;
        place += 1;
    }
    Ok(())
}

// How many of the points have one time before and another after.
pub(crate) fn moved<D: Delay>(before: &[D; 128], after: &[D; 128], points: usize) -> usize
    requires { points ≤ 128 }
    ensures { result ≡ moved_count D.kind points (time_of_point D.kind D.means before.now) (time_of_point D.kind D.means after.now) }
{
    let mut count = 0;
    for point in 0..points {
        if before[point] != after[point] {
            count += 1;
        }
    }
    count
}

// How many of the points have a time that is not zero.
pub(crate) fn moved_from_zero<D: Delay>(times: &[D; 128], points: usize) -> usize
    requires { points ≤ 128 }
    ensures { result ≡ moved_count D.kind points (λ p. D.kind.zero) (time_of_point D.kind D.means times.now) }
{
    let zero = D::zero();
    let mut count = 0;
    for point in 0..points {
        if zero != times[point] {
            count += 1;
        }
    }
    count
}
