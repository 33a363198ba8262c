// Rows of edges: their sums, and where they lead.
ghost use Rattle.std.specs.Prelude.{Decides};
ghost use Rattle.delays.specs.Totals.{SmallAnswered};
ghost use Rattle.network.specs.Edges.{bounds_of};
ghost use Rattle.network.specs.Checks.{RowSummed, ComesChecked};
ghost use Rattle.network.specs.Walks.{Walk};
ghost use Rattle.network.specs.Earliest.{EarliestTheory};

use crate::edge::{Edge, equal};
use delays::quantity::Quantity;
use delays::total;

// The sum of the delays of a row, or nothing exactly when a sum on the way leaves the reach. That of at most 256 edges, none with a delay
// of a size above the greatest, is always had.
#[tactic(auto, using(crate::proofs::Checking::row_summed))]
pub fn sum<D: Quantity>(row: &[Edge<D>]) -> Option<D>
    ensures sums { RowSummed D.kind D.means row.now result }
    ensures small { SmallAnswered D.kind (λ e. D.means e.delay) row.now result }
{
    total(row)
}

// Whether the row leads from one point to another. A loop: as a `try_fold`, what it returns stayed unproved.
#[tactic(auto, using(crate::proofs::Checking::walk_steps))]
pub(crate) fn leads<D: Quantity>(row: &[Edge<D>], from: usize, to: usize) -> bool
    ensures { Decides result (Walk from (bounds_of D.kind D.means row.now) to) }
{
    let mut at = from;
    for edge in row {
        if edge.left != at {
            return false;
        }
        at = edge.right;
    }
    at == to
}

// Whether the row leads from point 0 to the point, and the time is the opposite of its sum. Nothing is answered exactly when the row leads
// there and a sum on the way leaves the reach. Where times meet a list of edges that has those of the row, such a time is the earliest.
pub fn comes_over<D: Quantity>(row: &[Edge<D>], point: usize, time: D) -> Option<bool>
    ensures answer { ComesChecked D.kind D.means row.now point time result }
    ensures earliest { EarliestTheory D.kind }
{
    if !leads(row, 0, point) {
        return Some(false);
    }
    let sum = sum(row)?;
    Some(equal(time, sum.opposite()))
}
