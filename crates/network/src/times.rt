// Whether times meet bounds.
ghost use Rattle.std.specs.Prelude.{◌≡◌, Some};
ghost use Rattle.network.specs.Reasons.{mismatch_reason};
ghost use Rattle.network.specs.Edges.{time_of_point};
ghost use Rattle.network.specs.Checks.{EdgeChecked, TimesChecked};
ghost use Rattle.network.specs.Walks.{WalkTheory};
ghost use Rattle.network.specs.Consistency.{Consistency};

use crate::edge::{Edge, equal};
use delays::quantity::Quantity;
use std::error::Error;
use std::fmt;

// Why times are no assignment that meets the edges. It is the answer of a check, so it has no fault number.
#[derive(Clone, Copy, PartialEq, Eq, Debug)]
pub enum Mismatch {
    // the time of point 0 is not zero
    Start,
    // the number of the first edge that can't be checked, since its limit is past the reach; those before it are met
    Reach { number: usize },
    // the number of the first edge that is not met; those before it are met
    Unmet { number: usize },
}

// What is wrong, in words.
impl fmt::Display for Mismatch {
    ghost output = { λ e. Some (mismatch_reason e) };

    fn fmt<W: fmt::Write>(&self, f: &mut fmt::Formatter<W>) -> fmt::Result {
        match self {
            Mismatch::Start => write!(f, "the time of point 0 is not zero"),
            Mismatch::Reach { number } => write!(f, "the limit of edge {number} is past the reach"),
            Mismatch::Unmet { number } => write!(f, "edge {number} is not met"),
        }
    }
}

impl Error for Mismatch {}

// The time of a point; points past the list are at zero. `unwrap_or_else(D::zero)` gets no proof: its result is a type parameter.
fn time_at<D: Quantity>(times: &[D], point: usize) -> D
    ensures { D.means result ≡ time_of_point D.kind D.means times.now point }
{
    times.get(point).copied().unwrap_or(D::zero())
}

// Whether the times meet the edge, or nothing exactly when the limit that it sets, the right point's time plus the delay, is past the
// reach. Points past the list are at zero.
pub fn meets<D: Quantity>(edge: Edge<D>, times: &[D]) -> Option<bool>
    ensures { EdgeChecked D.kind D.means times.now edge result }
{
    let left = time_at(times, edge.left);
    let right = time_at(times, edge.right);
    let limit = right.add(edge.delay)?;
    Some(left.at_most(limit))
}

// The check of times, edge by edge. Apart from `check_times`, since there each return would owe the theorems too.
fn checked<D: Quantity>(edges: &[Edge<D>], times: &[D]) -> Result<(), Mismatch>
    ensures { TimesChecked D.kind D.means edges.now times.now result }
{
    if !equal(time_at(times, 0), D::zero()) {
        return Err(Mismatch::Start);
    }
    for (number, edge) in edges.iter().enumerate() {
        match meets(*edge, times) {
            Some(true) => {}
            Some(false) => return Err(Mismatch::Unmet { number }),
            None => return Err(Mismatch::Reach { number }),
        }
    }
    Ok(())
}

// Whether the times are an assignment that meets every edge, each with its limit within the reach; or the first thing that is wrong:
// point 0 is not at zero, or the number of the first edge that is not met or has its limit past the reach. Points past the list are at
// zero. Edges that times meet hold no chain, and edges that hold none are met by some times.
pub fn check_times<D: Quantity>(edges: &[Edge<D>], times: &[D]) -> Result<(), Mismatch>
    ensures answer { TimesChecked D.kind D.means edges.now times.now result }
    ensures walks { WalkTheory D.kind }
    ensures consistency { Consistency D.kind }
{
    checked(edges, times)
}
