// Whether a row of edges is a chain.
ghost use Rattle.std.specs.Prelude.{◌≡◌, map, All, Decides};
ghost use Rattle.delays.specs.Totals.{SmallAnswered};
ghost use Rattle.network.specs.Checks.{Cycle, ChainChecked};
ghost use Rattle.network.specs.Walks.{Apart};
ghost use Rattle.network.specs.Chains.{ChainTheory};
ghost use Rattle.network.specs.Rounds.{RoundsRepeat};

use crate::edge::Edge;
use crate::walk::{leads, sum};
use delays::quantity::Quantity;

// Whether no edge of the row leaves the point.
fn never_leaves<D: Quantity>(row: &[Edge<D>], point: usize) -> bool
    ensures { Decides result (All (λ e. ¬ (point ≡ e.left)) row.now) }
{
    row.iter().all(|edge| edge.left != point)
}

// Whether no left point comes twice. A loop: a chain would take the rest of the row by an index, and a recursion would take stack.
#[tactic(auto, using(crate::proofs::Checking::apart_steps))]
fn lefts_apart<D: Quantity>(row: &[Edge<D>]) -> bool
    ensures { Decides result (Apart (map (λ e. e.left) row.now)) }
{
    let mut rest = row;
    while let Some((edge, others)) = rest.split_first() {
        if !never_leaves(others, edge.left) {
            return false;
        }
        rest = others;
    }
    true
}

// Whether the row is closed, with no left point twice.
#[tactic(auto, using(crate::proofs::Checking::cycle_steps))]
fn is_cycle<D: Quantity>(row: &[Edge<D>]) -> bool
    ensures { Decides result (Cycle D.kind D.means row.now) }
{
    let [first, ..] = row else {
        return true;
    };
    leads(row, first.left, first.left) && lefts_apart(row)
}

// Whether the row is a chain: closed, with no left point twice and a sum below zero. Nothing is answered exactly when the row is closed
// with no left point twice and a sum on the way leaves the reach; for at most 256 edges, none with a delay of a size above the greatest,
// there is always an answer. Edges that hold a chain are met by no times.
pub fn is_chain<D: Quantity>(row: &[Edge<D>]) -> Option<bool>
    ensures answer { ChainChecked D.kind D.means row.now result }
    ensures small { SmallAnswered D.kind (λ e. D.means e.delay) row.now result }
    ensures chains { ChainTheory D.kind }
    ensures rounds { RoundsRepeat D.kind }
{
    if !is_cycle(row) {
        return Some(false);
    }
    let sum = sum(row)?;
    Some(!D::zero().at_most(sum))
}
