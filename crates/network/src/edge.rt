// Bounds as values.
ghost use Rattle.std.specs.Prelude.{◌≡◌, Decides};
ghost use Rattle.network.specs.Bounds.{floor_of};
ghost use Rattle.network.specs.Edges.{bound_of, InForceRead};

use delays::HasDelay;
use delays::quantity::Quantity;

// A bound between two points: left minus right is at most the delay.
#[derive(Clone, Copy, PartialEq, Eq, Debug)]
pub struct Edge<D> {
    pub left: usize,
    pub right: usize,
    pub delay: D,
}

impl<D: Quantity> HasDelay<D> for Edge<D> {
    ghost delay_of = { λ e. e.delay };

    fn delay(&self) -> D {
        self.delay
    }
}

// The floor of a point: point 0 comes no later than it.
pub fn floor<D: Quantity>(point: usize) -> Edge<D>
    ensures { bound_of D.kind D.means result ≡ floor_of D.kind point }
{
    Edge {
        left: 0,
        right: point,
        delay: D::zero(),
    }
}

// The edge in force with the number, where the book has these edges and there are so many points: an edge of the book, or after those
// the floor of a point. Nothing exactly when none has the number. A match: with `or_else`, what it returns stayed unproved.
#[tactic(auto, using(crate::proofs::InForce::force_steps))]
pub fn in_force<D: Quantity>(book: &[Edge<D>], points: usize, number: usize) -> Option<Edge<D>>
    ensures { InForceRead D.kind D.means book.now points number result }
{
    match book.get(number) {
        Some(edge) => Some(*edge),
        None => {
            let point = number - book.len();
            (point < points).then(|| floor(point))
        }
    }
}

// Whether two values mean one delay: each is at most the other.
pub(crate) fn equal<D: Quantity>(a: D, b: D) -> bool
    ensures { Decides result (D.means a ≡ D.means b) }
{
    a.at_most(b) && b.at_most(a)
}
