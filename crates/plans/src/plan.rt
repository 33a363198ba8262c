ghost use Rattle.plans.specs.Soundness.{Sound};

use crate::mark::Marks;
use books::Book;
use delays::Delay;
use relaxation::{ByLeft, Spreading};

pub mod calls;
pub mod solving;

/// A plan: a book, a number of points whose events its bounds are about, a plan number, and up to eight open marks.
#[derive(Drop)]
pub struct Plan<D: Delay, B: Book> {
    book: B,
    points: usize,
    number: u32,
    settled: bool,
    // where the plan is settled, the earliest times of the points, and the bounds of the book by left point
    times: [D; 128],
    index: ByLeft,
    // the oldest first
    marks: Marks<D>,
    // where times spread
    spreading: Spreading<D>,
    ghost sound: { Sound D.kind D.means (B.meaning book) points settled times index marks },
}
