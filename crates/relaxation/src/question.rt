// A bound that is posted to a book whose earliest times are known.
ghost use Rattle.std.specs.Prelude.{◌≡◌, Decides};
ghost use Rattle.books.specs.Meaning.{bounds_of};
ghost use Rattle.bounds.specs.Range.{Sound};
ghost use Rattle.network.specs.Edges.{time_of_point};
ghost use Rattle.relaxation.specs.Rows.{Fit, Least, Covered};

use crate::indexed::{Indexed, delay_of};
use books::Book;
use bounds::Row;
use delays::Delay;

/// A bound that is posted to a book whose earliest times are known. Whoever makes such a value has shown that they are, and that the bound
/// fits the points.
#[derive(Drop)]
pub struct Question<'a, D: Delay, B: Book> {
    /// the book, with its index
    pub net: Indexed<'a, D, B>,
    /// the earliest times of its points
    pub times: &'a [D; 128],
    /// the posted bound
    pub row: Row,
    /// its delay
    pub delay: D,
    ghost earliest: { Least D.kind net.bounds.points (bounds_of (B.meaning net.bounds.book.now)) (time_of_point D.kind D.means times.now) },
    ghost fits: { Fit D.kind net.bounds.points row },
    ghost sound: { Sound row },
    ghost means: { D.means delay ≡ D.kind.value row.t row.s },
}

impl<'a, D: Delay, B: Book> Question<'a, D, B> {
    /// Whether a bound of the book covers the posted one: it has the same two points and a delay that is not greater. Only the bounds that
    /// leave the same point are looked at, the newest first.
    pub fn is_covered(&self) -> bool
        ensures { Decides result (Covered D.kind (bounds_of (B.meaning self.now.net.bounds.book.now)) self.now.row) }
    {
        let mut at = self.net.index.newest(usize::from(self.row.left));
        while let Some(number) = at {
            let row = self.net.bounds.row(number);
            if row.right == self.row.right && delay_of::<D>(row) <= self.delay {
                return true;
            }
            at = self.net.index.older(number);
        }
        false
    }
}
