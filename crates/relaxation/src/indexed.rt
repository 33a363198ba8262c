// A book whose bounds fit a number of points, and its bounds by their left points.
ghost use Rattle.std.specs.Prelude.{◌≡◌, ◌<◌, ◌≤◌, length, map, slice_index_or, All};
ghost use Rattle.bounds.specs.declared.row.Row.{Row};
ghost use Rattle.books.specs.Meaning.{bounds_of};
ghost use Rattle.relaxation.specs.ByLeft.{Lists};
ghost use Rattle.relaxation.specs.Rows.{Fit};

use crate::by_left::ByLeft;
use books::Book;
use bounds::Row;
use delays::Delay;
use std::marker::PhantomData;

/// A book whose bounds all fit so many points, from 1 to 128: both points of each are below that number, and the kind has its delay.
/// Whoever makes such a value has shown it.
#[derive(Drop)]
pub struct Fitting<'a, D: Delay, B: Book> {
    /// the book
    pub book: &'a B,
    /// how many points there are
    pub points: usize,
    /// the kind of delay
    pub kind: PhantomData<D>,
    ghost some: { 0 < points },
    ghost few: { points ≤ 128 },
    ghost fit: { All (Fit D.kind points) (bounds_of (B.meaning book.now)) },
}

// The delay of a row, where the kind has it.
#[inline(always)]
pub(crate) fn delay_of<D: Delay>(row: Row) -> D
    ensures { D.means result ≡ D.kind.value row.t row.s }
{
    D::of_parts(row.t, row.s)
}

impl<'a, D: Delay, B: Book> Fitting<'a, D, B> {
    // The row of the bound with the number.
    #[inline(always)]
    pub(crate) fn row(&self, number: usize) -> Row
        requires { number < length (bounds_of (B.meaning self.now.book.now)) }
        ensures { (r : Row) → result ≡ slice_index_or (bounds_of (B.meaning self.now.book.now)) number r }
    {
        self.book.read(number).unwrap().row()
    }
}

/// Such a book, and the index that lists its bounds by their left points.
#[derive(Drop)]
pub struct Indexed<'a, D: Delay, B: Book> {
    /// the book
    pub bounds: Fitting<'a, D, B>,
    /// the index of its bounds
    pub index: &'a ByLeft,
    ghost listed: { Lists index.now (map (λ r. r.left) (bounds_of (B.meaning bounds.book.now))) },
}
