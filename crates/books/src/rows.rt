// The inner table of the books that keep rows of their own.
ghost use Rattle.std.specs.Prelude.{◌≡◌, ◌<◌, [], ◌∷◌, ◌++◌, length, take};
ghost use Rattle.std.specs.Option.{option_map};
ghost use Rattle.std.specs.List.{All, slice_get};
ghost use Rattle.bounds.specs.Making.{row_of};
ghost use Rattle.bounds.specs.Range.{Sound};

use bounds::{Bound, Row};
use std::marker::Model;

// The places of N rows. They are a struct of their own: over an array of rows, a function that names no row, as one that counts or cuts them, gets
// no proof today.
#[derive(Drop)]
struct Cells<const N: usize> {
    rows: [Row; N],
}

/// Up to N plain rows: the inner table of the books that keep bounds of their own. A contract sees the rows in use alone, so that a cut
/// has only to count fewer. That they are those of bounds is a ghost field of what holds the table.
#[derive(Drop)]
pub struct Rows<const N: usize> {
    cells: Cells<N>,
    len: usize,
}

impl<const N: usize> Model for Rows<N> {
    ghost use Rattle.std.specs.Prelude.{◌≡◌, ◌≤◌, length, take};
    ghost use Rattle.books.specs.Listed.{Listing};

    ghost Value = { Listing };

    ghost view = { λ r. record { rows = take r.len r.cells.rows } };

    ghost invariant = { λ r. (r.len ≤ N) × (length r.cells.rows ≡ N) };
}

impl<const N: usize> Rows<N> {
    ghost use Rattle.books.specs.Listed.{listed};

    pub(crate) fn new() -> Rows<N>
        ensures { listed result ≡ [] }
    {
        Rows {
            cells: Cells {
                rows: [Row::default(); N],
            },
            len: 0,
        }
    }

    #[inline(always)]
    pub(crate) fn len(&self) -> usize
        ensures { result ≡ length (listed self.now) }
    {
        self.len
    }

    // The bound of the row with the number `i`, or nothing exactly when there is none.
    #[inline(always)]
    pub(crate) fn read(&self, i: usize) -> Option<Bound>
        requires { All Sound (listed self.now) }
        ensures { option_map row_of result ≡ slice_get (listed self.now) i }
    {
        match self.cells.rows[..self.len].get(i) {
            Some(row) => Some(Bound { row: *row }),
            None => None,
        }
    }

    pub(crate) fn push(&mut self, bound: Bound)
        requires { length (listed self.old) < N }
        ensures { listed self.new ≡ listed self.old ++ row_of bound ∷ [] }
    {
        let len = self.len;
        self.cells.rows[len] = bound.row();
        self.len = len + 1;
    }

    // Keeps the first `k` rows.
    pub(crate) fn cut(&mut self, k: usize)
        ensures { listed self.new ≡ take k (listed self.old) }
    {
        self.len = self.len.min(k);
    }
}
