// The table: a book that keeps its own rows.
ghost use Rattle.std.specs.Prelude.{◌≡◌, ◌≤◌, [], length};
ghost use Rattle.std.specs.List.{All};
ghost use Rattle.bounds.specs.Range.{Sound};
ghost use Rattle.books.specs.Listed.{listed};
ghost use Rattle.books.specs.Layers.{table_of};
ghost use Rattle.books.specs.Laws.{table_proper};

use crate::book::Book;
use crate::fault::BookFault;
use crate::rows::Rows;
use bounds::Bound;

const PLACES: usize = 1_024;

/// The table book: it starts empty, with 1,024 places.
#[derive(Drop)]
pub struct Table {
    rows: Rows<PLACES>,
    ghost few: { length (listed rows) ≤ 1024 },
    ghost sound: { All Sound (listed rows) },
}

impl Table {
    /// A table with no bound.
    pub fn new() -> Table
        ensures { ⟦<Table as Book>⟧.meaning result ≡ table_of [] }
    {
        Table { rows: Rows::new() }
    }
}

// By hand, since a struct with a ghost field derives no `Default`.
impl Default for Table {
    ghost is_default = { λ t. table_of (listed t.rows) ≡ table_of [] };

    fn default() -> Table {
        Table::new()
    }
}

// Its `add` and `cut` are alike with those of a trial. In the inner table, as one for both, they would promise of the rows alone, and each
// book's promise that a refusal changes nothing would need a proof by hand.
impl Book for Table {
    ghost meaning = { λ t. table_of (listed t.rows) };

    ghost adds = { λ _ _ _. Unit {0} };

    ghost cuts = { λ _ _ _. Unit {0} };

    #[inline(always)]
    fn fixed_count(&self) -> usize {
        0
    }

    #[inline(always)]
    fn added_count(&self) -> usize {
        self.rows.len()
    }

    fn free_count(&self) -> usize {
        PLACES - self.rows.len()
    }

    #[inline(always)]
    fn read(&self, i: usize) -> Option<Bound> {
        self.rows.read(i)
    }

    fn add(&mut self, bound: Bound) -> Result<(), BookFault> {
        if self.rows.len() == PLACES {
            return Err(BookFault::Full);
        }
        self.rows.push(bound);
        Ok(())
    }

    fn cut(&mut self, k: usize) -> bool {
        if k > self.rows.len() {
            return false;
        }
        self.rows.cut(k);
        true
    }

    ghost proper = { λ t. table_proper (listed t.rows) t.few t.sound };
}
