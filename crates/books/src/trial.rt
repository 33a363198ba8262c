// The trial: a book laid over another.
ghost use Rattle.std.specs.Prelude.{◌≡◌, ◌≤◌, [], length};
ghost use Rattle.std.specs.List.{All};
ghost use Rattle.bounds.specs.Range.{Sound};
ghost use Rattle.books.specs.Listed.{listed};
ghost use Rattle.books.specs.Layers.{BelowSame, fitting, trial_over, trial_places};
ghost use Rattle.books.specs.Laws.{fitting_proper};
ghost use Rattle.books.specs.Calls.{Keeps};

use crate::book::{Book, MOST};
use crate::fault::BookFault;
use crate::rows::Rows;
use bounds::Bound;
use std::marker::Model;

const PLACES: usize = 64;

// The bounds of a trial's own, as plain rows.
#[derive(Drop)]
struct Own {
    rows: Rows<PLACES>,
    ghost sound: { All Sound (listed rows) },
}

/// A trial: up to 64 bounds laid over any book, which stays as it is. The trial is itself a book, so trials may lie on trials.
#[derive(Drop)]
pub struct Trial<B: Book> {
    below: B,
    own: Own,
}

// That its own bounds have places is no ghost field: with one, a generic struct could not hold trials on trials.
impl<B: Book> Model for Trial<B> {
    ghost use Rattle.std.specs.Prelude.{◌≤◌, length};
    ghost use Rattle.books.specs.Laid.{Laid};
    ghost use Rattle.books.specs.Listed.{listed};
    ghost use Rattle.books.specs.Layers.{trial_places};

    ghost Value = { Laid B };

    ghost view = { λ t. record { below = t.below; own = t.own } };

    ghost invariant = { λ t. length (listed t.own.rows) ≤ trial_places (B.meaning t.below) };
}

impl<B: Book> Trial<B> {
    /// A trial over a book, with nothing added yet. Whatever calls it then goes through, the book below stays the same. It never refuses.
    pub fn lay(below: B) -> Trial<B>
        ensures below { result.below ≡ below }
        ensures empty { ⟦<Trial<B> as Book>⟧.meaning result ≡ trial_over (B.meaning below) [] }
        ensures kept { Keeps ⟦<Trial<B> as Book>⟧.meaning ⟦<Trial<B> as Book>⟧.adds ⟦<Trial<B> as Book>⟧.cuts (λ t. t.below) }
    {
        Trial {
            below,
            own: Own { rows: Rows::new() },
        }
    }

    /// How many bounds the trial has of its own. They are those that it adds to the book below, and whatever calls it went through, it has no more of them than
    /// places.
    pub fn own_count(&self) -> usize
        ensures count { result ≡ length (listed self.now.own.rows) }
        ensures fits { length (listed self.now.own.rows) ≤ trial_places (B.meaning self.now.below) }
        ensures means { ⟦<Trial<B> as Book>⟧.meaning self.now ≡ trial_over (B.meaning self.now.below) (listed self.now.own.rows) }
    {
        let rows = &self.own.rows;
        rows.len()
    }

    /// The book below, unchanged; the trial's own bounds are let go.
    pub fn lift(self) -> B
        ensures { result ≡ self.below }
    {
        let Trial { below, own: _ } = self;
        below
    }
}

// Its `add` and `cut` are alike with those of a table, where it is said why.
impl<B: Book> Book for Trial<B> {
    ghost meaning = { λ t. trial_over (B.meaning t.below) (fitting (B.meaning t.below) (listed t.own.rows)) };

    // The book below is the same.
    ghost adds = { BelowSame (λ t. t.below) };

    ghost cuts = { BelowSame (λ t. t.below) };

    #[inline(always)]
    fn fixed_count(&self) -> usize {
        self.below.count()
    }

    #[inline(always)]
    fn added_count(&self) -> usize {
        self.own.rows.len()
    }

    // Of 64 places, or of 65,535 less the bounds below if those are fewer.
    fn free_count(&self) -> usize {
        PLACES.min(MOST - self.below.count()) - self.own.rows.len()
    }

    #[inline(always)]
    fn read(&self, i: usize) -> Option<Bound> {
        let below = self.below.count();
        if i < below {
            self.below.read(i)
        } else {
            self.own.rows.read(i - below)
        }
    }

    fn add(&mut self, bound: Bound) -> Result<(), BookFault> {
        if self.free_count() == 0 {
            return Err(BookFault::Full);
        }
        self.own.rows.push(bound);
        Ok(())
    }

    fn cut(&mut self, k: usize) -> bool {
        if k > self.own.rows.len() {
            return false;
        }
        self.own.rows.cut(k);
        true
    }

    ghost proper = { λ t. fitting_proper (B.meaning t.below) (listed t.own.rows) t.own.sound (B.proper t.below) };
}
