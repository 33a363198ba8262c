// What a book means, what can be asked of it, and what can be done to it.
ghost use Rattle.std.specs.Prelude.{◌≡◌, ℕ, length};
ghost use Rattle.bounds.specs.Making.{row_of};
ghost use Rattle.bounds.specs.declared.row.Row.{Row};
ghost use Rattle.books.specs.Meaning.{Meaning, Proper, bounds_of};
ghost use Rattle.books.specs.Calls.{Reads, Adding, Cutting};

use crate::fault::BookFault;
use bounds::Bound;

// The most that bounds and free places of a book come to together.
pub(crate) const MOST: usize = 65_535;

/// A book is a store of bounds: a fixed list, and an added list that grows and is cut. Its bounds are numbered from 0, the fixed
/// ones first. Questions change nothing.
pub trait Book {
    /// The fixed list, the added list and the number of free places.
    ghost meaning: { Self → Meaning };

    /// What an accepted adding, and an accepted cutting, leave of the storage beside the meaning: the book before, and after.
    ghost adds: { Self → Row → Self → Type 0 };

    ghost cuts: { Self → ℕ → Self → Type 0 };

    /// How many bounds are fixed.
    fn fixed_count(&self) -> usize
        ensures { result ≡ length (meaning self.now).fixed };

    /// How many bounds are added.
    fn added_count(&self) -> usize
        ensures { result ≡ length (meaning self.now).added };

    /// How many places are free.
    fn free_count(&self) -> usize
        ensures { result ≡ (meaning self.now).free };

    /// How many bounds there are, fixed and added together.
    #[inline(always)]
    fn count(&self) -> usize
        ensures { result ≡ length (bounds_of (meaning self.now)) }
    {
        self.fixed_count() + self.added_count()
    }

    /// The bound with the number `i`, or nothing exactly when `i` is not below the count.
    fn read(&self, i: usize) -> Option<Bound>
        ensures { Reads (meaning self.now) i result };

    /// Puts a bound at the end of the added list, which takes one place; or is refused with fault 9, place 0, exactly when none is
    /// free, and then nothing changes.
    fn add(&mut self, bound: Bound) -> Result<(), BookFault>
        ensures { Adding meaning adds self.old (row_of bound) self.new result };

    /// Keeps the first `k` added bounds and frees the places of the others: yes; or no exactly when there are fewer than `k`,
    /// and then nothing changes. A yes or no, as a set of the library answers `insert`: a caller can see beforehand that there are
    /// fewer, and nothing is given back.
    fn cut(&mut self, k: usize) -> bool
        ensures { Cutting meaning cuts self.old k self.new result };

    /// Bounds and free places together are at most 65,535, and every row is that of a bound.
    ghost proper: { (b : Self) → Proper (meaning b) };
}
