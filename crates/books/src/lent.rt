// The word book, over words that the caller lends.
ghost use Rattle.std.specs.Prelude.{◌≡◌, ◌+◌, ◌*◌, ◌<◌, ◌≤◌, length};
ghost use Rattle.bounds.specs.Making.{row_of};
ghost use Rattle.books.specs.Decoding.{OfBound, taken_apart};
ghost use Rattle.books.specs.Lent.{Fit, Opened, ended, row_places, row_put, rows_in};

use crate::book::{Book, MOST};
use crate::fault::BookFault;
use bounds::Bound;
use words::{BoundWords, check};

// How many rows there is place for, how many were found at opening, and how many were added since. What holds of them stands in
// the book: over lent words, a book that holds a struct with a ghost field can't be moved into another book.
#[derive(Clone, Copy, Default)]
struct Counts {
    places: usize,
    fixed: usize,
    added: usize,
}

/// The word book: bounds in house words that the caller lends. It keeps its rows where they are: the fixed ones, then the added
/// ones, then a zero head where there is a place for it.
#[derive(Drop)]
pub struct WordBook<'a> {
    words: &'a mut [u32],
    counts: Counts,
    ghost fit: { Fit words.now counts },
}

// How many rows so many words have place for.
fn rows_within(words: usize) -> usize
    ensures { result ≡ row_places words }
{
    (words / 3).min(MOST)
}

// The counts over words that are just opened: no row and no place where the check refuses them.
fn found(words: &[u32]) -> Counts
    ensures fit { Fit words.now result }
    ensures opened { Opened words.now (rows_in words.now result) }
{
    let Ok(fixed) = check(words) else {
        return Counts::default();
    };
    Counts {
        places: rows_within(words.len()),
        fixed,
        added: 0,
    }
}

// The bound that has these words.
#[inline(always)]
fn bound_in(row: [u32; 3]) -> Bound
    requires { OfBound row }
    ensures { row_of result ≡ taken_apart row }
{
    Bound::try_from(BoundWords(row)).unwrap()
}

// Puts a zero head after `n` rows, where there is a place for it. It takes the words, and not the book, whose fact does not hold while they
// are written.
fn put_end(words: &mut [u32], places: usize, n: usize)
    requires { 3 * places ≤ length words.old }
    ensures { words.new ≡ ended places words.old n }
{
    if n < places {
        words[3 * n] = 0;
    }
}

// Puts a bound after `n` rows, and the end after it.
fn put_bound(words: &mut [u32], places: usize, n: usize, bound: Bound)
    requires room { 3 * places ≤ length words.old }
    requires free { n < places }
    ensures { words.new ≡ row_put places words.old n (row_of bound) }
{
    words[3 * n..3 * n + 3].copy_from_slice(&BoundWords::from(bound).0);
    put_end(words, places, n + 1);
}

impl<'a> WordBook<'a> {
    ghost use Rattle.books.specs.Held.{meaning_of, StaysWritten};

    /// A book over lent words, which never refuses. Have the words checked first: the rows that `words::check` finds are fixed,
    /// and the remaining threes are free. Whatever calls the book then goes through, its words hold its bounds. Over words that
    /// the check refuses the book has no bound and no free place.
    pub fn open(words: &'a mut [u32]) -> WordBook<'a>
        ensures lent { result.words ≡ words.entry }
        ensures opened { Opened words.old (meaning_of result) }
        ensures stays { StaysWritten words.old result }
    {
        let counts = found(words);
        WordBook { words, counts }
    }

    #[inline(always)]
    fn rows(&self) -> usize
        ensures { result ≡ self.now.counts.fixed + self.now.counts.added }
    {
        self.counts.fixed + self.counts.added
    }
}

#[tactic(auto, using(crate::proofs::Lents::book_rows))]
impl<'a> Book for WordBook<'a> {
    ghost use Rattle.books.specs.Held.{meaning_of, RowAdded, RowsCut};
    ghost use Rattle.books.specs.WordLaws.{words_proper};

    ghost meaning = { λ w. meaning_of w };

    ghost adds = { RowAdded };

    ghost cuts = { RowsCut };

    #[inline(always)]
    fn fixed_count(&self) -> usize {
        self.counts.fixed
    }

    #[inline(always)]
    fn added_count(&self) -> usize {
        self.counts.added
    }

    fn free_count(&self) -> usize {
        self.counts.places - self.rows()
    }

    #[inline(always)]
    fn read(&self, i: usize) -> Option<Bound> {
        let (rows, _) = self.words.as_chunks::<3>();
        let row = rows[..self.rows()].get(i)?;
        Some(bound_in(*row))
    }

    fn add(&mut self, bound: Bound) -> Result<(), BookFault> {
        let n = self.rows();
        let places = self.counts.places;
        if n == places {
            return Err(BookFault::Full);
        }
        put_bound(self.words, places, n, bound);
        self.counts.added += 1;
        Ok(())
    }

    fn cut(&mut self, k: usize) -> bool {
        if k > self.counts.added {
            return false;
        }
        let n = self.counts.fixed + k;
        put_end(self.words, self.counts.places, n);
        self.counts.added = k;
        true
    }

    ghost proper = { λ w. words_proper w.words.now w.counts w.fit };
}
