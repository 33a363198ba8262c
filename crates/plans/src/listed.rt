// The index of a plan's bounds, as its book grows and is cut.
ghost use Rattle.std.specs.Prelude.{◌+◌, ◌<◌, ◌≤◌, length, map, take, All};
ghost use Rattle.bounds.specs.Making.{row_of};
ghost use Rattle.books.specs.Meaning.{bounds_of};
ghost use Rattle.books.specs.Calls.{Adding};
ghost use Rattle.relaxation.specs.ByLeft.{Lists};

use books::{Book, BookFault};
use bounds::Bound;
use relaxation::ByLeft;

// Adds the bound to the book and lists it, or is refused as the book refuses it.
#[inline(always)]
pub(crate) fn add<B: Book>(book: &mut B, index: &mut ByLeft, bound: Bound) -> Result<(), BookFault>
    requires listed { Lists index.old (map (λ r. r.left) (bounds_of (B.meaning book.old))) }
    requires left { (row_of bound).left < 128 }
    ensures added { Adding B.meaning B.adds book.old (row_of bound) book.new result }
    ensures listed { Lists index.new (map (λ r. r.left) (bounds_of (B.meaning book.new))) }
{
    let number = book.count();
    book.add(bound)?;
    index.push(number, usize::from(bound.row().left));
    Ok(())
}

// Takes off the bounds of the book past the first `added` added ones.
#[inline(always)]
pub(crate) fn unlist<B: Book>(book: &B, index: &mut ByLeft, added: usize)
    requires few { added ≤ length (B.meaning book.now).added }
    requires listed { Lists index.old (map (λ r. r.left) (bounds_of (B.meaning book.now))) }
    requires lefts { All (λ r. r.left < 128) (bounds_of (B.meaning book.now)) }
    ensures { Lists index.new (map (λ r. r.left) (take (length (B.meaning book.now).fixed + added) (bounds_of (B.meaning book.now)))) }
{
    for number in (book.fixed_count() + added..book.count()).rev() {
        let left = book.read(number).unwrap().row().left;
        index.pop(number, usize::from(left));
    }
}
