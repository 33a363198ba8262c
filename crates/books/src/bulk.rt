// What is done with every book alike.
ghost use Rattle.std.specs.Prelude.{map};
ghost use Rattle.bounds.specs.Making.{row_of};
ghost use Rattle.books.specs.Calls.{AddingAll, Went};

use crate::book::Book;
use crate::fault::BookFault;
use bounds::Bound;

// Adds the bounds in their order, all of them or none: it is refused with fault 9, place 0, exactly when fewer places are free than
// there are bounds, and then nothing changes.
pub fn add_all<B: Book>(book: &mut B, bounds: &[Bound]) -> Result<(), BookFault>
    ensures adds { AddingAll B.meaning B.adds book.old (map row_of bounds.now) book.new result }
    ensures went { Went B.meaning B.adds B.cuts book.old book.new }
{
    if book.free_count() < bounds.len() {
        return Err(BookFault::Full);
    }
    for bound in bounds {
        book.add(*bound)?;
    }
    Ok(())
}
