// The fault of a book: its number, layer and place, and its words.
ghost use Rattle.std.specs.Prelude.{◌≡◌, Some};
ghost use Rattle.books.specs.Faults.{fault_of, reason_of};

use faults::{Fault, Layer};
use std::error::Error;
use std::fmt;

// Why a book refuses.
#[derive(Clone, Copy, PartialEq, Eq, Debug)]
pub enum BookFault {
    // no place is free for another bound
    Full,
}

// Fault 9 of layer B, which names no place. It is alike with those of other layers: one conversion for all would be over a trait that asks each enum for
// its number, layer and place, which is what the conversions are.
impl From<BookFault> for Fault {
    ghost from_gives = { λ e r. r ≡ fault_of e };

    fn from(e: BookFault) -> Fault {
        match e {
            BookFault::Full => Fault {
                number: 9,
                layer: Layer::Books,
                place: 0,
            },
        }
    }
}

impl BookFault {
    /// What is wrong, in words.
    pub fn reason(self) -> &'static str
        ensures { result.now ≡ reason_of self }
    {
        match self {
            BookFault::Full => "the book has no free place",
        }
    }
}

// It prints the words of `reason`.
impl fmt::Display for BookFault {
    ghost output = { λ e. Some (reason_of e) };

    fn fmt<W: fmt::Write>(&self, f: &mut fmt::Formatter<W>) -> fmt::Result {
        f.write_str(self.reason())
    }
}

impl Error for BookFault {}
