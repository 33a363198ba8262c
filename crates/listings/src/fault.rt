// Why a line of a listing holds no bound.
ghost use Rattle.std.specs.Prelude.{◌≡◌, Some};
ghost use Rattle.listings.specs.Faults.{of_line, of_bound, of_word, fault_of, reason_of};

use bounds::BoundFault;
use faults::Fault;
use lines::fault::LineFault;
use std::error::Error;
use std::fmt;
use words::WordFault;

// Why a line of a listing holds no bound: a fault of a layer below, carried whole.
#[derive(Clone, Copy, PartialEq, Eq, Debug)]
pub enum ListingFault {
    Line(LineFault),
    Bound(BoundFault),
    Word(WordFault),
}

impl From<LineFault> for ListingFault {
    ghost from_gives = { λ e r. r ≡ of_line e };

    fn from(e: LineFault) -> ListingFault {
        ListingFault::Line(e)
    }
}

impl From<BoundFault> for ListingFault {
    ghost from_gives = { λ e r. r ≡ of_bound e };

    fn from(e: BoundFault) -> ListingFault {
        ListingFault::Bound(e)
    }
}

impl From<WordFault> for ListingFault {
    ghost from_gives = { λ e r. r ≡ of_word e };

    fn from(e: WordFault) -> ListingFault {
        ListingFault::Word(e)
    }
}

// The number, layer and place of the fault below.
impl From<ListingFault> for Fault {
    ghost from_gives = { λ e f. f ≡ fault_of e };

    fn from(fault: ListingFault) -> Fault {
        match fault {
            ListingFault::Line(e) => Fault::from(e),
            ListingFault::Bound(e) => Fault::from(e),
            ListingFault::Word(e) => Fault::from(e),
        }
    }
}

impl ListingFault {
    /// What is wrong, in the words of the layer below.
    pub fn reason(self) -> &'static str
        ensures { result.now ≡ reason_of self }
    {
        match self {
            ListingFault::Line(e) => e.reason(),
            ListingFault::Bound(e) => e.reason(),
            ListingFault::Word(e) => e.reason(),
        }
    }
}

// It prints the words of `reason`.
impl fmt::Display for ListingFault {
    ghost output = { λ e. Some (reason_of e) };

    fn fmt<W: fmt::Write>(&self, f: &mut fmt::Formatter<W>) -> fmt::Result {
        f.write_str(self.reason())
    }
}

impl Error for ListingFault {}
