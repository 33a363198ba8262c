ghost use Rattle.std.specs.Prelude.{◌≡◌, Some};
ghost use Rattle.plans.specs.Faults.{of_bound, of_kind, of_book, fault_of, reason_of};

use books::BookFault;
use bounds::BoundFault;
use delays::KindFault;
use faults::{Fault, Layer};
use std::error::Error;
use std::fmt;

// Why a plan refuses a call. A fault of a layer below is carried whole; at settle, that of a kind gets the bound's number as its place.
#[derive(Clone, Copy, PartialEq, Eq, Debug)]
pub enum PlanFault {
    // the plan is not settled
    Unsettled,
    // the plan is settled already
    SettledAlready,
    // the number of points is not from 1 to 128
    Points,
    // the caller's list is shorter than the number of points
    ListShort,
    // a point is not below the number of points; 1 for the left one or the one to read, else 2, and at settle the bound's number
    Point { place: usize },
    // the kind has no delay with the parts of the bound; 0, and at settle the bound's number
    Kind { fault: KindFault, place: usize },
    // the bounds in force hold a chain, of this length
    Conflict { length: usize },
    // eight marks are open
    MarksFull,
    // the slip's number or depth is not the plan's present one
    WrongSlip,
    Bound(BoundFault),
    Book(BookFault),
}

impl From<BoundFault> for PlanFault {
    ghost from_gives = { λ e r. r ≡ of_bound e };

    fn from(e: BoundFault) -> PlanFault {
        PlanFault::Bound(e)
    }
}

impl From<KindFault> for PlanFault {
    ghost from_gives = { λ e r. r ≡ of_kind e };

    fn from(fault: KindFault) -> PlanFault {
        PlanFault::Kind { fault, place: 0 }
    }
}

impl From<BookFault> for PlanFault {
    ghost from_gives = { λ e r. r ≡ of_book e };

    fn from(e: BookFault) -> PlanFault {
        PlanFault::Book(e)
    }
}

// The number, layer and place: those of a plan's own faults, and those of the layer below, where at settle a bound's number is the place.
impl From<PlanFault> for Fault {
    ghost from_gives = { λ e f. f ≡ fault_of e };

    fn from(fault: PlanFault) -> Fault {
        let (number, place) = match fault {
            PlanFault::Unsettled => (1, 0),
            PlanFault::SettledAlready => (2, 0),
            PlanFault::Points => (3, 0),
            PlanFault::ListShort => (4, 0),
            PlanFault::Point { place } => (5, place),
            PlanFault::Kind { fault, place } => {
                return Fault {
                    place: place as u64,
                    ..Fault::from(fault)
                };
            }
            PlanFault::Conflict { length } => (8, length),
            PlanFault::MarksFull => (10, 0),
            PlanFault::WrongSlip => (11, 0),
            PlanFault::Bound(e) => return Fault::from(e),
            PlanFault::Book(e) => return Fault::from(e),
        };
        Fault {
            number,
            layer: Layer::Plans,
            place: place as u64,
        }
    }
}

// What is wrong, in words.
impl fmt::Display for PlanFault {
    ghost output = { λ e. Some (reason_of e) };

    fn fmt<W: fmt::Write>(&self, f: &mut fmt::Formatter<W>) -> fmt::Result {
        match self {
            PlanFault::Unsettled => write!(f, "the plan is not settled"),
            PlanFault::SettledAlready => write!(f, "the plan is settled already"),
            PlanFault::Points => write!(f, "the number of points is not from 1 to 128"),
            PlanFault::ListShort => write!(f, "the list is shorter than the number of points"),
            PlanFault::Point { place } => write!(
                f,
                "a point is not below the number of points (place {place})"
            ),
            PlanFault::Kind { fault, place } => write!(f, "{fault} (place {place})"),
            PlanFault::Conflict { length } => write!(
                f,
                "the bounds in force hold a chain of {length}"
            ),
            PlanFault::MarksFull => write!(f, "eight marks are open"),
            PlanFault::WrongSlip => write!(f, "the slip is not the plan's present one"),
            PlanFault::Bound(e) => write!(f, "{e}"),
            PlanFault::Book(e) => write!(f, "{e}"),
        }
    }
}

impl Error for PlanFault {}
