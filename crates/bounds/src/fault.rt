ghost use Rattle.std.specs.Prelude.{◌≡◌, Some};
ghost use Rattle.bounds.specs.Faults.{fault_of, reason_of};

use faults::{Fault, Layer};
use std::error::Error;
use std::fmt;

// The first number that is outside a bound's range.
#[derive(Clone, Copy, PartialEq, Eq, Debug)]
pub enum BoundFault {
    LeftPoint,
    RightPoint,
    PartT,
    PartS,
}

// Fault 7 of layer D, at the place of the number among left, right, t and s.
impl From<BoundFault> for Fault {
    ghost from_gives = { λ e f. f ≡ fault_of e };

    fn from(fault: BoundFault) -> Fault {
        let place = match fault {
            BoundFault::LeftPoint => 1,
            BoundFault::RightPoint => 2,
            BoundFault::PartT => 3,
            BoundFault::PartS => 4,
        };
        Fault {
            number: 7,
            layer: Layer::Bounds,
            place,
        }
    }
}

impl BoundFault {
    /// What is wrong, in words.
    pub fn reason(self) -> &'static str
        ensures { result.now ≡ reason_of self }
    {
        match self {
            BoundFault::LeftPoint => "the left point is not from 0 to 4095",
            BoundFault::RightPoint => "the right point is not from 0 to 4095",
            BoundFault::PartT => "t is not from -500000000 to 500000000",
            BoundFault::PartS => "s is not from -500000000 to 500000000",
        }
    }
}

// It prints the words of `reason`.
impl fmt::Display for BoundFault {
    ghost output = { λ e. Some (reason_of e) };

    fn fmt<W: fmt::Write>(&self, f: &mut fmt::Formatter<W>) -> fmt::Result {
        f.write_str(self.reason())
    }
}

impl Error for BoundFault {}
