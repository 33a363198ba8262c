ghost use Rattle.std.specs.Prelude.{◌≡◌, Some};
ghost use Rattle.delays.specs.Faults.{fault_of, reason_of};

use faults::{Fault, Layer};
use std::error::Error;
use std::fmt;

// Why a pair of parts is no delay.
#[derive(Clone, Copy, PartialEq, Eq, Debug)]
pub enum KindFault {
    // no delay of the kind within the reach has the pair
    Unread,
}

// Fault 6 of layer K, which names no place.
impl From<KindFault> for Fault {
    ghost from_gives = { λ e fault. fault ≡ fault_of e };

    fn from(e: KindFault) -> Fault {
        match e {
            KindFault::Unread => Fault {
                number: 6,
                layer: Layer::Kinds,
                place: 0,
            },
        }
    }
}

impl KindFault {
    /// What is wrong, in words.
    pub fn reason(self) -> &'static str
        ensures { result.now ≡ reason_of self }
    {
        match self {
            KindFault::Unread => "no delay of the kind has these parts",
        }
    }
}

// It prints the words of `reason`.
impl fmt::Display for KindFault {
    ghost output = { λ e. Some (reason_of e) };

    fn fmt<W: fmt::Write>(&self, f: &mut fmt::Formatter<W>) -> fmt::Result {
        f.write_str(self.reason())
    }
}

impl Error for KindFault {}
