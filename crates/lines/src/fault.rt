ghost use Rattle.std.specs.Prelude.{◌≡◌, Some};
ghost use Rattle.lines.specs.Faults.{fault_of, reason_of};

use faults::{Fault, Layer};
use std::fmt;

// Why a line is refused.
#[derive(Clone, Copy, PartialEq, Eq, Debug)]
pub enum LineFault {
    // The field at this place is missing, bad or extra. The reader of a line says at which place its fields begin.
    Unreadable { field: u64 },
}

// Fault 12 of layer L, at the field.
impl From<LineFault> for Fault {
    ghost from_gives = { λ e r. r ≡ fault_of e };

    fn from(e: LineFault) -> Fault {
        match e {
            LineFault::Unreadable { field } => Fault {
                number: 12,
                layer: Layer::Lines,
                place: field,
            },
        }
    }
}

impl LineFault {
    /// What is wrong, in words.
    pub fn reason(self) -> &'static str
        ensures { result.now ≡ reason_of self }
    {
        "a field is missing, unreadable or extra"
    }
}

// It prints the words of `reason`.
impl fmt::Display for LineFault {
    ghost output = { λ e. Some (reason_of e) };

    fn fmt<W: fmt::Write>(&self, f: &mut fmt::Formatter<W>) -> fmt::Result {
        f.write_str(self.reason())
    }
}

impl std::error::Error for LineFault {}
