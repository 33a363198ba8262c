ghost use Rattle.std.specs.Prelude.{◌≡◌, Some};
ghost use Rattle.scripts.specs.Faults.{of_line, of_bound, of_plan, fault_of, reason_of};

use bounds::BoundFault;
use faults::{Fault, Layer};
use lines::fault::LineFault;
use plans::PlanFault;
use std::error::Error;
use std::fmt;

// Why a line of a script, or a whole script, is refused. A fault of a layer below is carried whole.
#[derive(Clone, Copy, PartialEq, Eq, Debug)]
pub enum ScriptFault {
    // the script has more than 32,768 bytes, or the output has fewer than 64 bytes a line
    Room,
    Line(LineFault),
    Bound(BoundFault),
    Plan(PlanFault),
}

impl From<LineFault> for ScriptFault {
    ghost from_gives = { λ e r. r ≡ of_line e };

    fn from(e: LineFault) -> ScriptFault {
        ScriptFault::Line(e)
    }
}

impl From<BoundFault> for ScriptFault {
    ghost from_gives = { λ e r. r ≡ of_bound e };

    fn from(e: BoundFault) -> ScriptFault {
        ScriptFault::Bound(e)
    }
}

impl From<PlanFault> for ScriptFault {
    ghost from_gives = { λ e r. r ≡ of_plan e };

    fn from(e: PlanFault) -> ScriptFault {
        ScriptFault::Plan(e)
    }
}

// Fault 14 of layer L, or the number, layer and place of the fault below.
impl From<ScriptFault> for Fault {
    ghost from_gives = { λ e f. f ≡ fault_of e };

    fn from(fault: ScriptFault) -> Fault {
        match fault {
            ScriptFault::Room => Fault {
                number: 14,
                layer: Layer::Lines,
                place: 0,
            },
            ScriptFault::Line(e) => Fault::from(e),
            ScriptFault::Bound(e) => Fault::from(e),
            ScriptFault::Plan(e) => Fault::from(e),
        }
    }
}

// What is wrong, in words.
impl fmt::Display for ScriptFault {
    ghost output = { λ e. Some (reason_of e) };

    fn fmt<W: fmt::Write>(&self, f: &mut fmt::Formatter<W>) -> fmt::Result {
        match self {
            ScriptFault::Room => write!(f, "the script is too long, or the output too short"),
            ScriptFault::Line(e) => write!(f, "{e}"),
            ScriptFault::Bound(e) => write!(f, "{e}"),
            ScriptFault::Plan(e) => write!(f, "{e}"),
        }
    }
}

impl Error for ScriptFault {}
