ghost use Rattle.std.specs.Prelude.{◌≡◌, Some};
ghost use Rattle.words.specs.Faults.{fault_of, reason_of};

use faults::{Fault, Layer};
use std::error::Error;
use std::fmt;

// Why words are refused.
#[derive(Clone, Copy, PartialEq, Eq, Debug)]
pub enum WordFault {
    // a buffer's length, which is no multiple of three
    Length { words: u64 },
    // the place, counted from 0, of the first word that breaks its row
    Word { place: u64 },
}

// Fault 13 of layer B, at the length or at the word.
impl From<WordFault> for Fault {
    ghost from_gives = { λ e r. r ≡ fault_of e };

    fn from(fault: WordFault) -> Fault {
        let place = match fault {
            WordFault::Length { words } => words,
            WordFault::Word { place } => place,
        };
        Fault {
            number: 13,
            layer: Layer::Books,
            place,
        }
    }
}

impl WordFault {
    /// What is wrong, in words.
    pub fn reason(self) -> &'static str
        ensures { result.now ≡ reason_of self }
    {
        match self {
            WordFault::Length { words: _ } => "the number of words is no multiple of three",
            WordFault::Word { place: _ } => "the word breaks its row",
        }
    }
}

// It prints the words of `reason`.
impl fmt::Display for WordFault {
    ghost output = { λ e. Some (reason_of e) };

    fn fmt<W: fmt::Write>(&self, f: &mut fmt::Formatter<W>) -> fmt::Result {
        f.write_str(self.reason())
    }
}

impl Error for WordFault {}
