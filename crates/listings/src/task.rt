// The tasks of the word tool, and its counts of lines.
ghost use Rattle.std.specs.Prelude.{◌≡◌, Some};
ghost use Rattle.listings.specs.Counts.{counted};
ghost use Rattle.listings.specs.Tasks.{Names, unknown_text};

use crate::entry::Entry;
use std::error::Error;
use std::fmt;
use std::str::FromStr;

// What the tool does with each line that holds a bound. It is known only when the program runs, and what is proved of the tool holds of every
// task: so an enum, and a match in the four places that ask which it is, where types of a trait would need three tools and twelve functions.
#[derive(Clone, Copy, PartialEq, Eq, Debug)]
pub enum Task {
    // print the words of the line's bound
    Write,
    // print the bound of the line's words
    Read,
    // write the line's bound, read its words back, and print both
    RoundTrip,
}

// A word that names no task.
#[derive(Clone, Copy, PartialEq, Eq, Debug)]
pub struct UnknownTask;

impl fmt::Display for UnknownTask {
    ghost output = { λ _. Some unknown_text };

    fn fmt<W: fmt::Write>(&self, f: &mut fmt::Formatter<W>) -> fmt::Result {
        write!(f, "unknown argument: write, read, or none for both")
    }
}

impl Error for UnknownTask {}

// The task that a word names, `write` or `read`; any other word is refused, with no fault number. No word names the round trip, which is
// what is done where none is given.
impl FromStr for Task {
    type Err = UnknownTask;

    ghost from_str_gives = { Names };

    fn from_str(word: &str) -> Result<Task, UnknownTask> {
        match word {
            "write" => Ok(Task::Write),
            "read" => Ok(Task::Read),
            _ => Err(UnknownTask),
        }
    }
}

// How many lines were read, and of which sort they were. A count that has come to 2^64 - 1 stays there.
#[derive(Clone, Copy, PartialEq, Eq, Default, Debug)]
pub struct Tally {
    pub lines: u64,
    pub bounds: u64,
    pub notes: u64,
    pub refused: u64,
}

impl Tally {
    // The counts with one line more.
    pub fn count(self, entry: Entry) -> Tally
        ensures { result ≡ counted entry self }
    {
        let lines = self.lines.saturating_add(1);
        match entry {
            Entry::Note => Tally {
                lines,
                notes: self.notes.saturating_add(1),
                ..self
            },
            Entry::Bound(_) => Tally {
                lines,
                bounds: self.bounds.saturating_add(1),
                ..self
            },
            Entry::Refused(_) => Tally {
                lines,
                refused: self.refused.saturating_add(1),
                ..self
            },
        }
    }
}
