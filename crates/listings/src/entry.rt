// What a line of a listing holds.
ghost use Rattle.std.specs.Prelude.{◌≡◌, ◌==◌, slice_index};
ghost use Rattle.listings.specs.Lines.{BoundLine, WordsLine, LineOf, EntryOf};

use crate::fault::ListingFault;
use crate::task::Task;
use bounds::Bound;
use lines::listing::values;
use words::{BoundWords, round_trip};

// A line of a listing: a note, which begins with `#`, a bound, or neither. Three cases with names, where an Option of a Result has none.
#[derive(Clone, Copy, PartialEq, Eq, Debug)]
pub enum Entry {
    Note,
    Bound(Bound),
    Refused(ListingFault),
}

// The bound of a line of four decimal numbers; or fault 12 with the first field that is missing, bad or extra, counted from 1; or else
// fault 7 with the first number that is out of range: 1 left, 2 right, 3 t, 4 s.
pub fn bound_line(line: &[u8]) -> Result<Bound, ListingFault>
    ensures { BoundLine line.now result }
{
    let [left, right, t, s]: [i64; 4] = values(line)?;
    Ok(Bound::new(left, right, t, s)?)
}

// The bound of a line of three words; or fault 12 with the first field that is missing, bad or extra, counted from 1; or else fault 13
// with the first word that breaks the row, counted from 0.
pub fn words_line(line: &[u8]) -> Result<Bound, ListingFault>
    ensures { WordsLine line.now result }
{
    let words = BoundWords(values(line)?);
    Ok(Bound::try_from(words)?)
}

// The bound of a line of four decimal numbers, once it has been written as words and read back from them.
fn returned_line(line: &[u8]) -> Result<Bound, ListingFault>
    ensures { BoundLine line.now result }
{
    Ok(round_trip(bound_line(line)?)?)
}

// The bound of a line in the form that the task reads, or why it has none.
fn held(task: Task, line: &[u8]) -> Result<Bound, ListingFault>
    ensures { LineOf task line.now result }
{
    match task {
        Task::Write => bound_line(line),
        Task::Read => words_line(line),
        Task::RoundTrip => returned_line(line),
    }
}

fn is_note(line: &[u8]) -> bool
    ensures { result ≡ (slice_index line.now 0 == 35) }
{
    line.first() == Some(&b'#')
}

// What a line holds for the task: a note where it begins with `#`; else the bound of the form that the task reads, or its refusal.
pub fn entry_of(task: Task, line: &[u8]) -> Entry
    ensures { EntryOf task line.now result }
{
    if is_note(line) {
        return Entry::Note;
    }
    match held(task, line) {
        Ok(bound) => Entry::Bound(bound),
        Err(fault) => Entry::Refused(fault),
    }
}
