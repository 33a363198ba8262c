// What the tool prints, piece by piece.
ghost use Rattle.std.specs.Prelude.{◌≡◌, IfOk, string_bytes};
ghost use Rattle.bounds.specs.Making.{row_of};
ghost use Rattle.listings.specs.Back.{TextReturns};
ghost use Rattle.listings.specs.Printing.{text_of_bound, text_of_refusal, text_of_entry, done_of, verdict_of, text_of_summary};

use crate::entry::Entry;
use crate::fault::ListingFault;
use crate::task::{Tally, Task};
use bounds::Bound;
use faults::Fault;
use std::alloc::{AllocError, Global};
use words::BoundWords;

// The line that the task prints for a bound.
fn bound_text(heap: Global, task: Task, bound: Bound) -> Result<String, AllocError>
    ensures { IfOk result (λ x. string_bytes x ≡ text_of_bound task (row_of bound)) }
{
    let row = bound.row();
    let words = BoundWords::from(bound);
    match task {
        Task::Write => format!(in heap; "{words}\n"),
        Task::Read => format!(in heap; "{row}\n"),
        Task::RoundTrip => format!(in heap; "{words} -> {row}\n"),
    }
}

// The line that is printed for a line that is refused.
fn refusal_text(heap: Global, number: u64, fault: ListingFault) -> Result<String, AllocError>
    ensures { IfOk result (λ x. string_bytes x ≡ text_of_refusal number fault) }
{
    let told = Fault::from(fault);
    format!(in heap; "line {number} refused: {fault} ({told})\n")
}

// The text of `entry_text`, which apart from this owes the promise that what is printed is read back.
fn printed(heap: Global, task: Task, number: u64, entry: Entry) -> Result<String, AllocError>
    ensures { IfOk result (λ x. string_bytes x ≡ text_of_entry task number entry) }
{
    match entry {
        Entry::Note => Ok(String::new(heap)),
        Entry::Bound(bound) => bound_text(heap, task, bound),
        Entry::Refused(fault) => refusal_text(heap, number, fault),
    }
}

// What the task prints for the line with this number: nothing for a note. Words and numbers that are printed for a bound are read as
// that bound. Refused only where memory fails.
pub fn entry_text(heap: Global, task: Task, number: u64, entry: Entry) -> Result<String, AllocError>
    ensures value { IfOk result (λ x. string_bytes x ≡ text_of_entry task number entry) }
    ensures back { TextReturns }
{
    printed(heap, task, number, entry)
}

fn done(task: Task) -> &'static str
    ensures { result.now ≡ done_of task }
{
    match task {
        Task::Write => "written",
        Task::Read => "read",
        Task::RoundTrip => "written and read back",
    }
}

// A round trip says whether the listing came back whole.
fn verdict(task: Task, refused: u64) -> &'static str
    ensures { result.now ≡ verdict_of task refused }
{
    match task {
        Task::RoundTrip => {
            if refused == 0 {
                ". The listing came back whole."
            } else {
                ". The listing did not come back whole."
            }
        }
        _ => "",
    }
}

// The last line, the summary: how many lines were read, and how many of them were bounds, notes and refused. Refused only where memory
// fails.
pub fn summary_text(heap: Global, task: Task, tally: Tally) -> Result<String, AllocError>
    ensures { IfOk result (λ x. string_bytes x ≡ text_of_summary task tally) }
{
    let Tally {
        lines,
        bounds,
        notes,
        refused,
    } = tally;
    let done = done(task);
    let verdict = verdict(task, refused);
    format!(in heap;
        "# lines read: {lines}, bounds {done}: {bounds}, notes: {notes}, refused: {refused}{verdict}\n"
    )
}
