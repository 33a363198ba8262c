// The tool: input comes in pieces of any size, and what is printed depends on their bytes alone.
ghost use Rattle.std.specs.Prelude.{◌≡◌, [], ◌∷◌, IfOk, string_bytes, ◌==◌, ◌≢◌};
ghost use Rattle.lines.specs.Kept.{kept};
ghost use Rattle.listings.specs.Sessions.{Prints, Tells};
ghost use Rattle.listings.specs.Tools.{Follows, EndsWith, Fresh, Law};

use crate::entry::entry_of;
use crate::task::{Tally, Task};
use crate::text::{entry_text, summary_text};
use lines::line::Line;
use std::alloc::{AllocError, Global};

fn ends_line(b: u8) -> bool
    ensures { result ≡ (b == 10) }
{
    b == b'\n'
}

// A task that has come to some place of its input. Of the line that it is in, it keeps what decides.
#[derive(Drop)]
pub struct Tool {
    task: Task,
    line: Line,
    tally: Tally,
}

// What is printed where the input ends, and the counts of the whole input.
#[derive(Drop)]
pub struct Ending {
    pub text: String,
    pub tally: Tally,
}

impl Tool {
    fn fresh(task: Task) -> Tool
        ensures { Fresh task result }
    {
        Tool {
            task,
            line: Line::new(),
            tally: Tally::default(),
        }
    }

    // A tool that has read nothing. The law says that what it prints does not depend on the pieces in which its input comes.
    pub fn new(task: Task) -> Tool
        ensures fresh { Fresh task result }
        ensures law { Law }
    {
        Tool::fresh(task)
    }

    // The line is whole: what is printed for it.
    fn end_line(&mut self, heap: Global) -> Result<String, AllocError>
        ensures task { self.new.task ≡ self.old.task }
        ensures line { kept self.new.line ≡ [] }
        ensures tells { IfOk result (λ x. Tells self.old.task self.old.tally (kept self.old.line) (string_bytes x) self.new.tally) }
    {
        let entry = entry_of(self.task, self.line.bytes());
        self.tally = self.tally.count(entry);
        self.line.clear();
        entry_text(heap, self.task, self.tally.lines, entry)
    }

    // One byte more, and what is printed for it.
    fn step(&mut self, heap: Global, b: u8) -> Result<String, AllocError>
        ensures { IfOk result (λ x. Follows self.old (b ∷ []) (string_bytes x) self.new) }
    {
        if ends_line(b) {
            self.end_line(heap)
        } else {
            self.line.push(b);
            Ok(String::new(heap))
        }
    }

    // The tool after the next piece of the input, and what is printed for the lines that the piece ends. Refused only where memory
    // fails, and then no tool is left.
    pub fn feed(mut self, heap: Global, piece: &[u8]) -> Result<(Tool, String), AllocError>
        ensures { IfOk result (λ x. Follows self piece.now (string_bytes x.1) x.0) }
    {
        let mut out = String::new(heap);
        for b in piece {
            let text = self.step(heap, *b)?;
            out.push_str(text.as_str())?;
        }
        Ok((self, out))
    }

    // A last line that no line feed ends.
    fn last_line(&mut self, heap: Global) -> Result<String, AllocError>
        ensures task { self.new.task ≡ self.old.task }
        ensures empty { IfOk result (λ x. kept self.old.line ≡ [] → (string_bytes x ≡ []) × (self.new.tally ≡ self.old.tally)) }
        ensures tells { IfOk result (λ x. (kept self.old.line ≢ [])
            → Tells self.old.task self.old.tally (kept self.old.line) (string_bytes x) self.new.tally) }
    {
        if self.line.is_empty() {
            Ok(String::new(heap))
        } else {
            self.end_line(heap)
        }
    }

    // The input ends: what is printed for a line that no line feed ended, then the summary, and the counts. Refused only where memory
    // fails.
    pub fn finish(mut self, heap: Global) -> Result<Ending, AllocError>
        ensures { IfOk result (λ e. EndsWith self (string_bytes e.text) e.tally) }
    {
        let mut text = self.last_line(heap)?;
        let summary = summary_text(heap, self.task, self.tally)?;
        text.push_str(summary.as_str())?;
        Ok(Ending {
            text,
            tally: self.tally,
        })
    }
}

// What the tool prints for a whole input, and its counts. Refused only where memory fails.
pub fn run(heap: Global, task: Task, input: &[u8]) -> Result<Ending, AllocError>
    ensures { IfOk result (λ e. Prints task input.now (string_bytes e.text) e.tally) }
{
    let (tool, mut text) = Tool::new(task).feed(heap, input)?;
    let ending = tool.finish(heap)?;
    text.push_str(ending.text.as_str())?;
    Ok(Ending {
        text,
        tally: ending.tally,
    })
}
