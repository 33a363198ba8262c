// Listings of bounds and of house words, line by line: what a line holds, and what the word tool prints for it.
#![tactic(auto)]

pub mod entry;
pub mod fault;
pub mod task;
pub mod text;
pub mod tool;

pub use entry::{Entry, bound_line, entry_of, words_line};
pub use fault::ListingFault;
pub use task::{Tally, Task, UnknownTask};
pub use tool::{Ending, Tool, run};
