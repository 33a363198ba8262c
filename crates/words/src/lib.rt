// House words: three 32-bit words to a bound, and the check of a buffer of them.
#![tactic(auto)]

pub mod bound_words;
pub mod fault;
pub mod rows;
mod tag;

pub use bound_words::BoundWords;
pub use fault::WordFault;
pub use rows::{check, round_trip};
