//! Earliest times of the bounds of a book, spread from point to point, and the chain where there are none.
#![tactic(auto)]

pub mod by_left;
mod chain;
pub mod earliest;
pub mod indexed;
mod line;
pub mod outcome;
pub mod question;
pub mod spreading;
mod star;

pub use by_left::ByLeft;
pub use indexed::{Fitting, Indexed};
pub use outcome::Outcome;
pub use question::Question;
pub use spreading::Spreading;
