// Plans: whether the bounds of a book can be met, the earliest times, and bounds that are tried and taken back.
#![tactic(auto)]

mod checks;
pub mod fault;
pub mod known;
mod listed;
mod mark;
pub mod plan;
pub mod posted;
pub mod slip;

pub use fault::PlanFault;
pub use known::known_outcomes;
pub use plan::Plan;
pub use posted::Posted;
pub use slip::Slip;
