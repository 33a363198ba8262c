// Bounds between points over every kind of delay: what walks, chains and earliest times are, when bounds can be met, and checks
// of times, of chains and of walks.
#![tactic(auto)]

pub mod chain;
pub mod edge;
pub mod link;
pub mod times;
pub mod walk;
pub mod worked;

pub use chain::is_chain;
pub use edge::{Edge, floor, in_force};
pub use link::{Link, NoLink, NoWord, edge_of};
pub use times::{Mismatch, check_times, meets};
pub use walk::{comes_over, sum};
pub use worked::worked_examples;
