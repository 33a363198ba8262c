// Bounds: two points and a delay, with every number in its range.
#![tactic(auto)]

pub mod bound;
pub mod fault;
pub mod row;

pub use bound::Bound;
pub use fault::BoundFault;
pub use row::Row;
