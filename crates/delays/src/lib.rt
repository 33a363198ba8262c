// Kinds of delay: what every kind proves, the kinds ticks and ranked, and what holds of every kind.
#![tactic(auto)]

pub mod delay;
pub mod fault;
pub mod has_delay;
mod number;
pub mod quantity;
pub mod ranked;
pub mod ticks;
pub mod totals;

pub use delay::{Delay, read_pair};
pub use fault::KindFault;
pub use has_delay::HasDelay;
// Not `quantity::Quantity`, whose methods have the names of those of `Delay`: who brings in all names here calls them on kinds.
pub use ranked::Ranked;
pub use ticks::Ticks;
pub use totals::total;
