/// What becomes of the earliest times when a bound is posted.
#[derive(Clone, Copy, PartialEq, Eq, Debug)]
pub enum Outcome {
    /// the times meet the bound: they stay
    Met,
    /// the times rose to those with the bound
    Raised,
    /// the bounds hold a chain, of this length
    Conflict { length: usize },
}
