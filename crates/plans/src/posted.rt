// What an accepted post answers.
#[derive(Clone, Copy, PartialEq, Eq, Debug)]
pub enum Posted {
    // a bound of the book covers the one posted, and nothing changed
    Covered,
    // the bound was added, and so many points have another earliest time than before
    Moved { count: usize },
}
