use bounds::Row;

// What is spread: the bounds that leave the root, or the one that is posted, over those that are met. Points from the limit on rise, but are
// not taken up.
#[derive(Clone, Copy)]
pub(crate) struct Star {
    pub root: usize,
    pub limit: usize,
    pub posted: Option<Row>,
}
