// Bounds that can be met together: hidden times meet each with a slack.
use crate::asked::Asked;
use crate::part::Part;
use crate::slow::add_slow;
use bounds::{Bound, BoundFault};
use std::alloc::Global;
use words::BoundWords;

// The most rows of a word book.
const MOST: usize = 65_535;

// In milliseconds. The hidden times of all points but point 0, and the slacks of random bounds, are from this to twice this.
pub(crate) const SPAN: u32 = 10_000_000;

// The slack of the first hop, which no other way from point 0 falls below: so much each point of the path can still be moved.
pub(crate) const PLAY: u32 = SPAN / 2;

// A linear congruence, the same at each run.
#[derive(Drop)]
pub(crate) struct Draws {
    state: u32,
}

impl Draws {
    pub(crate) fn new(seed: u32) -> Draws {
        Draws { state: seed }
    }

    // A number below the limit, and zero where that is zero. It is that of the upper bits, since the lower ones come round soon.
    pub(crate) fn below(&mut self, limit: u32) -> u32 {
        self.state = self
            .state
            .wrapping_mul(1_664_525)
            .wrapping_add(1_013_904_223);
        (self.state / 256).checked_rem(limit).unwrap_or(0)
    }
}

fn hidden(point: u32) -> u32 {
    match point {
        0 => 0,
        _ => SPAN.saturating_add(Draws::new(point.wrapping_mul(2_654_435_769)).below(SPAN)),
    }
}

// The bound over two points that the hidden times meet with the slack.
pub(crate) fn met(left: u32, right: u32, slack: u32) -> Result<Bound, BoundFault> {
    let delay = i64::from(hidden(left)) - i64::from(hidden(right)) + i64::from(slack);
    Bound::new(i64::from(left), i64::from(right), delay, 0)
}

// The hop from a point to the next one. All hops but the first are tight, so the points of the path move together.
fn hop(left: u8) -> Result<Bound, BoundFault> {
    let slack = if left == 0 { PLAY } else { 0 };
    met(u32::from(left), u32::from(left) + 1, slack)
}

fn random(draws: &mut Draws, points: u8) -> Result<Bound, BoundFault> {
    let left = draws.below(u32::from(points));
    let right = draws.below(u32::from(points));
    let slack = draws.below(SPAN);
    met(left, right, SPAN.saturating_add(slack))
}

// The bound that so many others follow. The hops come last, the last of them first; a round of relaxation moves their path by one hop in any order.
fn bound(draws: &mut Draws, points: u8, after: u16) -> Result<Bound, BoundFault> {
    match u8::try_from(after) {
        Ok(left) if left < points.saturating_sub(1) => hop(left),
        _ => random(draws, points),
    }
}

// The bounds of a book that settles fast: random ones, and then the hops.
fn add_met(words: &mut Vec<u32>, asked: &Asked) -> anyhow::Result<()> {
    let mut draws = Draws::new(1);
    for after in (0..asked.bounds).rev() {
        let bound = bound(&mut draws, asked.points, after)?;
        words.extend_from_slice(&BoundWords::from(bound).0)?;
    }
    Ok(())
}

// The words of all bounds, and a place more for each round while a word book has places.
pub(crate) fn make_words(heap: Global, asked: &Asked) -> anyhow::Result<Vec<u32>> {
    let mut words = Vec::new(heap);
    match asked.part {
        Some(Part::Slow) => add_slow(&mut words, asked)?,
        _ => add_met(&mut words, asked)?,
    }
    let rows = (usize::from(asked.bounds) + asked.rounds as usize).min(MOST);
    words.resize(3 * rows, 0)?;
    Ok(words)
}
