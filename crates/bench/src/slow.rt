// A book that is slow to settle: paths lead from each point down to point 1, and the more bounds they have, the later they bring it.
use crate::asked::Asked;
use crate::load::{Draws, PLAY, SPAN};
use bounds::{Bound, BoundFault};
use words::BoundWords;

// In milliseconds, what a path gives for each point that it goes down, besides one for each of its bounds.
const STEP: u32 = 1_000;

// From a point to a lower one.
fn down(left: u8, right: u8) -> Result<Bound, BoundFault> {
    let apart = i64::from(left) - i64::from(right);
    Bound::new(
        i64::from(left),
        i64::from(right),
        -(i64::from(STEP) * apart + 1),
        0,
    )
}

// Leaves point 1, with more slack than any path takes up.
fn idle(draws: &mut Draws, points: u8) -> Result<Bound, BoundFault> {
    let right = draws.below(u32::from(points));
    let slack = SPAN.saturating_add(draws.below(SPAN));
    Bound::new(1, i64::from(right), i64::from(slack), 0)
}

// The last point comes later than before, by more than paths differ, and so all the others do, over ever longer paths.
pub(crate) fn moving_slow(draws: &mut Draws, points: u8) -> Result<Bound, BoundFault> {
    let later = STEP.saturating_add(draws.below(PLAY));
    Bound::new(0, i64::from(points) - 1, -i64::from(later), 0)
}

// The bounds of the slow book: from each point to each lower one but point 0, twice, and then idle ones. Where a point's bounds are gone through from
// their first to their last, or the other way, the lowest point is moved first, and so each path is found after all shorter ones.
pub(crate) fn add_slow(words: &mut Vec<u32>, asked: &Asked) -> anyhow::Result<()> {
    let mut draws = Draws::new(1);
    let mut missing = asked.bounds;
    for left in 2..asked.points {
        for right in (1..left).chain((1..left).rev()) {
            if missing == 0 {
                return Ok(());
            }
            words.extend_from_slice(&BoundWords::from(down(left, right)?).0)?;
            missing -= 1;
        }
    }
    for _ in 0..missing {
        words.extend_from_slice(&BoundWords::from(idle(&mut draws, asked.points)?).0)?;
    }
    Ok(())
}
