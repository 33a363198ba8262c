// The rounds: a mark, a post, and a back.
use crate::asked::Asked;
use crate::load::{Draws, PLAY, met};
use crate::part::Part;
use crate::slow::moving_slow;
use crate::tally::Tally;
use books::Book;
use bounds::{Bound, BoundFault};
use delays::{Delay, Ticks};
use plans::{Plan, PlanFault, Posted};

// What the round does: the asked part, or one after the other.
fn part(asked: &Asked, draws: &mut Draws, round: u32) -> Part {
    match (asked.part, round % 5) {
        (Some(part), _) => part,
        (None, 0) => Part::Marks,
        (None, 1) => Part::Covered,
        (None, 2) => Part::Still,
        (None, 3) => Part::Moving {
            count: draws
                .below(u32::from(asked.points.saturating_sub(1)))
                .saturating_add(1),
        },
        (None, _) => Part::Conflict,
    }
}

// A hop with more slack than the book's.
fn covered(draws: &mut Draws, points: u8) -> Result<Bound, BoundFault> {
    let left = draws.below(u32::from(points.saturating_sub(1)));
    met(left, left.saturating_add(1), PLAY)
}

// No hop, and with more slack than any point of the path has left.
fn still(draws: &mut Draws, points: u8) -> Result<Bound, BoundFault> {
    let one = draws.below(u32::from(points));
    let other = draws.below(u32::from(points));
    let slack = draws.below(PLAY);
    met(one.max(other), one.min(other), PLAY.saturating_add(slack))
}

// A point of the path comes later than before, and all that follow it on the path with it.
fn moving(draws: &mut Draws, points: u8, count: u32) -> Result<Bound, BoundFault> {
    let point = u32::from(points).saturating_sub(count);
    met(0, point, draws.below(PLAY))
}

// The last point comes earlier than it can.
fn conflict<B: Book>(plan: &Plan<Ticks, B>, points: u8) -> Result<Bound, PlanFault> {
    let last = points.saturating_sub(1);
    let (time, _) = plan.read(usize::from(last))?.parts();
    Ok(Bound::new(i64::from(last), 0, time.saturating_sub(1), 0)?)
}

// The bound that the part posts, if any.
fn to_post<B: Book>(
    plan: &Plan<Ticks, B>,
    points: u8,
    draws: &mut Draws,
    part: Part,
) -> Result<Option<Bound>, PlanFault> {
    Ok(match part {
        Part::Marks => None,
        Part::Covered => Some(covered(draws, points)?),
        Part::Still => Some(still(draws, points)?),
        Part::Moving { count } => Some(moving(draws, points, count)?),
        Part::Conflict => Some(conflict(plan, points)?),
        Part::Slow => Some(moving_slow(draws, points)?),
    })
}

// Posts the bound under a mark, and then keeps it or takes it back. The slip is handed on before any answer is looked at.
fn post_under_mark<B: Book>(
    plan: &mut Plan<Ticks, B>,
    bound: Bound,
    list: &mut [u32],
    keeps: bool,
) -> Result<Result<Posted, PlanFault>, PlanFault> {
    let slip = plan.mark()?;
    let answer = plan.post(bound, list);
    if keeps {
        plan.keep(slip)?;
    } else {
        plan.back(slip)?;
    }
    Ok(answer)
}

// Opens a mark and closes it.
fn mark_and_back<B: Book>(plan: &mut Plan<Ticks, B>) -> Result<(), PlanFault> {
    let slip = plan.mark()?;
    plan.back(slip)
}

// All rounds. Where they go through every part, each eighth keeps what it posted.
pub(crate) fn go_through<B: Book>(
    asked: &Asked,
    plan: &mut Plan<Ticks, B>,
    list: &mut [u32],
) -> Result<Tally, PlanFault> {
    let mut draws = Draws::new(2);
    let mut tally = Tally::default();
    for round in 0..asked.rounds {
        let part = part(asked, &mut draws, round);
        let keeps = asked.part.is_none() && round % 8 == 7;
        match to_post(plan, asked.points, &mut draws, part)? {
            Some(bound) => tally = tally.count(post_under_mark(plan, bound, list, keeps)?)?,
            None => mark_and_back(plan)?,
        }
    }
    Ok(tally)
}

// One number for all times.
pub(crate) fn checksum<B: Book>(plan: &Plan<Ticks, B>, points: u8) -> Result<u64, PlanFault> {
    let mut sum = 0u64;
    for point in 0..usize::from(points) {
        let (time, _) = plan.read(point)?.parts();
        sum = sum.wrapping_mul(31).wrapping_add(time.cast_unsigned());
    }
    Ok(sum)
}
