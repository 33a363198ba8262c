// What the plan answered in the rounds.
use plans::{PlanFault, Posted};
use std::fmt;

#[derive(Clone, Copy, Default)]
pub(crate) struct Tally {
    covered: u64,
    // posts that moved nothing
    still: u64,
    // posts that moved points, and how many in all
    moving: u64,
    moved: u64,
    // posts that can't be met, and the bounds of their chains in all
    conflicts: u64,
    links: u64,
    // posts for which the book had no place
    full: u64,
}

impl Tally {
    // The counts with an answer more. A fault that the rounds don't look for ends them.
    pub(crate) fn count(self, answer: Result<Posted, PlanFault>) -> Result<Tally, PlanFault> {
        match answer {
            Ok(Posted::Covered) => Ok(Tally {
                covered: self.covered.saturating_add(1),
                ..self
            }),
            Ok(Posted::Moved { count: 0 }) => Ok(Tally {
                still: self.still.saturating_add(1),
                ..self
            }),
            Ok(Posted::Moved { count }) => Ok(Tally {
                moving: self.moving.saturating_add(1),
                moved: self.moved.saturating_add(count as u64),
                ..self
            }),
            Err(PlanFault::Conflict { length }) => Ok(Tally {
                conflicts: self.conflicts.saturating_add(1),
                links: self.links.saturating_add(length as u64),
                ..self
            }),
            Err(PlanFault::Book(_)) => Ok(Tally {
                full: self.full.saturating_add(1),
                ..self
            }),
            Err(fault) => Err(fault),
        }
    }
}

impl fmt::Display for Tally {
    fn fmt<W: fmt::Write>(&self, f: &mut fmt::Formatter<W>) -> fmt::Result {
        let Tally {
            covered,
            still,
            moving,
            moved,
            conflicts,
            links,
            full,
        } = self;
        write!(
            f,
            "posts: {covered} covered, {still} that moved nothing, {moving} that moved {moved} points in all, \
            {conflicts} in conflict by {links} bounds in all, {full} with no place left"
        )
    }
}
