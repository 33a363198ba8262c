// What a plan answers to the lines about it.
ghost use Rattle.std.specs.Prelude.{◌≡◌, ℕ, List};
ghost use Rattle.bounds.specs.Making.{row_of};
ghost use Rattle.delays.specs.Kind.{Kind};
ghost use Rattle.plans.specs.Plans.{state_of, post_answer, read_answer};
ghost use Rattle.scripts.specs.declared.command.Command.TheVariants.{Post, Read};
ghost use Rattle.scripts.specs.Sessions.{of_fault, Told, Tried, Obeys, points_of};
ghost use Rattle.scripts.specs.Commands.{CommandOf};
ghost use Rattle.scripts.specs.Planned.{PlanAnswered};
ghost use Rattle.scripts.specs.Room.{ShortTime};
ghost use Rattle.scripts.specs.Ready.{Ready, ShortParts};

use crate::answer::Answer;
use crate::command::Command;
use crate::fault::ScriptFault;
use books::Book;
use bounds::Bound;
use delays::Delay;
use faults::Fault;
use plans::{Plan, PlanFault, Posted};

// The length of the list that is lent to each settle and post: it has room for each chain.
pub(crate) const LIST_LENGTH: usize = 128;

// A conflict has a letter of its own; another fault is told by its number, layer and place.
pub(crate) fn fault_answer(fault: PlanFault) -> Answer
    ensures says { result ≡ of_fault fault }
    ensures short { ShortTime result }
{
    match fault {
        PlanFault::Conflict { length: _ } => Answer::Conflict,
        other => Answer::Refused(Fault::from(ScriptFault::from(other))),
    }
}

// The answer to a line that posts.
fn posted_answer(outcome: Result<Posted, PlanFault>) -> Answer
    ensures says { (k : Kind) → Told k 0 (post_answer outcome) result }
    ensures short { ShortTime result }
{
    match outcome {
        Ok(Posted::Covered) => Answer::Covered,
        Ok(Posted::Moved { count }) => Answer::Moved { count },
        Err(fault) => fault_answer(fault),
    }
}

// The answer to a line that reads the point.
fn time_answer<D: Delay>(point: u16, outcome: Result<D, PlanFault>) -> Answer
    requires parts { ShortParts D.kind }
    ensures says { Told D.kind point (read_answer D.means outcome) result }
    ensures short { ShortTime result }
{
    match outcome {
        Ok(time) => {
            let (t, s) = time.parts();
            Answer::Time { point, t, s }
        }
        Err(fault) => fault_answer(fault),
    }
}

// Posts the bound between a mark and a back.
fn try_bound<D: Delay, B: Book>(
    plan: &mut Plan<D, B>,
    bound: Bound,
    list: &mut [u32; LIST_LENGTH],
) -> Result<Posted, PlanFault>
    requires ready { Ready (state_of plan.now) }
    ensures tried { Tried D.kind (state_of plan.old) (row_of bound) (post_answer result) (state_of plan.new) }
    ensures ready { Ready (state_of plan.new) }
{
    let slip = plan.mark()?;
    let outcome = plan.post(bound, list);
    plan.back(slip)?;
    outcome
}

// Carries out a command to a settled plan, and answers it.
fn obey<D: Delay, B: Book>(
    plan: &mut Plan<D, B>,
    command: Command,
    list: &mut [u32; LIST_LENGTH],
) -> Answer
    requires parts { ShortParts D.kind }
    requires ready { Ready (state_of plan.now) }
    ensures obeys { Obeys D.kind (state_of plan.old) command result (state_of plan.new) }
    ensures ready { Ready (state_of plan.new) }
    ensures short { ShortTime result }
{
    match command {
        Command::Ticks { points: _ } | Command::Ranked { points: _ } => fault_answer(
            PlanFault::SettledAlready,
        ),
        Command::Post { bound } => posted_answer(plan.post(bound, list)),
        Command::Try { bound } => posted_answer(try_bound(plan, bound, list)),
        Command::Read { point } => time_answer(point, plan.read(usize::from(point))),
    }
}

// The answer to a line about a settled plan, by what it says: a line that says no command changes nothing.
pub(crate) fn answer<D: Delay, B: Book>(
    plan: &mut Plan<D, B>,
    said: Result<Command, ScriptFault>,
    list: &mut [u32; LIST_LENGTH],
) -> Answer
    requires parts { ShortParts D.kind }
    requires ready { Ready (state_of plan.now) }
    ensures answered { (line : List ℕ) → CommandOf line said → PlanAnswered D.kind (state_of plan.old) line result (state_of plan.new) }
    ensures ready { Ready (state_of plan.new) }
    ensures short { ShortTime result }
{
    match said {
        Ok(command) => obey(plan, command, list),
        Err(fault) => Answer::Refused(Fault::from(fault)),
    }
}

// There can't be fewer than no points, and a plan of none is refused.
pub(crate) fn point_count(points: i64) -> usize
    ensures { result ≡ points_of points }
{
    usize::try_from(points).unwrap_or(0)
}
