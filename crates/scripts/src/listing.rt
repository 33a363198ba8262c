// The listing of a script: the answer to each of its lines.
ghost use Rattle.std.specs.Prelude.{◌≡◌, ◌*◌, ◌+◌, ◌≤◌, ℕ, ℤ, List, length, drop, IfOk};
ghost use Rattle.plans.specs.Plans.{state_of};
ghost use Rattle.scripts.specs.Commands.{CommandOf};
ghost use Rattle.scripts.specs.Lines.{script_lines};
ghost use Rattle.scripts.specs.Listings.{Written, Listed, OneListing};
ghost use Rattle.scripts.specs.Planned.{PlanWritten, Planned, Begun, LineBegun};
ghost use Rattle.scripts.specs.Ready.{Ready, ShortParts};
ghost use Rattle.scripts.specs.Sessions.{TriesLeave, new_plan};

use crate::answer::Answer;
use crate::asking::{LIST_LENGTH, answer, fault_answer, point_count};
use crate::command::Command;
use crate::fault::ScriptFault;
use crate::reader::command_at;
use crate::script::line_count;
use crate::text::{LINE_BYTES, put_line};
use books::Table;
use delays::{Delay, Ranked, Ticks};
use faults::Fault;
use plans::{Plan, PlanFault};

// The most bytes of a script.
const SCRIPT_BYTES: usize = 32_768;

// How far a listing is: where the next line begins, the number of the line that is answered next, and where the answer goes.
#[derive(Clone, Copy)]
struct Place {
    at: usize,
    number: usize,
    written: usize,
}

// Writes the listing of the lines from the place on, which are about a settled plan, and answers where it ends.
fn plan_lines<D: Delay>(
    plan: &mut Plan<D, Table>,
    list: &mut [u32; LIST_LENGTH],
    script: &[u8],
    start: Place,
    output: &mut [u8],
) -> usize
    requires parts { ShortParts D.kind }
    requires ready { Ready (state_of plan.now) }
    requires numbered { start.number + length (drop start.at script.now) ≤ 32769 }
    requires room { start.written + 64 * length (script_lines (drop start.at script.now)) ≤ length output.old }
    ensures { PlanWritten D.kind (state_of plan.old) script.now start output.old result output.new }
{
    let Place {
        mut at,
        mut number,
        mut written,
    } = start;
    'lines: while at < script.len() {
        let (said, end) = command_at(script, at);
        written = put_line(output, written, number, answer(plan, said, list));
        number += 1;
        at = end + 1;
    }
    written
}

// Settles a new plan for the line that opens it. Where it is settled, writes that line's answer and the whole rest of the listing, and answers where it
// ends; else writes nothing, and answers the refusal.
fn planned<D: Delay>(
    plan: &mut Plan<D, Table>,
    script: &[u8],
    place: Place,
    output: &mut [u8],
) -> Result<usize, Answer>
    requires parts { ShortParts D.kind }
    requires new { (points : ℤ) × (state_of plan.now ≡ new_plan points) }
    requires numbered { place.number + length (drop place.at script.now) ≤ 32768 }
    requires room { place.written + 64 + 64 * length (script_lines (drop place.at script.now)) ≤ length output.old }
    ensures { Planned D.kind (state_of plan.old) script.now place output.old output.new result }
{
    let mut list = [0; LIST_LENGTH];
    match plan.settle(&mut list) {
        Ok(count) => {
            let written = put_line(
                output,
                place.written,
                place.number,
                Answer::Settled { count },
            );
            let start = Place {
                at: place.at,
                number: place.number + 1,
                written,
            };
            Ok(plan_lines(plan, &mut list, script, start, output))
        }
        Err(fault) => Err(fault_answer(fault)),
    }
}

// These two hold the plan for as long as it lasts: it is large, and never moves.
#[inline(never)]
fn in_ticks(points: i64, script: &[u8], place: Place, output: &mut [u8]) -> Result<usize, Answer>
    requires numbered { place.number + length (drop place.at script.now) ≤ 32768 }
    requires room { place.written + 64 + 64 * length (script_lines (drop place.at script.now)) ≤ length output.old }
    ensures { Begun (Command.Ticks points) script.now place output.old output.new result }
{
    let mut plan = Plan::<Ticks, Table>::open(Table::new(), point_count(points), 0);
    planned(&mut plan, script, place, output)
}

#[inline(never)]
fn in_ranked(points: i64, script: &[u8], place: Place, output: &mut [u8]) -> Result<usize, Answer>
    requires numbered { place.number + length (drop place.at script.now) ≤ 32768 }
    requires room { place.written + 64 + 64 * length (script_lines (drop place.at script.now)) ≤ length output.old }
    ensures { Begun (Command.Ranked points) script.now place output.old output.new result }
{
    let mut plan = Plan::<Ranked, Table>::open(Table::new(), point_count(points), 0);
    planned(&mut plan, script, place, output)
}

// Answers a line that comes before there is a plan. Where it opens one it writes the whole rest of the listing too, and answers where it ends; else it
// writes nothing, and answers what the line is answered.
fn begin(command: Command, script: &[u8], place: Place, output: &mut [u8]) -> Result<usize, Answer>
    requires numbered { place.number + length (drop place.at script.now) ≤ 32768 }
    requires room { place.written + 64 + 64 * length (script_lines (drop place.at script.now)) ≤ length output.old }
    ensures { Begun command script.now place output.old output.new result }
{
    match command {
        Command::Ticks { points } => in_ticks(points, script, place, output),
        Command::Ranked { points } => in_ranked(points, script, place, output),
        Command::Post { bound: _ } | Command::Try { bound: _ } | Command::Read { point: _ } => {
            Err(fault_answer(PlanFault::Unsettled))
        }
    }
}

// The same by what the line says: a line that says no command opens no plan.
fn first_answer(
    said: Result<Command, ScriptFault>,
    script: &[u8],
    place: Place,
    output: &mut [u8],
) -> Result<usize, Answer>
    requires numbered { place.number + length (drop place.at script.now) ≤ 32768 }
    requires room { place.written + 64 + 64 * length (script_lines (drop place.at script.now)) ≤ length output.old }
    ensures { (line : List ℕ) → CommandOf line said → LineBegun line script.now place output.old output.new result }
{
    match said {
        Ok(command) => begin(command, script, place, output),
        Err(fault) => Err(Answer::Refused(Fault::from(fault))),
    }
}

// Writes the listing, for which there is room.
fn write_lines(script: &[u8], output: &mut [u8]) -> usize
    requires short { length script.now ≤ 32768 }
    requires room { 64 * length (script_lines script.now) ≤ length output.old }
    ensures written { Written script.now output.old output.new result }
    ensures fits { result ≤ length output.old }
{
    let mut at = 0;
    let mut number = 1;
    let mut written = 0;
    'lines: while at < script.len() {
        let (said, end) = command_at(script, at);
        at = end + 1;
        match first_answer(
            said,
            script,
            Place {
                at,
                number,
                written,
            },
            output,
        ) {
            Ok(length) => return length,
            Err(answer) => written = put_line(output, written, number, answer),
        }
        number += 1;
    }
    written
}

// Writes the listing of the script at the start of the output, and answers its length. Refused, with nothing written, where the script has more
// than 32,768 bytes or the output fewer than 64 bytes a line (14, place 0).
#[tactic(auto, using(crate::proofs::Once::one_listing, crate::proofs::Trying::tries_leave))]
pub fn list(script: &[u8], output: &mut [u8]) -> Result<usize, ScriptFault>
    ensures listed { Listed script.now output.old output.new result }
    ensures fits { IfOk result (λ n. n ≤ length output.old) }
    ensures one { OneListing script.now }
    ensures tries { TriesLeave }
{
    if script.len() > SCRIPT_BYTES || output.len() / LINE_BYTES < line_count(script) {
        return Err(ScriptFault::Room);
    }
    Ok(write_lines(script, output))
}
