// Commands are read where they stand in a script.
ghost use Rattle.std.specs.Prelude.{◌≡◌, ◌≤◌, ◌<◌, [], ◌∷◌, length, slice_index_or, IfOk};
ghost use Rattle.std.specs.Result.{result_map_both};
ghost use Rattle.bounds.specs.declared.bound.Bound.{Bound as BoundType};
ghost use Rattle.scripts.specs.declared.command.Command.{Command as CommandType};
ghost use Rattle.scripts.specs.declared.command.Command.TheVariants.{Read as ReadCase};
ghost use Rattle.scripts.specs.Commands.{OpenCommand, BoundCommand, ReadCommand, CommandOf};
ghost use Rattle.scripts.specs.Cursor.{line_from, line_end as end_of_line, DigitsAt, NumberAt, NextAt, LastAt, NumbersAt, NumbersAfter};

use crate::command::{Command, GREATEST_POINT};
use crate::fault::ScriptFault;
use bounds::{Bound, BoundFault};
use lines::fault::LineFault;

// The most digits of a number.
const NUMBER_DIGITS: usize = 10;

// A number that was read, and the place after it.
#[derive(Clone, Copy)]
pub(crate) struct Read {
    value: i64,
    end: usize,
}

fn unreadable(field: u64) -> ScriptFault
    ensures { result ≡ ScriptFault.Line (LineFault.Unreadable field) }
{
    ScriptFault::Line(LineFault::Unreadable { field })
}

// The byte at the place, or a line feed at the end.
#[inline(always)]
fn byte_at(script: &[u8], at: usize) -> u8
    ensures { result ≡ slice_index_or script.now at 10 }
{
    if at < script.len() { script[at] } else { b'\n' }
}

// The end of the line, from a place in it.
pub(crate) fn line_end(script: &[u8], from: usize) -> usize
    requires { from ≤ length script.now }
    ensures { result ≡ end_of_line script.now from }
{
    let mut at = from;
    'line: while at < script.len() {
        if script[at] == b'\n' {
            return at;
        }
        at += 1;
    }
    at
}

// The number of the digits at the place, up to ten, and the place after them.
#[inline(always)]
fn digits(script: &[u8], first: usize) -> (u64, usize)
    requires { first ≤ length script.now }
    ensures { DigitsAt script.now first result.0 result.1 }
{
    let limit = script.len().min(first + NUMBER_DIGITS);
    let mut value = 0;
    let mut end = first;
    'digits: while end < limit {
        let b = script[end];
        if b < b'0' || b'9' < b {
            return (value, end);
        }
        value = value * 10 + u64::from(b - b'0');
        end += 1;
    }
    (value, end)
}

// The number at the place, as a field: an optional minus, and one to ten digits. What stands after it is not looked at.
#[inline(always)]
fn number(script: &[u8], first: usize) -> Option<Read>
    requires { first ≤ length script.now }
    ensures { NumberAt script.now first result }
{
    if byte_at(script, first) == b'-' {
        let (size, end) = digits(script, first + 1);
        if end <= first + 1 {
            return None;
        }
        return Some(Read {
            value: -(size as i64),
            end,
        });
    }
    let (size, end) = digits(script, first);
    if end <= first {
        return None;
    }
    Some(Read {
        value: size as i64,
        end,
    })
}

// The number in the field after the one at place `before`, which ends here.
#[inline(always)]
fn next(script: &[u8], at: usize, before: u64) -> Result<Read, ScriptFault>
    requires few { before < 9 }
    ensures { NextAt script.now at before result }
{
    match byte_at(script, at) {
        b' ' => match number(script, at + 1) {
            Some(read) => Ok(read),
            None => Err(unreadable(before + 1)),
        },
        b'\n' => Err(unreadable(before + 1)),
        _ => Err(unreadable(before)),
    }
}

// Nothing, where the line ends here with the field at place `before`.
#[inline(always)]
fn last(script: &[u8], at: usize, before: u64) -> Result<(), ScriptFault>
    requires few { before < 9 }
    ensures { LastAt script.now at before result }
{
    match byte_at(script, at) {
        b'\n' => Ok(()),
        b' ' => Err(unreadable(before + 1)),
        _ => Err(unreadable(before)),
    }
}

// The one number after a letter, and the end of its line.
#[inline(always)]
fn one_at(script: &[u8], at: usize) -> Result<(i64, usize), ScriptFault>
    ensures { NumbersAt 1 script.now at (result_map_both (λ p. (p.0 ∷ [], p.1)) (λ e. e) result) }
{
    let n = next(script, at, 0)?;
    last(script, n.end, 1)?;
    Ok((n.value, n.end))
}

// The four numbers after a letter, and the end of their line.
#[inline(always)]
fn four_at(script: &[u8], at: usize) -> Result<([i64; 4], usize), ScriptFault>
    ensures { NumbersAt 4 script.now at result }
{
    let left = next(script, at, 0)?;
    let right = next(script, left.end, 1)?;
    let t = next(script, right.end, 2)?;
    let s = next(script, t.end, 3)?;
    last(script, s.end, 4)?;
    Ok(([left.value, right.value, t.value, s.value], s.end))
}

// The bound after a letter, and the end of its line.
#[inline(always)]
fn bound_at(script: &[u8], at: usize) -> Result<(Bound, usize), ScriptFault>
    ensures says { (make : BoundType → CommandType) → NumbersAfter 4 (BoundCommand make) (line_from script.now at)
        (result_map_both (λ p. make p.0) (λ e. e) result) }
    ensures ends { IfOk result (λ p. p.1 ≡ end_of_line script.now at) }
{
    let ([left, right, t, s], end) = four_at(script, at)?;
    Ok((Bound::new(left, right, t, s)?, end))
}

// The point after a letter, and the end of its line.
#[inline(always)]
fn point_at(script: &[u8], at: usize) -> Result<(u16, usize), ScriptFault>
    ensures says { NumbersAfter 1 ReadCommand (line_from script.now at) (result_map_both (λ p. ReadCase p.0) (λ e. e) result) }
    ensures ends { IfOk result (λ p. p.1 ≡ end_of_line script.now at) }
{
    let (point, end) = one_at(script, at)?;
    if 0 <= point && point <= GREATEST_POINT {
        Ok((point as u16, end))
    } else {
        Err(ScriptFault::Bound(BoundFault::LeftPoint))
    }
}

// The command of the line that begins at the place, and the end of the line.
#[inline(always)]
fn said_at(script: &[u8], first: usize) -> Result<(Command, usize), ScriptFault>
    requires { first < length script.now }
    ensures says { CommandOf (line_from script.now first) (result_map_both (λ p. p.0) (λ e. e) result) }
    ensures ends { IfOk result (λ p. p.1 ≡ end_of_line script.now first) }
{
    match script[first] {
        b'T' => {
            let (points, end) = one_at(script, first + 1)?;
            Ok((Command::Ticks { points }, end))
        }
        b'R' => {
            let (points, end) = one_at(script, first + 1)?;
            Ok((Command::Ranked { points }, end))
        }
        b'P' => {
            let (bound, end) = bound_at(script, first + 1)?;
            Ok((Command::Post { bound }, end))
        }
        b'Q' => {
            let (bound, end) = bound_at(script, first + 1)?;
            Ok((Command::Try { bound }, end))
        }
        b'W' => {
            let (point, end) = point_at(script, first + 1)?;
            Ok((Command::Read { point }, end))
        }
        _ => Err(unreadable(0)),
    }
}

// The command of the line that begins at the place, or why it says none, and the end of the line.
#[inline(always)]
pub(crate) fn command_at(script: &[u8], first: usize) -> (Result<Command, ScriptFault>, usize)
    requires { first < length script.now }
    ensures says { CommandOf (line_from script.now first) result.0 }
    ensures ends { result.1 ≡ end_of_line script.now first }
{
    match said_at(script, first) {
        Ok((command, end)) => (Ok(command), end),
        Err(fault) => (Err(fault), line_end(script, first)),
    }
}
