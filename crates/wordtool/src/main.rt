// `wordtool write`, `wordtool read`, and `wordtool` alone: a listing of bounds to house words, back, and there and back.
#![tactic(auto)]

use anyhow::anyhow;
use listings::{Ending, Task, Tool};
use std::env;
use std::io::{Read, Write};

const PIECE: usize = 65_536;

// The task that the arguments name.
fn task(rt: &HostRuntime) -> anyhow::Result<Task> {
    let mut words = env::args(rt)?.skip(1);
    let first = words.next();
    if words.next().is_some() {
        return Err(anyhow!("one argument at most: write, read, or none for both"));
    }
    match first {
        Some(word) => Ok(word.as_str().parse::<Task>()?),
        None => Ok(Task::RoundTrip),
    }
}

// Prints what the tool answers to standard input, piece by piece, so that an input of any size needs no more memory.
fn answer(rt: &HostRuntime, task: Task) -> anyhow::Result<Ending> {
    let heap = rt.alloc();
    let mut tool = Tool::new(task);
    let mut piece = vec![in heap; 0u8; PIECE]?;
    let mut input = rt.stdin();
    let mut output = rt.stdout();
    for _ in 0..u64::MAX {
        let n = input.read(piece.as_mut_slice())?;
        if n == 0 {
            break;
        }
        let (next, text) = tool.feed(heap, &piece[0..n])?;
        tool = next;
        output.write_all(text.as_bytes())?;
    }
    Ok(tool.finish(heap)?)
}

// Ends with an error where a line was refused, so that a script need not read the last line.
fn work(rt: &HostRuntime) -> anyhow::Result<()> {
    let task = task(rt)?;
    let ending = answer(rt, task)?;
    let mut output = rt.stdout();
    output.write_all(ending.text.as_bytes())?;
    if ending.tally.refused > 0 {
        return Err(anyhow!("some lines were refused"));
    }
    Ok(())
}

fn main(rt: HostRuntime) -> anyhow::Result<()> {
    work(&rt)
}
