//! Ways to run a program.

use ak_words::NoMemory;
use alaska_run::{Reading, read};
use block_meaning::{Answer, SourceRun, Turned};
use c_lex::CompileFault;
use std::alloc::Global;

/// A run of this text that is about to begin.
pub fn run_of(alloc: Global, text: &[u8]) -> Result<SourceRun, CompileFault> {
    if text.len() > 1048576 {
        return Err(CompileFault::NoMemory);
    }
    let Reading { tokens: _, typed } = read(alloc, text)?;
    match SourceRun::new(alloc, typed) {
        Ok(run) => Ok(run),
        Err(NoMemory) => Err(CompileFault::NoMemory),
    }
}

/// A turn of a thread that runs; nothing where it doesn't run, or memory is wanting.
pub fn step(run: &mut SourceRun, thread: u32, answer: Answer) -> Option<Turned> {
    if run.runs(thread) {
        run.turn(thread, answer).ok()
    } else {
        None
    }
}

/// A turn of a thread under the answer that it takes: Plain, else Got.
pub fn answered(run: &mut SourceRun, thread: u32) -> Option<Turned> {
    match step(run, thread, Answer::Plain) {
        Some(Turned::Unfit) => step(run, thread, Answer::Got),
        turned => turned,
    }
}

/// Thread 0 alone, as far as its end or a broken rule; nothing after this many turns.
pub fn alone(run: &mut SourceRun, turns: u32) -> Option<Turned> {
    for _ in 0..turns {
        let turned = answered(run, 0)?;
        if turned != Turned::Went {
            return Some(turned);
        }
    }
    None
}

/// What a text comes to, thread 0 alone; nothing after a thousand turns.
pub fn end_of(alloc: Global, text: &[u8]) -> Result<Option<Turned>, CompileFault> {
    let mut run = run_of(alloc, text)?;
    Ok(alone(&mut run, 1000))
}
