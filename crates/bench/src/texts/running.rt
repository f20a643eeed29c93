//! Thread 0 of a C text is run alone by the interpreter of the source, as far as it comes.
ghost use Rattle.std.specs.Prelude.{◌≤◌, length};

use ak_words::NoMemory;
use alaska_run::{Reading, read};
use block_meaning::{Answer, SourceRun, Turned};
use c_lex::CompileFault;
use std::alloc::Global;
use std::io;
use std::time::Instant;

/// A run of this text that is about to begin.
pub fn run_of(alloc: Global, text: &[u8]) -> Result<SourceRun, CompileFault>
    requires { length text.now ≤ 1048576 }
{
    let Reading { tokens: _, typed } = read(alloc, text)?;
    match SourceRun::new(alloc, typed) {
        Ok(run) => Ok(run),
        Err(NoMemory) => Err(CompileFault::NoMemory),
    }
}

/// A turn of thread 0 under the answer that it takes; nothing where it doesn't run, or memory is wanting.
pub fn step(run: &mut SourceRun) -> Option<Turned> {
    if !run.runs(0) {
        return None;
    }
    match run.turn(0, Answer::Plain) {
        Ok(Turned::Unfit) => step_with(run, Answer::Got),
        Ok(turned) => Some(turned),
        Err(NoMemory) => None,
    }
}

// The same under this answer.
fn step_with(run: &mut SourceRun, answer: Answer) -> Option<Turned> {
    if run.runs(0) {
        run.turn(0, answer).ok()
    } else {
        None
    }
}

// How many turns thread 0 takes as far as the end of main, or as far as a turn that comes to nothing.
fn all_turns(run: &mut SourceRun) -> u64 {
    for before in 0..u64::MAX {
        match step(run) {
            Some(Turned::Went) => {}
            _ => return before + 1,
        }
    }
    u64::MAX
}

/// Runs thread 0 of a text, and prints how far it came; and its turns and how many microseconds they took, on standard error.
pub fn show_run(rt: &HostRuntime, text: &[u8]) -> io::Result<()>
    requires { length text.now ≤ 1048576 }
{
    let Ok(mut run) = run_of(rt.alloc(), text) else {
        return Err(io::Error::from(io::ErrorKind::InvalidData));
    };
    let start = Instant::now(rt)?;
    let turns = all_turns(&mut run);
    let micros = start.elapsed(rt)?.as_micros();
    println!(rt; "{turns} turns, {} blocks", run.made())?;
    println!(rt;
        "main ended: {}, with {} bytes of output",
        run.ended(0) == Some(0),
        run.output().len()
    )?;
    eprintln!(rt; "{turns} {micros}")
}
