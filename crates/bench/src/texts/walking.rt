//! Thread 0 of a C text is run alone by the interpreter of the source, and what each of its turns touched is walked for races: what mode race does of a
//! journal of one thread, but for the journal.
ghost use Rattle.std.specs.Prelude.{◌≤◌, length};

use crate::texts::running::{run_of, step};
use block_meaning::{SourceRun, Turned};
use race_walk::RaceWalk;
use std::alloc::Global;
use std::io;
use std::time::Instant;

// Whether the walk took the last turn of thread 0, and it doesn't race.
fn is_walked(alloc: Global, walk: &mut RaceWalk, run: &SourceRun) -> bool {
    if walk.turns >= u64::MAX - 1 {
        return false;
    }
    match walk.turn(alloc, 0, run.touched()) {
        Ok(raced) => !raced,
        Err(_) => false,
    }
}

// How many turns thread 0 takes as far as the end of main, or as far as a turn that comes to nothing or isn't walked.
fn all_walked(alloc: Global, run: &mut SourceRun) -> u64 {
    let mut walk = RaceWalk::new(alloc);
    for before in 0..u64::MAX {
        match step(run) {
            Some(Turned::Went) => {
                if !is_walked(alloc, &mut walk, run) {
                    return before;
                }
            }
            _ => return before + 1,
        }
    }
    u64::MAX
}

/// Runs thread 0 of a text and walks its turns, and prints how far it came; and its turns and how many microseconds they took, on standard error.
pub fn show_walk(rt: &HostRuntime, text: &[u8]) -> io::Result<()>
    requires { length text.now ≤ 1048576 }
{
    let Ok(mut run) = run_of(rt.alloc(), text) else {
        return Err(io::Error::from(io::ErrorKind::InvalidData));
    };
    let start = Instant::now(rt)?;
    let turns = all_walked(rt.alloc(), &mut run);
    let micros = start.elapsed(rt)?.as_micros();
    println!(rt;
        "{turns} turns walked, main ended: {}",
        run.ended(0) == Some(0)
    )?;
    eprintln!(rt; "{turns} {micros}")
}
