//! The threads that run.

ghost use Rattle.std.specs.Prelude.{◌≡◌, List, Option, IsSome, OnOk, length};
ghost use Rattle.block_store.specs.Runs.{own_at};
ghost use Rattle.c_meaning.specs.Control.{Control};
ghost use Rattle.block_meaning.specs.Running.{running_of};
ghost use Rattle.rule_check.specs.Seeded.{running};
ghost use Rattle.rule_check.specs.inner.Steps.{IsBehind};

use ak_words::NoMemory;
use block_meaning::SourceRun;

/// Lists the threads that were made and haven't ended, counted upwards, in a run in which main hasn't ended.
pub fn list_running(run: &SourceRun, threads: &mut Vec<u32>) -> Result<(), NoMemory>
    requires { IsSome (own_at (running_of run.now).state.own 0) }
    ensures { OnOk result (threads.new.items ≡ running (running_of run.now).state.own) }
{
    let Ok(made) = u32::try_from(run.threads()) else {
        return Err(NoMemory);
    };
    threads.clear();
    for thread in 0..made {
        if run.runs(thread) {
            threads.push(thread)?;
        }
    }
    Ok(())
}

/// Keeps that list behind a turn of a thread that ran, before which so many threads were made.
pub fn follow(
    run: &SourceRun,
    threads: &mut Vec<u32>,
    thread: u32,
    made: u64,
) -> Result<(), NoMemory>
    requires { IsSome (own_at (running_of run.now).state.own 0) }
    ensures { OnOk result ((before : List (Option Control)) → IsSome (own_at before thread) → made ≡ length before → IsBehind thread before (running_of run.now).state.own → threads.old.items ≡ running before → threads.new.items ≡ running (running_of run.now).state.own) }
{
    if run.threads() == made && run.runs(thread) {
        return Ok(());
    }
    list_running(run, threads)
}
