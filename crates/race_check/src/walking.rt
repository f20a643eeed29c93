//! The walk over the turns up to the first that is the second of a race.
ghost use Rattle.std.specs.Prelude.{◌≡◌, IfOk};
ghost use Rattle.flat_meaning.specs.Journals.{journal_picks};
ghost use Rattle.block_meaning.specs.Running.{running_of};
ghost use Rattle.race_check.specs.inner.Steps.{Begins, HasRun, IsWalked};

use crate::answers::told;
use crate::forgetting::{FIRST_LIMIT, forget_beyond};
use ak_trace::Journal;
use ak_words::{NoMemory, Rule};
use block_meaning::{SourceRun, Turned};
use race_walk::{RaceWalk, SecondTurn};
use std::alloc::Global;

/// Where the walk ends.
#[derive(Drop)]
pub enum Walked {
    /// Behind the last turn.
    Clean,
    /// At the second turn of a race, which comes with its clock.
    Raced(SecondTurn),
    /// At a turn that breaks this rule, after so many.
    Broke { rule: Rule, turns: u64 },
}

/// Goes along the turns that a journal tells, from the start of a run on, up to the first that is the second of a race.
pub fn walk(alloc: Global, run: &mut SourceRun, journal: &Journal) -> Result<Walked, NoMemory>
    requires begins { Begins (running_of run.old) }
    requires has_run { HasRun (running_of run.old).typed (journal_picks journal.now.entries) }
    ensures walked { IfOk result (λ w. IsWalked (running_of run.old).typed (journal_picks journal.now.entries) w) }
    ensures program { (running_of run.new).typed ≡ (running_of run.old).typed }
{
    let mut walk = RaceWalk::new(alloc);
    let mut limit = FIRST_LIMIT;
    for (thread, answer) in journal.walk() {
        match run.turn(thread, told(answer))? {
            Turned::Went | Turned::Ended(_) => {
                let touches = run.touched();
                if walk.turns >= u64::MAX - 1 {
                    return Err(NoMemory);
                }
                if walk.turn(alloc, thread, touches)? {
                    let second = walk.second(alloc, thread, touches)?;
                    return Ok(Walked::Raced(second));
                }
                limit = forget_beyond(alloc, &mut walk, run, limit)?;
            }
            Turned::Broke(rule, _) => {
                let turns = walk.turns;
                return Ok(Walked::Broke { rule, turns });
            }
            Turned::Blocked | Turned::Unfit => unreachable!(),
        }
    }
    Ok(Walked::Clean)
}
