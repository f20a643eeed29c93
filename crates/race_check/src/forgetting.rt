//! What the walk forgets.
ghost use Rattle.std.specs.Prelude.{◌≡◌, ℕ, List, OnOk};
ghost use Rattle.block_meaning.specs.Running.{HasEnded, running_of};
ghost use Rattle.race_rules.specs.Turns.{Turn};
ghost use Rattle.race_rules.specs.Histories.{StillTouched};
ghost use Rattle.race_walk.specs.Walking.{IsAfter};

use ak_words::NoMemory;
use block_meaning::SourceRun;
use race_walk::RaceWalk;
use std::alloc::Global;

/// How many blocks are remembered before the first look for those that have ended.
pub const FIRST_LIMIT: usize = 1024;

/// Forgets the blocks that have ended in the run: the walk stays one of these turns where no later one reads or writes such a block.
fn forget_ended(alloc: Global, walk: &mut RaceWalk, run: &SourceRun) -> Result<(), NoMemory>
    ensures after { OnOk result ((ts : List Turn) → IsAfter ts walk.old → ((block : ℕ) → HasEnded (running_of run.now).state.world.blocks block → StillTouched ts walk.old.turns block → ⊥) → IsAfter ts walk.new) }
    ensures count { OnOk result (walk.new.turns ≡ walk.old.turns) }
{
    for block in walk.blocks(alloc)? {
        if run.has_ended(block) {
            walk.forget(block);
        }
    }
    Ok(())
}

/// The same where so many blocks are remembered, and else nothing; gives the number from which on it is to be done again: twice as
/// many as are then remembered.
pub fn forget_beyond(
    alloc: Global,
    walk: &mut RaceWalk,
    run: &SourceRun,
    limit: usize,
) -> Result<usize, NoMemory>
    ensures after { OnOk result ((ts : List Turn) → IsAfter ts walk.old → ((block : ℕ) → HasEnded (running_of run.now).state.world.blocks block → StillTouched ts walk.old.turns block → ⊥) → IsAfter ts walk.new) }
    ensures count { OnOk result (walk.new.turns ≡ walk.old.turns) }
{
    if walk.remembered() < limit {
        return Ok(limit);
    }
    forget_ended(alloc, walk, run)?;
    Ok(walk.remembered().saturating_mul(2).max(FIRST_LIMIT))
}
