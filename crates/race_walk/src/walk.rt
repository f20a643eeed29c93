ghost use Rattle.std.specs.Prelude.{◌≡◌, ◌+◌, ◌<◌, ◌^◌, true, IfOk, List, slice_get, Some};
ghost use Rattle.std.specs.HashMap.{hash_map_len, keys};
ghost use Rattle.race_rules.specs.Turns.{Turn};
ghost use Rattle.race_rules.specs.Histories.{StillTouched};
ghost use Rattle.race_walk.specs.Views.{this_turn};

use crate::clocks::Clocks;
use crate::history::History;
use crate::second::SecondTurn;
use race_rules::Touch;
use std::alloc::{AllocError, Global};
use std::collections::HashMap;

/// A walk over turns, up to the first that is the second of a race.
#[derive(Drop)]
pub struct RaceWalk {
    /// How many turns were walked.
    pub turns: u64,
    /// What is known.
    pub clocks: Clocks,
    /// What is kept of the touches.
    pub history: History,
    /// Room for the clock of a turn.
    pub spare: Vec<u64>,
}

impl RaceWalk {
    ghost use Rattle.race_walk.specs.Walking.{IsAfter, Finds};
    ghost use Rattle.race_walk.specs.Seconds.{IsTurnOf};

    /// A walk that has seen no turn.
    pub fn new(alloc: Global) -> Self
        ensures after { (ts : List Turn) → IsAfter ts result }
        ensures count { result.turns ≡ 0 }
    {
        RaceWalk {
            turns: 0,
            clocks: Clocks {
                threads: HashMap::new(alloc),
                started: HashMap::new(alloc),
                released: HashMap::new(alloc),
                written: HashMap::new(alloc),
            },
            history: History {
                blocks: HashMap::new(alloc),
            },
            spare: Vec::new(alloc),
        }
    }

    /// Takes the next turn: whether it is the second of a race. Where it isn't, the walk goes on.
    pub fn turn(
        &mut self,
        alloc: Global,
        thread: u32,
        touches: &[Touch],
    ) -> Result<bool, AllocError>
        requires { self.old.turns + 1 < 2 ^ 64 }
        ensures finds { IfOk result (λ raced. (ts : List Turn) → IsAfter ts self.old → slice_get ts self.old.turns ≡ Some (this_turn thread touches.now) → Finds ts raced self.old self.new) }
        ensures room { IfOk result (λ raced. raced ≡ true → self.new.turns + 1 < 2 ^ 64) }
    {
        self.clocks
            .set_clock(&mut self.spare, self.turns, thread, touches)?;
        if self.history.catches_one(touches, self.spare.as_slice()) {
            return Ok(true);
        }
        self.history
            .see_all(alloc, self.turns, thread, touches, self.spare.as_slice())?;
        self.clocks.finish(alloc, thread, &mut self.spare, touches)?;
        self.turns += 1;
        Ok(false)
    }

    /// The next turn with its clock, which tells the earlier turns that race with it.
    pub fn second(
        &self,
        alloc: Global,
        thread: u32,
        touches: &[Touch],
    ) -> Result<SecondTurn, AllocError>
        requires { self.now.turns + 1 < 2 ^ 64 }
        ensures number { IfOk result (λ s. s.turn ≡ self.now.turns) }
        ensures turn { IfOk result (λ s. (ts : List Turn) → IsAfter ts self.now → slice_get ts self.now.turns ≡ Some (this_turn thread touches.now) → IsTurnOf ts s) }
    {
        let turn = self.turns;
        let mut clock = Vec::new(alloc);
        self.clocks.set_clock(&mut clock, turn, thread, touches)?;
        let touches = touches.to_vec(alloc)?;
        Ok(SecondTurn {
            turn,
            thread,
            touches,
            clock,
        })
    }

    /// How many blocks it remembers.
    pub fn remembered(&self) -> usize
        ensures { result ≡ hash_map_len self.now.history.blocks }
    {
        self.history.blocks.len()
    }

    /// The blocks that it remembers, each once.
    pub fn blocks(&self, alloc: Global) -> Result<Vec<u64>, AllocError>
        ensures { IfOk result (λ all. all.items ≡ keys self.now.history.blocks) }
    {
        self.history.blocks(alloc)
    }

    /// Forgets a block: the walk stays one of these turns where no later one reads or writes it.
    pub fn forget(&mut self, block: u64)
        ensures after { (ts : List Turn) → IsAfter ts self.old → (StillTouched ts self.old.turns block → ⊥) → IsAfter ts self.new }
        ensures count { self.new.turns ≡ self.old.turns }
    {
        self.history.forget(block);
    }
}
