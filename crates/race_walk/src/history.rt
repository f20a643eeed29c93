ghost use Rattle.std.specs.Prelude.{◌≡◌, ◌↔◌, ℕ, ◌<◌, ◌≤◌, true, IfOk, OnOk};
ghost use Rattle.std.specs.List.{list_any};
ghost use Rattle.std.specs.HashMap.{keys};
ghost use Rattle.race_rules.specs.Histories.{saw, saw_all, forgotten, Caught};
ghost use Rattle.race_rules.specs.Turns.{Has};
ghost use Rattle.race_walk.specs.Views.{told_by, clashes};

use crate::block::Block;
use race_rules::{Seen, Touch};
use std::alloc::{AllocError, Global};
use std::collections::HashMap;

/// What is kept of each cell of each block.
#[derive(Drop)]
pub struct History {
    /// By the number of the block.
    pub blocks: HashMap<u64, Block>,
}

impl History {
    ghost use Rattle.race_walk.specs.Seeing.{history_of};

    /// Notes a touch of a turn.
    pub fn see(
        &mut self,
        alloc: Global,
        turn: u64,
        thread: u32,
        touch: Touch,
        clock: &[u64],
    ) -> Result<(), AllocError>
        ensures { OnOk result ((b e : ℕ) → history_of self.new b e ≡ saw (told_by clock.now) turn thread touch (history_of self.old) b e) }
    {
        if !touch.kind.is_access() {
            return Ok(());
        }
        let block = match self.blocks.remove(&touch.block) {
            Some(block) => block,
            None => Block::new(alloc, touch.to),
        };
        let kind = touch.kind;
        let block = block.see(
            alloc,
            touch.from,
            touch.to,
            Seen { turn, thread, kind },
            clock,
        )?;
        self.blocks.insert(touch.block, block)?;
        Ok(())
    }

    /// Whether a touch clashes with something that was seen and that the clock doesn't know.
    pub fn catches(&self, touch: Touch, clock: &[u64]) -> bool
        ensures { (result ≡ true) ↔ ((c : ℕ) × (touch.from ≤ c) × (c < touch.to) × (list_any (clashes (told_by clock.now) touch.kind) (history_of self.now touch.block c) ≡ true)) }
    {
        match self.blocks.get(&touch.block) {
            Some(block) => block.catches(touch.from, touch.to, touch.kind, clock),
            None => false,
        }
    }

    /// Forgets what was seen of a block.
    pub fn forget(&mut self, block: u64)
        ensures { (b e : ℕ) → history_of self.new b e ≡ forgotten block (history_of self.old) b e }
    {
        self.blocks.remove(&block);
    }

    /// The blocks of which something is kept.
    pub fn blocks(&self, alloc: Global) -> Result<Vec<u64>, AllocError>
        ensures { IfOk result (λ all. all.items ≡ keys self.now.blocks) }
    {
        self.blocks.keys().copied().collect(alloc)
    }

    /// Notes the touches of a turn.
    pub fn see_all(
        &mut self,
        alloc: Global,
        turn: u64,
        thread: u32,
        touches: &[Touch],
        clock: &[u64],
    ) -> Result<(), AllocError>
        ensures { OnOk result ((b e : ℕ) → history_of self.new b e ≡ saw_all (told_by clock.now) turn thread touches.now (history_of self.old) b e) }
    {
        for touch in touches {
            self.see(alloc, turn, thread, *touch, clock)?;
        }
        Ok(())
    }

    /// Whether one of the touches clashes with something that was seen and that the clock doesn't know.
    pub fn catches_one(&self, touches: &[Touch], clock: &[u64]) -> bool
        ensures { (result ≡ true) ↔ Has (Caught (told_by clock.now) (history_of self.now)) touches.now }
    {
        for touch in touches {
            if self.catches(*touch, clock) {
                return true;
            }
        }
        false
    }
}
