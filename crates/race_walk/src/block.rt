ghost use Rattle.std.specs.Prelude.{◌≡◌, ◌↔◌, ℕ, ◌<◌, ◌≤◌, ◌&&◌, [], nat_le, nat_lt, true, IfOk, slice_get, if◌then◌else◌};
ghost use Rattle.std.specs.List.{list_any};
ghost use Rattle.race_rules.specs.Histories.{noted};
ghost use Rattle.race_walk.specs.Views.{told_by, cell_of, clashes};

use crate::cells::{Entries, catches, catches_any, grow, note, note_all, spread};
use race_rules::{Seen, TouchKind};
use std::alloc::{AllocError, Global};

/// What is kept of the cells of a block.
#[derive(Drop)]
pub enum Block {
    /// Each touch was of just these first cells: the same is kept of each of them.
    Whole { count: u32, seen: Entries },
    /// This is kept of each cell.
    Cells(Vec<Entries>),
}

impl Block {
    ghost use Rattle.race_walk.specs.Blocks.{seen_in};

    /// A block of which nothing is kept; its first touch is of so many first cells, where it is of the first.
    pub fn new(alloc: Global, count: u32) -> Self
        ensures { (c : ℕ) → seen_in result c ≡ [] }
    {
        Block::Whole {
            count,
            seen: Entries::new(alloc),
        }
    }

    /// Notes what is seen at some of the cells, each of which is kept by itself.
    fn with_cells(
        alloc: Global,
        mut cells: Vec<Entries>,
        from: u32,
        to: u32,
        seen: Seen,
        clock: &[u64],
    ) -> Result<Self, AllocError>
        ensures { IfOk result (λ b. (c : ℕ) → seen_in b c ≡ (if nat_le from c && nat_lt c to then noted (told_by clock.now) seen (cell_of (slice_get cells.items c)) else cell_of (slice_get cells.items c))) }
    {
        grow(alloc, &mut cells, to as usize)?;
        note_all(&mut cells, from, to, seen, clock)?;
        Ok(Block::Cells(cells))
    }

    /// Notes what is seen at some of the cells.
    #[tactic(auto, using(crate::proofs::Blocks::whole_seen, crate::proofs::Blocks::split_seen))]
    pub fn see(
        self,
        alloc: Global,
        from: u32,
        to: u32,
        seen: Seen,
        clock: &[u64],
    ) -> Result<Self, AllocError>
        ensures { IfOk result (λ b. (c : ℕ) → seen_in b c ≡ (if nat_le from c && nat_lt c to then noted (told_by clock.now) seen (seen_in self c) else seen_in self c)) }
    {
        match self {
            Block::Whole {
                count,
                seen: mut all,
            } => {
                if from == 0 && to == count {
                    note(&mut all, seen, clock)?;
                    return Ok(Block::Whole { count, seen: all });
                }
                let cells = spread(alloc, count, all.as_slice())?;
                Block::with_cells(alloc, cells, from, to, seen, clock)
            }
            Block::Cells(cells) => Block::with_cells(alloc, cells, from, to, seen, clock),
        }
    }

    /// Whether something was seen at one of the cells that clashes with this kind, and that the clock doesn't know.
    pub fn catches(&self, from: u32, to: u32, kind: TouchKind, clock: &[u64]) -> bool
        ensures { (result ≡ true) ↔ ((c : ℕ) × (from ≤ c) × (c < to) × (list_any (clashes (told_by clock.now) kind) (seen_in self.now c) ≡ true)) }
    {
        match self {
            Block::Whole { count, seen } => {
                from < to && from < *count && catches(seen.as_slice(), kind, clock)
            }
            Block::Cells(cells) => catches_any(cells.as_slice(), from, to, kind, clock),
        }
    }
}
