ghost use Rattle.std.specs.Prelude.{◌≡◌, ◌↔◌, ℕ, ◌<◌, ◌≤◌, ◌&&◌, [], nat_le, nat_lt, true, OnOk, IfOk, slice_get, vec_len, if◌then◌else◌};
ghost use Rattle.std.specs.List.{list_any};
ghost use Rattle.race_rules.specs.Histories.{noted};
ghost use Rattle.race_walk.specs.Views.{told_by, cell_of, clashes};

use crate::clock::known;
use race_rules::{Seen, TouchKind};
use smallvec::SmallVec;
use std::alloc::{AllocError, Global};

/// What is kept of a cell: mostly one touch.
pub type Entries = SmallVec<Seen, 1>;

/// Notes what is seen at a cell, and forgets what the clock knows and this outdoes.
pub fn note(cell: &mut Entries, seen: Seen, clock: &[u64]) -> Result<(), AllocError>
    ensures { OnOk result (cell.new.items ≡ noted (told_by clock.now) seen cell.old.items) }
{
    cell.retain(|old| !(seen.kind.outdoes(old.kind) && old.turn < known(clock, old.thread)));
    cell.push(seen)?;
    Ok(())
}

/// Whether something was seen at the cell that clashes with this kind, and that the clock doesn't know.
pub fn catches(cell: &[Seen], kind: TouchKind, clock: &[u64]) -> bool
    ensures { result ≡ list_any (clashes (told_by clock.now) kind) cell.now }
{
    cell.iter().any(|old| old.kind.clashes(kind) && known(clock, old.thread) <= old.turn)
}

/// Lets there be so many cells.
pub fn grow(alloc: Global, cells: &mut Vec<Entries>, count: usize) -> Result<(), AllocError>
    ensures same { OnOk result ((c : ℕ) → cell_of (slice_get cells.new.items c) ≡ cell_of (slice_get cells.old.items c)) }
    ensures room { OnOk result (count ≤ vec_len cells.new) }
{
    while cells.len() < count {
        cells.push(SmallVec::new(alloc))?;
    }
    Ok(())
}

/// So many cells, of each of which the same is kept.
#[tactic(auto, using(crate::proofs::Blocks::spread_step, crate::proofs::Blocks::spread_end))]
pub fn spread(alloc: Global, count: u32, all: &[Seen]) -> Result<Vec<Entries>, AllocError>
    ensures { IfOk result (λ cells. (c : ℕ) → cell_of (slice_get cells.items c) ≡ (if nat_lt c count then all.now else [])) }
{
    let mut cells = Vec::new(alloc);
    while cells.len() < count as usize {
        cells.push(SmallVec::from_slice(alloc, all)?)?;
    }
    Ok(cells)
}

/// Notes what is seen at each of the cells.
pub fn note_all(
    cells: &mut Vec<Entries>,
    from: u32,
    to: u32,
    seen: Seen,
    clock: &[u64],
) -> Result<(), AllocError>
    requires { to ≤ vec_len cells.old }
    ensures { OnOk result ((c : ℕ) → cell_of (slice_get cells.new.items c) ≡ (if nat_le from c && nat_lt c to then noted (told_by clock.now) seen (cell_of (slice_get cells.old.items c)) else cell_of (slice_get cells.old.items c))) }
{
    for cell in from..to {
        note(&mut cells[cell as usize], seen, clock)?;
    }
    Ok(())
}

/// Whether something was seen at one of the cells that clashes with this kind, and that the clock doesn't know.
pub fn catches_any(cells: &[Entries], from: u32, to: u32, kind: TouchKind, clock: &[u64]) -> bool
    ensures { (result ≡ true) ↔ ((c : ℕ) × (from ≤ c) × (c < to) × (list_any (clashes (told_by clock.now) kind) (cell_of (slice_get cells.now c)) ≡ true)) }
{
    for place in from..to {
        if let Some(cell) = cells.get(place as usize) {
            if catches(cell.as_slice(), kind, clock) {
                return true;
            }
        }
    }
    false
}
