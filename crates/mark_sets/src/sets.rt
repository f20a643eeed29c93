//! What all paths to a point say of many marks.

ghost use Rattle.std.specs.Prelude.{◌≡◌, ◌||◌, ℕ, Bool, true, IfOk};
ghost use Rattle.pin_flow.specs.Marks.{join, at, either, in_turn, state_of};
ghost use Rattle.mark_sets.specs.Sets.{state_at, ways_at};
ghost use Rattle.mark_sets.specs.Words.{has};
ghost use Rattle.mark_sets.specs.Views.{sets_view, ways_view, with_bad};

use crate::words::united;
use ak_words::NoMemory;
use std::alloc::Global;

/// What they say: none comes there, or these marks are those to which some says no.
#[derive(Drop)]
pub enum Sets {
    /// No path comes there.
    Nowhere,
    /// To these some path says no.
    Bads(Vec<u64>),
}

/// Where control leaves a row of nodes.
#[derive(Drop)]
pub struct SetWays {
    /// At its end.
    pub on: Sets,
    /// By a Break.
    pub broken: Sets,
    /// By a Next.
    pub next: Sets,
}

/// A copy of them.
///
/// # Errors
///
/// Only want of memory.
pub fn copied(alloc: Global, t: &Sets) -> Result<Sets, NoMemory>
    ensures { IfOk result (λ u. sets_view u ≡ sets_view t.now) }
{
    match t {
        Sets::Nowhere => Ok(Sets::Nowhere),
        Sets::Bads(bads) => Ok(Sets::Bads(bads.to_vec(alloc)?)),
    }
}

/// All paths that come by one way or by another.
pub fn joined(a: Sets, b: Sets) -> Sets
    ensures { (i : ℕ) → state_at i (sets_view result) ≡ join (state_at i (sets_view a)) (state_at i (sets_view b)) }
{
    match (a, b) {
        (Sets::Nowhere, u) => u,
        (t, Sets::Nowhere) => t,
        (Sets::Bads(f), Sets::Bads(g)) => Sets::Bads(united(f, g)),
    }
}

/// Control leaves at the end alone.
pub fn all_on(on: Sets) -> SetWays
    ensures { (i : ℕ) → ways_at i (ways_view result) ≡ at (state_at i (sets_view on)) }
{
    SetWays {
        on,
        broken: Sets::Nowhere,
        next: Sets::Nowhere,
    }
}

/// Control goes through the one row or through the other.
pub fn both_ways(a: SetWays, b: SetWays) -> SetWays
    ensures { (i : ℕ) → ways_at i (ways_view result) ≡ either (ways_at i (ways_view a)) (ways_at i (ways_view b)) }
{
    SetWays {
        on: joined(a.on, b.on),
        broken: joined(a.broken, b.broken),
        next: joined(a.next, b.next),
    }
}

/// Control goes through the one row and then through the other.
pub fn one_behind(a: SetWays, b: SetWays) -> SetWays
    ensures { (i : ℕ) → ways_at i (ways_view result) ≡ in_turn (ways_at i (ways_view a)) (ways_at i (ways_view b)) }
{
    SetWays {
        on: b.on,
        broken: joined(a.broken, b.broken),
        next: joined(a.next, b.next),
    }
}

/// The start of a loop's rounds, from what is before it and what a round adds.
///
/// # Errors
///
/// Only want of memory.
pub fn with_added(alloc: Global, t: Sets, added: &[u64]) -> Result<Sets, NoMemory>
    ensures { IfOk result (λ u. (i : ℕ) → state_at i (sets_view u) ≡ with_bad (has added.now i) (state_at i (sets_view t))) }
{
    match t {
        Sets::Nowhere => Ok(Sets::Nowhere),
        Sets::Bads(bads) => Ok(Sets::Bads(united(bads, added.to_vec(alloc)?))),
    }
}
