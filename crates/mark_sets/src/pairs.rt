//! The same of each mark twice: of paths that begin with a yes, and of paths that begin with a no.

ghost use Rattle.std.specs.Prelude.{◌≡◌, ◌<◌, ◌||◌, if◌then◌else◌, ℕ, Bool, true, IfOk};
ghost use Rattle.pin_flow.specs.Marks.{join, at, either, in_turn, state_of, unreached, ways};
ghost use Rattle.mark_sets.specs.Sets.{state_at, ways_at};
ghost use Rattle.mark_sets.specs.Words.{has};
ghost use Rattle.mark_sets.specs.Views.{pairs_view, pair_ways_view, pair_has, with_bad, led_by, is_bad};

use crate::words::{chosen, full, united};
use ak_words::NoMemory;
use std::alloc::Global;

/// The marks to which some path says no.
#[derive(Drop)]
pub struct Pair {
    /// Of the paths that began with a yes.
    pub yes: Vec<u64>,
    /// Of the paths that began with a no.
    pub no: Vec<u64>,
}

/// What all paths to a point say, of those that began with a yes and of those that began with a no.
#[derive(Drop)]
pub enum Pairs {
    /// No path comes there.
    Nowhere,
    /// To these some path says no.
    Bads(Pair),
}

/// Where control leaves a row of nodes.
#[derive(Drop)]
pub struct PairWays {
    /// At its end.
    pub on: Pairs,
    /// By a Break.
    pub broken: Pairs,
    /// By a Next.
    pub next: Pairs,
}

/// A copy of them.
///
/// # Errors
///
/// Only want of memory.
pub fn copied(alloc: Global, t: &Pairs) -> Result<Pairs, NoMemory>
    ensures { IfOk result (λ u. pairs_view u ≡ pairs_view t.now) }
{
    match t {
        Pairs::Nowhere => Ok(Pairs::Nowhere),
        Pairs::Bads(bads) => {
            let yes = bads.yes.to_vec(alloc)?;
            let no = bads.no.to_vec(alloc)?;
            Ok(Pairs::Bads(Pair { yes, no }))
        }
    }
}

/// Where all paths begin: the marks below this say what they begin with.
///
/// # Errors
///
/// Only want of memory.
pub fn begun(alloc: Global, count: usize) -> Result<Pairs, NoMemory>
    ensures { IfOk result (λ u. (i : ℕ) (v : Bool) → i < count → state_at (i, v) (pairs_view u) ≡ state_of v) }
{
    let yes = Vec::new(alloc);
    let no = full(alloc, count)?;
    Ok(Pairs::Bads(Pair { yes, no }))
}

fn both(a: Pair, b: Pair) -> Pair
    ensures { (i : ℕ) (v : Bool) → pair_has result (i, v) ≡ (pair_has a (i, v) || pair_has b (i, v)) }
{
    Pair {
        yes: united(a.yes, b.yes),
        no: united(a.no, b.no),
    }
}

/// All paths that come by one way or by another.
pub fn joined(a: Pairs, b: Pairs) -> Pairs
    ensures { (i : ℕ) (v : Bool) → state_at (i, v) (pairs_view result) ≡ join (state_at (i, v) (pairs_view a)) (state_at (i, v) (pairs_view b)) }
{
    match (a, b) {
        (Pairs::Nowhere, u) => u,
        (t, Pairs::Nowhere) => t,
        (Pairs::Bads(f), Pairs::Bads(g)) => Pairs::Bads(both(f, g)),
    }
}

/// Control goes through the one row or through the other.
pub fn both_ways(a: PairWays, b: PairWays) -> PairWays
    ensures { (i : ℕ) (v : Bool) → ways_at (i, v) (pair_ways_view result) ≡ either (ways_at (i, v) (pair_ways_view a)) (ways_at (i, v) (pair_ways_view b)) }
{
    PairWays {
        on: joined(a.on, b.on),
        broken: joined(a.broken, b.broken),
        next: joined(a.next, b.next),
    }
}

/// Control goes through the one row and then through the other.
pub fn one_behind(a: PairWays, b: PairWays) -> PairWays
    ensures { (i : ℕ) (v : Bool) → ways_at (i, v) (pair_ways_view result) ≡ in_turn (ways_at (i, v) (pair_ways_view a)) (ways_at (i, v) (pair_ways_view b)) }
{
    PairWays {
        on: b.on,
        broken: joined(a.broken, b.broken),
        next: joined(a.next, b.next),
    }
}

/// Control goes through the row and then on to this.
pub fn on_to(a: PairWays, on: Pairs) -> PairWays
    ensures { (i : ℕ) (v : Bool) → ways_at (i, v) (pair_ways_view result) ≡ in_turn (ways_at (i, v) (pair_ways_view a)) (at (state_at (i, v) (pairs_view on))) }
{
    PairWays {
        on,
        broken: a.broken,
        next: a.next,
    }
}

/// Control goes through the row and then by a Break.
pub fn by_break(a: PairWays) -> PairWays
    ensures { (i : ℕ) (v : Bool) → ways_at (i, v) (pair_ways_view result) ≡ in_turn (ways_at (i, v) (pair_ways_view a)) (ways unreached (state_at (i, v) (pairs_view a.on)) unreached) }
{
    PairWays {
        on: Pairs::Nowhere,
        broken: joined(a.broken, a.on),
        next: a.next,
    }
}

/// Control goes through the row and then by a Next.
pub fn by_next(a: PairWays) -> PairWays
    ensures { (i : ℕ) (v : Bool) → ways_at (i, v) (pair_ways_view result) ≡ in_turn (ways_at (i, v) (pair_ways_view a)) (ways unreached unreached (state_at (i, v) (pairs_view a.on))) }
{
    PairWays {
        on: Pairs::Nowhere,
        broken: a.broken,
        next: joined(a.next, a.on),
    }
}

fn chosen_pair(alloc: Global, set: &Pair, by: &Pair) -> Result<Pair, NoMemory>
    ensures { IfOk result (λ p. (i : ℕ) (v : Bool) → pair_has p (i, v) ≡ (if pair_has set.now (i, v) then has by.now.no.items i else has by.now.yes.items i)) }
{
    let yes = chosen(alloc, &set.yes, &by.yes, &by.no)?;
    let no = chosen(alloc, &set.no, &by.yes, &by.no)?;
    Ok(Pair { yes, no })
}

/// What a row makes of this, by what it makes of a yes and of a no.
///
/// # Errors
///
/// Only want of memory.
pub fn through(alloc: Global, by: &Pairs, t: &Pairs) -> Result<Pairs, NoMemory>
    ensures { IfOk result (λ u. (i : ℕ) (v : Bool) → state_at (i, v) (pairs_view u) ≡ led_by (pairs_view by.now) i (state_at (i, v) (pairs_view t.now))) }
{
    match (by, t) {
        (Pairs::Bads(row), Pairs::Bads(set)) => Ok(Pairs::Bads(chosen_pair(alloc, set, row)?)),
        _ => Ok(Pairs::Nowhere),
    }
}

/// The start of a loop's rounds, from what is before it and what a round adds.
///
/// # Errors
///
/// Only want of memory.
pub fn with_added(alloc: Global, t: &Pairs, added: &[u64]) -> Result<Pairs, NoMemory>
    ensures { IfOk result (λ u. (i : ℕ) (v : Bool) → state_at (i, v) (pairs_view u) ≡ with_bad (has added.now i) (state_at (i, v) (pairs_view t.now))) }
{
    match t {
        Pairs::Nowhere => Ok(Pairs::Nowhere),
        Pairs::Bads(bads) => {
            let yes = united(bads.yes.to_vec(alloc)?, added.to_vec(alloc)?);
            let no = united(bads.no.to_vec(alloc)?, added.to_vec(alloc)?);
            Ok(Pairs::Bads(Pair { yes, no }))
        }
    }
}

/// What a round adds, from where it ends.
pub fn added(alloc: Global, on: Pairs) -> Vec<u64>
    ensures { (i : ℕ) → has result.items i ≡ is_bad (state_at (i, true) (pairs_view on)) }
{
    match on {
        Pairs::Nowhere => Vec::new(alloc),
        Pairs::Bads(bads) => bads.yes,
    }
}
