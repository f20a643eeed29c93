//! What a walk from behind finds: the slots that are used later, and whether the acts keep them.

ghost use Rattle.std.specs.Prelude.{◌≡◌, ◌||◌, ◌&&◌, ℕ, IfOk};
ghost use Rattle.mark_sets.specs.Words.{has};

use crate::words::united;
use ak_words::NoMemory;
use std::alloc::Global;

/// What is used at or behind the start of a row, and whether each act keeps what is used behind it.
#[derive(Drop)]
pub struct Walked {
    /// The slots.
    pub on: Vec<u64>,
    /// Whether they are kept: then each is available where it is used later.
    pub kept: bool,
}

/// Whether both are so.
pub fn both(a: bool, b: bool) -> bool
    ensures { result ≡ (a && b) }
{
    a && b
}

/// What either has found; all is kept if it is in both.
pub fn both_walked(one: Walked, other: Walked) -> Walked
    ensures used { (i : ℕ) → has result.on.items i ≡ (has one.on.items i || has other.on.items i) }
    ensures kept { result.kept ≡ (one.kept && other.kept) }
{
    Walked {
        on: united(one.on, other.on),
        kept: both(one.kept, other.kept),
    }
}

/// Where control leaves a row: what is used is what is used where it goes, and nothing is left to keep.
///
/// # Errors
///
/// Only want of memory.
pub fn led_to(alloc: Global, on: &[u64]) -> Result<Walked, NoMemory>
    ensures { IfOk result (λ w. w.on.items ≡ on.now) }
{
    Ok(Walked {
        on: on.to_vec(alloc)?,
        kept: true,
    })
}
