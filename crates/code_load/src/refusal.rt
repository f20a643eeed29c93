//! Why code is not made of what a file spells.

ghost use Rattle.std.specs.Prelude.{◌≡◌};
ghost use Rattle.code_load.specs.declared.refusal.Refusal.TheVariants.{NoMemory as Lacks};

use ak_words::NoMemory;
use std::alloc::{AllocError, AllocFailed};

/// Why code is not made of what a file spells.
#[derive(Clone, Copy, Debug, PartialEq, Eq)]
pub enum Refusal {
    /// Want of memory, which no clause ties to a cause.
    NoMemory,
    /// A condition that code of a file meets fails.
    Unmet,
}

impl From<NoMemory> for Refusal {
    ghost from_gives = { λ _ refusal. refusal ≡ Lacks };

    fn from(_error: NoMemory) -> Refusal {
        Refusal::NoMemory
    }
}

impl From<AllocError> for Refusal {
    ghost from_gives = { λ _ refusal. refusal ≡ Lacks };

    fn from(_error: AllocError) -> Refusal {
        Refusal::NoMemory
    }
}

impl<T: Drop> From<AllocFailed<T>> for Refusal {
    ghost from_gives = { λ _ refusal. refusal ≡ Lacks };

    fn from(_error: AllocFailed<T>) -> Refusal {
        Refusal::NoMemory
    }
}
