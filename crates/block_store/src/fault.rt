ghost use Rattle.std.specs.Prelude.{◌≡◌};
ghost use Rattle.block_store.specs.declared.fault.StoreFault.TheVariants as faults;

use ak_words::{NoMemory, Rule};

/// Why no block was made in place of another.
#[derive(Clone, Copy, Debug, PartialEq, Eq)]
pub enum StoreFault {
    /// A rule of C is broken.
    Broke(Rule),
    /// Want of memory, which no clause ties to a cause.
    NoMemory,
}

impl From<NoMemory> for StoreFault {
    ghost from_gives = { λ _ fault. fault ≡ faults.NoMemory };

    fn from(_error: NoMemory) -> StoreFault {
        StoreFault::NoMemory
    }
}
