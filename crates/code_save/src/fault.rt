//! Why code was not saved.

ghost use Rattle.std.specs.Prelude.{◌≡◌};
ghost use Rattle.code_save.specs.declared.fault.SaveFault.TheVariants as faults;

use ak_words::NoMemory;

/// Why code was not saved.
#[derive(Clone, Copy, Debug, PartialEq, Eq)]
pub enum SaveFault {
    /// Nodes are nested deeper than 1,024.
    TooDeep,
    /// The file would have more than 67,108,864 bytes.
    TooLong,
    /// Want of memory, which no clause ties to a cause.
    NoMemory,
}

impl From<NoMemory> for SaveFault {
    ghost from_gives = { λ _ fault. fault ≡ faults.NoMemory };

    fn from(_error: NoMemory) -> SaveFault {
        SaveFault::NoMemory
    }
}
