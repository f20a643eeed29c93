use thiserror::Error;

/// An access reaches an address that has no byte: the first such address.
#[derive(Clone, Copy, Debug, PartialEq, Eq, Error)]
#[error("no byte at address {0}")]
pub struct OutsideFlat(pub u64);
