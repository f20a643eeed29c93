//! Bytes at addresses from 4096 on, which the machine's loads, stores and copies reach.
//! Promises upward: an access reaches exactly its own bytes, or names the first address that has none.
//! Stands on ak_words, for want of memory.
#![tactic(auto)]

mod flat;
mod laws;
mod moving;
mod outside;

pub use flat::{FIRST_ADDRESS, Flat};
pub use laws::first_outside_is_the_least;
pub use outside::OutsideFlat;
