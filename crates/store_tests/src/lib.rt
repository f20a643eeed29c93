//! Tests of blocks, bytes, handles, objects, plans of moves, evacuations, the arena and the turn lock, and a caller of each crate that is proved
//! from its contracts alone.
//! Promises nothing upward: its tests see just the public calls of these crates.
//! Stands on them, and on what they stand on.
#![tactic(auto)]

#[cfg(test)]
mod tests;
