//! Tests of the interpreter of the source, over trees and over C texts, of the call that compiles a text, and of what stands around a run; a caller of
//! each crate of the interpreter, of race_check, of structured code, the lowering and the passes that is proved from its contracts alone; and worked rows of
//! small codes.
//! Promises nothing upward: its tests see just the public calls of these crates, and its contracts are what they are for. The program rows tells the
//! listings of texts, and walks random codes.
//! Stands on these crates, on alaska_run, and on the shelves and sinks of ak_io that keep all in memory.
#![tactic(auto)]

pub mod order_runs;
pub mod passing;
pub mod race_checks;
pub mod reading;
pub mod rows;
#[cfg(test)]
mod tests;
