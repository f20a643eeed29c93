//! Tests of the crates at the bottom: numbers of C, sizes of types, the journal, and the shelf and the sink: callers that are proved from their
//! contracts, real files and streams, and such as fail.
//! Promises nothing upward: its tests see just the public calls of these crates.
//! Stands on them.
#![tactic(auto)]

#[cfg(test)]
mod tests;
