//! Looks go out of loops.
//! Promises upward: hoisted, valid and covered code, with the same erasure and own slots.
//! Stands on structured code, its flow, and sets of marks.
#![tactic(auto)]

pub mod acting;
pub mod dropping;
pub mod hoisting;
pub mod laws;
pub mod lifting;

pub use hoisting::{hoist, hoist_owned};
