//! The workers of a run: each has a pass of the shared world, and does what there is to do until the run is over.
//! Promises upward: when they return, each worker has seen that the run is over.
//! Stands on ak_world, flat_rules and `crossbeam_utils`.
#![tactic(auto)]

mod carrying;
mod gate;
mod idling;
mod running;
mod working;

pub use gate::{Gate, NoGate, Point};
pub use running::run;
