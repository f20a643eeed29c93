//! What is told of a run of the machine.
//! Promises upward: plain data, with which the machine answers and from which the report is written.
//! Stands on std alone.
#![tactic(auto)]

mod report;

pub use report::{LastBarrier, Report};
