//! Code files: which bytes spell the code of a program, which conditions that has to meet, and how they are read.
//! Promises upward: each code has one spelling; `read_code` gives the code that bytes spell, or where the longest front ends that begins one; code
//! that was placed is told without the lists of its calls.
//! Stands on struct_ir's code and the formats of bytes.
#![tactic(auto)]

pub mod actions;
pub mod calcs;
mod fault;
pub mod laws;
pub mod nodes;
pub mod numbers;
mod raw;
mod reading;

pub use fault::Fault;
pub use raw::{RawCode, RawFunc};
pub use reading::{ReadFault, read_code};
