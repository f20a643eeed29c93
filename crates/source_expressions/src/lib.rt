//! How far an expression gets in a turn of a thread of the source, and what a call does once its arguments are there.
//! Promises upward: an expression, a place and the arguments of a call come to their value, or to what ends the turn, as the meaning of the source says.
//! Stands on c_meaning's definitions, source_tree, source_values, and source_state for work lists and actions.
#![tactic(auto)]

mod calls;
pub mod expressions;
pub mod operations;
mod printing;

pub use calls::{called, list_of};
