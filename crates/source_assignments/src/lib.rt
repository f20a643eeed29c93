//! How far declarations and assignments get in a turn of a thread of the source: locals begin and end, values are put into locals and stored, and expressions are evaluated whose value is dropped.
//! Promises upward: each comes to its end or to what ends the turn, as the meaning of the source says, and locals and blocks lead back to where they were kept.
//! Stands on c_meaning's definitions, on source_expressions, on source_state for locals and blocks, and on source_values for conversions and sizes.
#![tactic(auto)]

pub mod assignments;
mod behind_assignments;
mod exit;
pub mod locals;

pub use exit::Exit;
