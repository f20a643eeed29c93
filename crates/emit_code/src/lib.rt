//! The machine's code: the instructions of each function of structured code.
//! Promises upward: the same is done in the same order, so that what holds of safe structured code holds of its linear code.
//! Stands on struct_ir's two codes, their one definition of control and its laws of codes that follow one another, and on checked code.
#![tactic(auto)]

pub mod checked;
pub mod emitting;
pub mod laws;
mod lengths;
mod puts;

pub use checked::emit;
pub use emitting::emit_code;
