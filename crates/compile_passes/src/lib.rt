//! The passes over structured code, one after the other, down to the machine's code.
//! Promises upward: valid code without Looks gives linear code that is safe for moves, of structured code that is the same once erased.
//! Stands on struct_ir, the four passes, the checker and the emitter.
#![tactic(auto)]

pub mod compiling;

pub use compiling::{Compiled, compile, prepare};
