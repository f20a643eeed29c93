//! Loading a code file: its bytes are read, each call gets the list of the safepoint before it, and the code is judged and checked again.
//! Promises upward: `load` gives the code that the bytes spell, checked, exactly where they are a code file and its code is safe for moves; else
//! where the bytes are bad, or which node fails first.
//! Stands on the formats of code files, on struct_ir's valid code and on the checker of pins, which trusts no file.
#![tactic(auto)]

mod aligned;
mod filling;
pub mod laws;
mod loading;
mod plain;
mod refusal;

pub use loading::{LoadFault, load};
