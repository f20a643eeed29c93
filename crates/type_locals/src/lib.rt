//! What a function's locals become in the typed tree: the block round a `for` that declares several, which of them are in memory, and the numbers
//! that all get once the function's whole body is known.
//! Promises upward: the loop and the function of the typed tree, as the definition of typing has them.
//! Stands on c_typing's definitions and on c_tree.
#![tactic(auto)]

pub mod boxes;
pub mod headers;
pub mod locals;
mod marks;
pub mod numbering;
