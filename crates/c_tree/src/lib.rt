//! The trees of a C program: as it is written, one node a production, and with its types; and how types are laid out in memory.
//! Promises upward: each tree as data without pointers; sizes and alignments are those of their definition; what a well formed typed tree is.
//! Stands on the words of C alone.
#![tactic(auto)]

pub mod copies;
pub mod syntax;
pub mod typed;
pub mod typed_laws;
pub mod typed_layout;

pub use syntax::Program;
pub use typed_layout::{align_of, size_of};
