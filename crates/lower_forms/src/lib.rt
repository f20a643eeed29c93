//! What each form of a typed tree is lowered to: registers, stack objects and nodes, as definitions.
//! Promises upward: laws of what is lowered, as contracts of functions that do nothing.
//! Stands on the typed tree, on how the source's meaning reads types, and on structured code.
#![tactic(auto)]

pub mod laws;
