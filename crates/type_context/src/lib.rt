//! What stands before a node of a C program, as its names, tags, structs and locals; the first steps of each judgement; and what the parts of a node tell, gathered.
//! Promises upward: each call changes the context, or answers of it, as the definition of typing says; of two refusals the first is told.
//! Stands on c_typing's definitions, c_lex's refusals and c_tree's trees.
#![tactic(auto)]

pub mod context;
pub mod faults;
pub mod kinds;
pub mod layouts;
pub mod names;
pub mod outcomes;
pub mod words;
