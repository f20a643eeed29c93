//! What the grammar says of a program that has a typed tree, and what is sized in one.
//! Promises upward: the typed tree of a file of the grammar is well formed; a struct that has a member, and an array that a pointer leads to, have sizes.
//! Stands on c_grammar's definition and c_typing's law of well formed trees.
#![tactic(auto)]

pub mod laws;
