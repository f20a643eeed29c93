//! What typing a C program is: the typed tree that it has, or all its faults, as definitions.
//! Promises upward: the laws of that definition (one tree or a least refusal; the tree is well formed) and worked rows.
//! Stands on c_lex's refusals and c_tree's trees.
#![tactic(auto)]

pub mod laws;
