//! The typed tree of a program with shared parts, so that any part of it is handed on in constant time.
//! Promises upward: the shared program that a typed one gives is, part by part, the same tree.
//! Stands on ak_words and on c_tree for the typed tree.
#![tactic(auto)]

mod copies;
mod share_exprs;
mod share_stmts;
pub mod tree;

pub use share_stmts::share;
