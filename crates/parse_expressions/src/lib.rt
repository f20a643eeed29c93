//! The parser of expressions, types and declarators.
//! Promises upward: each function gives the tree that the reader of c_grammar gives, and leaves the tokens behind it; or it gives up as that refuses.
//! Stands on c_grammar's definition, c_tree's trees and parse_tokens.
#![tactic(auto)]

pub mod boxes;
mod building;
pub mod expressions;
pub mod pointers;
pub mod types;
