//! The parser's state, what the next token begins, and the reading of single tokens.
//! Promises upward: each method of `Parser` gives the token that the reader of c_grammar takes, and leaves the tokens behind it; or it gives up as that refuses.
//! Stands on c_grammar's definition, c_lex's tokens and c_tree's trees.
#![tactic(auto)]

pub mod classes;
mod heads;
pub mod parser;
pub mod peeking;
mod reading_tokens;
