//! The parser of the whole language: statements, declarations and files.
//! Promises upward: the one file that the tokens of a text are, or the first refusal.
//! Stands on c_grammar's definition, c_lex's tokens, c_tree's trees, parse_tokens and parse_expressions.
#![tactic(auto)]

mod building;
mod declarations;
mod files;
mod parts;
mod starts;
mod statements;
mod whole;

pub use whole::parse;
