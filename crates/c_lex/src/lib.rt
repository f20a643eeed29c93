//! The tokens of a text (C11 6.4).
//! Promises upward: the tokens of the text, each the longest at its place, or the text's one refusal.
//! Stands on ak_words.
#![tactic(auto)]

mod byte;
mod constant;
mod directive;
mod item;
pub mod laws;
mod lexer;
mod quoted;
pub mod refusal;
mod spelling;
pub mod token;

pub use lexer::{lex, literal};
pub use quoted::string_bytes;
pub use refusal::{CompileFault, Kind, Refusal};
pub use token::{Mark, Token, TokenKind, Word};
