//! Typing of a C program: the walk over expressions, types, declarations, statements, functions and the file, judged where they stand in the text.
//! Promises upward: `check` gives the typed tree that the definition of typing gives, or the first refusal, as does each call for its part, with the context that is left.
//! Stands on c_typing's definitions, on type_context and type_declared for what stands before a node, and on type_nodes for what a node is.
#![tactic(auto)]

pub mod declarations;
pub mod declarators;
mod definitions;
mod enums;
pub mod expressions;
pub mod files;
mod globals;
mod makers;
mod outcomes;
mod parameters;
mod parts;
mod simples;
pub mod statements;
mod switches;
mod typedefs;

pub use files::check;
