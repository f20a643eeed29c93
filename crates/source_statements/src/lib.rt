//! How far statements and work lists get in a turn of a thread of the source.
//! Promises upward: each comes to its end or to what ends the turn, as the meaning of the source says, and locals and blocks lead back to where they were kept.
//! Stands on c_meaning's definitions, on source_assignments and source_expressions for what statements are made of, and on source_state for work lists, locals and blocks.
#![tactic(auto)]

mod behind_statements;
mod labels;
mod resume;
mod scopes;
mod statements;
mod uses;

pub use resume::finish;
pub use statements::rounds;
pub use uses::give;
