//! The machine's threads: programs as they are loaded, contexts, and what a thread does alone.
//! Promises upward: `local` takes a context to where flat_meaning says that its thread stops, and each other call of a context changes it
//! as its clause says.
//! Stands on flat_meaning for what code means, on flat_words for words, and on handle_table for pin slots.
#![tactic(auto)]

mod alone;
mod before;
mod call;
mod calls;
mod context;
mod flat;
mod flattening;
mod laws;
mod pinning;
mod placed;
mod program;
mod running;
mod targets;
mod wait;

pub use alone::local;
pub use context::Context;
pub use laws::{contexts_go_on, local_ignores_settings};
pub use placed::taken;
pub use program::Program;
pub use targets::Target;
pub use wait::Wait;
