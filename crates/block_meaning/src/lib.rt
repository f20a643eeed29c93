//! The interpreter of the source: what a C program does, turn by turn, over named blocks.
//! Promises upward: each turn of a thread answers and leaves what the meaning of the source says, and one that comes to nothing leaves all as it was; what each turn touched is told.
//! A turn makes at most as many blocks as a function has declarations, and one.
//! Stands on c_meaning's definitions, on source_statements for what a turn does before its action, and on source_state for the actions.
#![tactic(auto)]

mod begin;
mod first;
mod perform;
mod running;
mod taking;
mod thread;
mod touch_list;
mod touches;
mod turn;

pub use block_store::Answer;
pub use running::{SourceRun, Turned};
pub use source_state::Reached;
