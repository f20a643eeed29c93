//! Where a run of the source is: its blocks, what its threads share and each action on it, what is left to do in a call, and the call's locals.
//! Promises upward: blocks and locals lead back to where they were kept last; an action gives what the table of the actions says, and one that comes to nothing changes nothing; each frame is that of the meaning of the source.
//! Stands on block_store for the actions' meaning, on c_meaning's definitions, and on source_tree for trees.
#![tactic(auto)]

mod acting;
pub mod control;
pub mod frames;
mod kept;
mod locals;
pub mod operations;
mod plain;
mod reached;
mod world;

pub use kept::KeptStore;
pub use locals::{Locals, Variable};
pub use world::{Done, Printed, Reached, SharedAction, Stage, ThreadRecord, World};
