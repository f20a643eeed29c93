//! An arena: objects behind handles, in sub-heaps, which a plan can move with their bytes.
//! Promises upward: an allocation has the least id and the lowest place, and across moves each id's object keeps its bytes at its address.
//! Stands on handle_table, sub_heaps, move_plan and flat_store for its parts, on handle_words, and on ak_words for want of memory.
#![tactic(auto)]

mod arena;
mod carrying;
mod laws;

pub use arena::Arena;
pub use arena_meaning::{Alloced, NotLive};
pub use laws::{objects_are_counted, storage_stays_consistent};
