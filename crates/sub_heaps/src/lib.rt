//! Objects of rounded sizes in sub-heaps that stand one after the other, none overlapping another; and moves of objects.
//! Promises upward: a place is the lowest at which the object fits, and none comes only where it fits nowhere.
//! Stands on ak_words, for want of memory.
#![tactic(auto)]

mod balance;
mod changes;
mod moves;
mod objects;
mod placement;
mod reader;
mod search;
mod summary;
mod tree;
mod walk;

pub use moves::Move;
pub use objects::Object;
pub use placement::Heaps;
pub use reader::Reader;
