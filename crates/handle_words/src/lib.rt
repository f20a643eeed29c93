//! Words that stand for objects that can move: a handle has the top bit, an id of 31 bits and an offset of 32.
//! Promises upward: a handle and its parts give each other back, and a sum with a handle never leaves its id.
//! Stands on std alone.
#![tactic(auto)]

mod word;

pub use word::{add, id, is_handle, make, offset};
