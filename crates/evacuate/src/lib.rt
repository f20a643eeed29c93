//! Which objects leave thin sub-heaps, so that fewer sub-heaps hold objects.
//! Promises upward: just the moves of its definition, which are legal; as many sub-heaps fewer hold an object as it answers.
//! Stands on sub_heaps for the objects, and on move_plan for pins and for what legal moves keep.
#![tactic(auto)]

mod emptying;
mod evacuating;
pub mod laws;
mod walks;

pub use evacuating::evacuate;
