//! What turns of threads touch, which turn is before which, and what a race is; and how clocks tell it.
//! Promises upward: the definitions of Before and of Race, that a turn's clock knows just what is before it, and that each race shows at its second turn.
//! Stands on std alone.
#![tactic(auto)]

pub mod laws;
mod touch;

pub use touch::{Seen, Touch, TouchKind};
