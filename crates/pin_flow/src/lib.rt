//! Where pin slots are available along the paths of structured code, and where they are used later.
//! Promises upward: states by marks are exact over all paths, and what is live is used.
//! Stands on structured code.
#![tactic(auto)]

pub mod copies;
pub mod flow;
pub mod laws;
pub mod mark;
pub mod programs;
pub mod rows;
pub mod seen;
pub mod slots;
pub mod state;
