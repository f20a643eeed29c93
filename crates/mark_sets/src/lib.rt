//! Many marks at once, as sets.
//! Promises upward: each mark's part of the sets is that mark's own state, and loops are gone through once; of each slot a set tells whether it is used later.
//! Stands on the flow of marks.
#![tactic(auto)]

pub mod from_behind;
pub mod gather;
pub mod heads;
pub mod homes;
pub mod laws;
pub mod marks;
pub mod pairs;
pub mod sets;
pub mod used;
pub mod words;
