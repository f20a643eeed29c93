//! The checker of pins, which trusts none of the passes before it.
//! Promises upward: code is accepted exactly where it is safe for moves, and else the first node that isn't is named, with why.
//! Stands on structured code and on the states of marks over its paths.
#![tactic(auto)]

pub mod checked;
pub mod checking;
pub mod fault;
mod found;
mod guards;
mod invalid;
mod kept;
pub mod laws;
mod pair;
mod reports;
mod search;

pub use checked::Checked;
pub use checking::check;
pub use fault::{CheckFault, Why};
