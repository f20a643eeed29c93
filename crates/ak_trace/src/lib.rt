//! The journal of a run: its entries, and the order of the C threads' turns that they tell; how a run ends, and how a check does.
//! Promises upward: a journal is a list of entries up to a limit that was reserved, and its order follows from the entries alone.
//! Stands on ak_words.
#![tactic(auto)]

mod endings;
mod entry;
pub mod how;
mod journal;
pub mod kind;
mod numbers;
mod order;
mod walk;

pub use endings::{End, TrapKind, Verdict};
pub use entry::Entry;
pub use journal::Journal;
pub use numbers::constants_are_the_numbers;
pub use order::{Answer, order_of_joined, order_of_worked_journals};
pub use walk::OrderWalk;
