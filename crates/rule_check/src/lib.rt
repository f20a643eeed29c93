//! The check of a C program: its source's run in a seeded order, up to the first rule that it breaks.
//! Promises upward: a report's order is the seeded one, its verdict stands exactly where the run of that order comes to what it says, and its output is
//! that run's.
//! Stands on block_meaning, which does the turns, and on flat_rules for the draws.
#![tactic(auto)]

mod checking;
mod choosing;
pub mod laws;
mod report;
mod threads;

pub use ak_trace::Verdict;
pub use block_store::Answer;
pub use checking::rule_check;
pub use report::RuleReport;
