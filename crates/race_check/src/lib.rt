//! The check of an order of a C program's turns for races: the first race of the turns that a journal tells, or the rule that the last of them breaks.
//! Promises upward: each answer stands exactly where the definitions say: of all races the one that is told is the first, and a rule is told only where no
//! turns race.
//! Stands on block_meaning, which does the turns and says what each touched, and on race_walk, which tells where a race ends.
#![tactic(auto)]

mod answers;
mod checking;
mod ending;
mod finding;
mod forgetting;
pub mod laws;
mod walking;

pub use ak_trace::Journal;
pub use ak_words::Rule;
pub use checking::race_check;
pub use ending::{RaceEnd, Side};
