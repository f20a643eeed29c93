//! A walk over the turns of threads that finds their first race.
//! Promises upward: exactly which turn is the first that races with an earlier one, the least turn that it races with, and the touches of both that are shown.
//! Stands on race_rules, and on `smallvec` for what is kept of a cell.
#![tactic(auto)]

mod block;
mod cells;
mod clock;
mod clocks;
mod found;
mod history;
mod rows;
mod second;
mod shown;
mod step;
mod walk;

pub use found::find_race;
pub use race_rules::{Seen, Touch, TouchKind};
pub use second::SecondTurn;
pub use step::{Found, Side, Step};
pub use walk::RaceWalk;
