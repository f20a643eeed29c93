//! Safepoints, and the lists of pin slots that they hold.
//! Promises upward: placed code is the same once erased, its lists are exact, and covered code is safe for moves.
//! Stands on structured code and its flow.
#![tactic(auto)]

pub mod laws;
pub mod listing;
pub mod lives;
pub mod placing;
pub mod seating;
mod together;
mod unlisted;

pub use placing::{place, place_owned};
