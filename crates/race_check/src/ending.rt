//! What is told of an order.

use ak_words::Rule;

/// One of the two turns of a race.
#[derive(Clone, Copy, Debug, PartialEq, Eq)]
pub struct Side {
    /// Its thread.
    pub thread: u32,
    /// Where in the text the touch stands that is shown, as a byte offset from 0.
    pub place: u32,
    /// Its number, from 0.
    pub turn: u64,
}

/// What is told of an order.
#[derive(Clone, Copy, Debug, PartialEq, Eq)]
pub enum RaceEnd {
    /// No two turns race, and none breaks a rule.
    Clean,
    /// These two race, and they are the first that do.
    Race {
        /// The earlier turn.
        first: Side,
        /// The later one.
        second: Side,
    },
    /// No two turns race, and the next one breaks a rule.
    Broke {
        /// The rule.
        rule: Rule,
        /// How many turns were done before.
        turns: u64,
    },
}
