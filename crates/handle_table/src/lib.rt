//! The table of the ids in use: a finite map from ids to addresses, and the translation of words by it; and pin slots.
//! Promises upward: a new id is the least free one, the pin words are those of the listed slots, and only the makers take memory.
//! Stands on handle_words for the parts of a handle, and on ak_words for want of memory.
#![tactic(auto)]

mod frame;
mod table;
mod words;

pub use frame::{PinFrame, PinSlot};
pub use table::Table;
pub use words::{PinWords, unite};
