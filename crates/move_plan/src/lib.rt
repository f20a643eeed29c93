//! Plans of moves within the sub-heaps: the moves that slide unpinned objects down, and the room that they leave.
//! Promises upward: a slide's moves are legal and the only ones that slide; after them the longest gap is the room.
//! Stands on sub_heaps, and on ak_words for want of memory.
#![tactic(auto)]

mod legality;
mod moves;
mod pinned;
mod places;
mod rooms;
mod sliding;

pub use legality::is_legal;
pub use moves::Plan;
pub use pinned::Pins;
pub use rooms::room;
pub use sliding::{slide, slide_is_unique};
pub use sub_heaps::Move;
