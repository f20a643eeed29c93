//! What a journal that replays says of the flat machine's events, and a call that replays one.
//! Promises upward: at each barrier of a run no pinned object moves, each other slides down, and every handle keeps its bytes; and a journal
//! is of events that may come, which lead to what threads share and to each thread's stage, and make and try the turns that it tells of. So
//! a journal of checked code means what the source's run of its order means: what is printed, how it ends, and which rule of C is broken
//! first. `replay_run` comes to the output, the end and the report of a journal, and to nothing exactly where it is none of the code under
//! the settings.
//! Stands on flat_machine's calls, which are events, on world_rules for where contexts are, on ak_world's calls, on flat_simulation's laws
//! of barriers and of events, and on what lower_turns says of code.
#![tactic(auto)]

mod driver;
pub mod laws;
mod replaying;

pub use replaying::{Final, replay_run};
