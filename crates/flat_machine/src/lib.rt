//! The machine: what threads share, a call for each event of flat_meaning, and the machine as the rules of a run see it.
//! Promises upward: each call does just the event that its contract names, and what it chooses is a function of the state.
//! Stands on flat_threads for threads, on flat_rules for entries and rules, on defrag_move for objects that move, and on evacuate for which leave thin
//! sub-heaps.
#![tactic(auto)]

mod accesses;
mod acting;
mod allocating;
mod barriers;
mod done;
mod evacuating;
mod flat;
mod laws;
mod leaving;
mod loading;
mod locking;
mod made;
mod numbers;
mod pinning;
mod printing;
mod ready;
mod shared;
mod starting;
mod turned;

pub use acting::act;
pub use ak_trace::{End, TrapKind};
pub use barriers::barrier;
pub use evacuating::evacuation;
pub use flat_meaning::Stop;
pub use flat_rules::{Mode, Settings, Step};
pub use flat_threads::{Context, Program, local};
pub use laws::{
    calls_are_events, choices_are_least, machine_is_flat, nulls_have_their_cause,
    small_codes_get_what_they_should, waits_are_told,
};
pub use ready::{begin, is_ready};
pub use run_report::{LastBarrier, Report};
pub use shared::Shared;
