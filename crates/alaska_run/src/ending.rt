//! The ending of a call.

use ak_world::Kept;
use flat_machine::{Program, Settings};
use pin_checker::Checked;
use run_notes::Status;
use std::alloc::Global;
use std::sync::Arc;

/// How a call of `alaska` ended, and of what.
#[derive(Drop)]
pub struct Ending {
    /// How it ended.
    pub status: Status,
    /// What the words said.
    pub settings: Option<Settings>,
    /// The text that was read, in mode load the bytes of the code file, or made in mode churn.
    pub text: Vec<u8>,
    /// Its code with translations, safepoints and pin lists, safe for moves.
    pub checked: Option<Checked>,
    /// The machine's code of it, which ran where there is a journal.
    pub code: Option<Arc<Program, Global>>,
    /// The journal of the run, as it stood under the workers' lock; none in modes check and build, which run nothing.
    pub journal: Option<Kept>,
}
