//! A journal is replayed, by the machine's own calls.
ghost use Rattle.std.specs.Prelude.{◌≡◌, IfOk};
ghost use Rattle.std.specs.Arc.{arc_value};
ghost use Rattle.std.specs.Option.{option_map};
ghost use Rattle.flat_machine.specs.Replays.{final_of};
ghost use Rattle.flat_replay.specs.Finals.{final_view};

use crate::driver::replay_journal;
use ak_trace::Journal;
use ak_words::NoMemory;
use flat_machine::{Context, End, Program, Report, Settings, Shared};
use std::alloc::Global;
use std::sync::Arc;

/// What a journal comes to.
#[derive(Drop)]
pub struct Final {
    /// What was printed.
    pub output: Vec<u8>,
    /// The end, if the run is over.
    pub end: Option<End>,
    /// What is told of the run.
    pub report: Report,
}

/// What a journal of this code under these settings comes to: the output, the end, if the run is over, and the report. `None` exactly where
/// it is none of this code under these settings.
/// # Errors
/// There may be no memory, all of which is taken before the first entry.
pub fn replay_run(
    alloc: Global,
    code: &Arc<Program, Global>,
    settings: &Settings,
    journal: &Journal,
) -> Result<Option<Final>, NoMemory>
    ensures { IfOk result (λ r. option_map final_view r ≡ final_of (arc_value code.now) settings.now journal.now.entries) }
{
    let code = Arc::clone(code)?;
    match replay_journal::<Shared, Program, Context>(alloc, code, settings, journal)? {
        Some((shared, end)) => {
            let report = shared.report(journal.len());
            Ok(Some(Final {
                output: shared.into_output(),
                end,
                report,
            }))
        }
        None => Ok(None),
    }
}
