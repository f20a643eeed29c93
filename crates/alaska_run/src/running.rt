//! The run.

ghost use Rattle.alaska_run.specs.inner.Courses.{HasRun, IsReady};

use crate::preparing::Opened;
use ak_crew::{Gate, run};
use ak_world::{Finished, Kept};
use flat_machine::{Program, Settings};
use pin_checker::Checked;
use run_notes::{Status, push_report, status_of};
use std::alloc::Global;
use std::marker::Sync;
use std::sync::{Arc, Wait};
use std::thread::Threads;

/// A run that is over.
#[derive(Drop)]
pub(crate) struct Ran {
    pub(crate) status: Status,
    pub(crate) settings: Settings,
    pub(crate) text: Vec<u8>,
    pub(crate) checked: Checked,
    pub(crate) code: Arc<Program, Global>,
    pub(crate) journal: Kept,
    pub(crate) output: Vec<u8>,
    pub(crate) line: Vec<u8>,
}

/// Runs what was opened, to its end. It takes no memory.
pub(crate) fn run_opened<R: Threads + Wait + Sync, G: Gate>(rt: &R, opened: Opened, gate: &G) -> Ran
    requires { IsReady opened }
    ensures { HasRun opened result }
{
    flat_replay::laws::barriers_of_a_run_keep_objects();
    flat_replay::laws::small_programs_fit();
    let Opened {
        settings,
        text,
        checked,
        code,
        world,
        mut passes,
        mut line,
    } = opened;
    let program: &Program = &code;
    run(rt, program, &world, &mut passes, gate);
    let Finished {
        end,
        journal,
        shared,
    } = world.finish(passes);
    let report = shared.report(journal.journal().len());
    push_report(&mut line, settings.evacuate, end, &report);
    Ran {
        status: status_of(end),
        settings,
        text,
        checked,
        code,
        journal,
        output: shared.into_output(),
        line,
    }
}
