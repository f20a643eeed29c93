//! Code is run by two passes that take the calls of a world by turns.
ghost use Rattle.std.specs.Prelude.{◌≡◌};

use crate::machine::driving::drive;
use ak_words::NoMemory;
use ak_world::{Finished, SharedWorld};
use flat_machine::{Context, Mode, Program, Settings, Shared};
use std::alloc::Global;
use std::sync::{Arc, Wait};
use struct_ir::linear::Code;

// Two workers, and else what is usual.
fn settings() -> Settings
    ensures { result.workers ≡ 2 }
{
    Settings {
        file: None,
        workers: 2,
        schedule: None,
        every: None,
        subheap: 65536,
        subheaps: 16,
        ids: 65536,
        entries: 1000,
        evacuate: false,
        output: 1000,
        mode: Mode::Run,
        seed: None,
        size: None,
    }
}

/// Runs code; nothing comes of it if the first pass does not find the run over.
pub fn run_over_world<R: Wait>(
    rt: &R,
    alloc: Global,
    code: Code,
) -> Result<Option<Finished<Shared>>, NoMemory> {
    let program = Arc::new(alloc, Program::load(alloc, code)?)?;
    let (world, mut passes) = SharedWorld::<Shared, Program, Context>::open(
        alloc,
        program.clone()?,
        &settings(),
    )?;
    if drive(rt, &*program, &world, &mut passes) {
        Ok(Some(world.finish(passes)))
    } else {
        Ok(None)
    }
}
