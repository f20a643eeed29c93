//! A thread goes on with no other and no barrier, by the calls of the machine alone.
ghost use Rattle.std.specs.Prelude.{◌≡◌};
ghost use Rattle.flat_threads.specs.Belonging.{IsContextOf};
ghost use Rattle.flat_machine.specs.Machine.{machine_of};
ghost use Rattle.flat_machine.specs.Shares.{IsSharedOf};
ghost use Rattle.flat_machine.specs.Start.{first_shared, settings_limits};
ghost use Rattle.flat_rules.specs.declared.settings.Settings.{Settings};
ghost use Rattle.rows.specs.Runs.{GoesOn, Turns};

use ak_words::NoMemory;
use flat_machine::{Context, End, Program, Shared, Step, act, begin, local, machine_is_flat};
use std::alloc::Global;

// How many steps it does at most.
const MOST_STEPS: u32 = 1_000_000;

// The thread works by itself, and then does its step.
fn work_and_act(shared: &mut Shared, program: &Program, ctx: &mut Context) -> Step
    requires { GoesOn (machine_of program.now) (IsSharedOf program.now) (IsContextOf program.now) shared.old ctx.old.number ctx.old }
    ensures { Turns (machine_of program.now) (IsSharedOf program.now) (IsContextOf program.now) shared.old shared.new ctx.old.number ctx.new result }
{
    machine_is_flat();
    local(ctx, program, 1024);
    act(shared, program, ctx)
}

// The thread begins.
fn begin_first(shared: &Shared, program: &Program, ctx: &mut Context)
    requires of { IsSharedOf program.now shared.now }
    requires opened { (settings : Settings) × (shared.now ≡ first_shared program.now (settings_limits settings)) }
    requires blank { ctx.old ≡ (machine_of program.now).blank 0 }
    ensures { GoesOn (machine_of program.now) (IsSharedOf program.now) (IsContextOf program.now) shared.now ctx.new.number ctx.new }
{
    machine_is_flat();
    begin(shared, ctx);
}

/// The end of the run, if the first thread brings it with no other, without waiting and before very long.
pub fn run_alone(
    alloc: Global,
    shared: &mut Shared,
    program: &Program,
) -> Result<Option<End>, NoMemory>
    requires of { IsSharedOf program.now shared.old }
    requires opened { (settings : Settings) × (shared.old ≡ first_shared program.now (settings_limits settings)) }
{
    let mut ctx = Context::blank(alloc, 0)?;
    begin_first(shared, program, &mut ctx);
    for _ in 0..MOST_STEPS {
        match work_and_act(shared, program, &mut ctx) {
            Step::Went => {}
            Step::Over(end) => return Ok(Some(end)),
            Step::Busy | Step::WaitRoom | Step::Ended => return Ok(None),
        }
    }
    Ok(None)
}
