//! Threads take turns: each goes on until it waits, or has ended.
ghost use Rattle.std.specs.Prelude.{◌≡◌, ◌<◌, ◌≤◌, false, length, IfOk, MatchOption};
ghost use Rattle.flat_rules.specs.Lawful.{IsOpened};
ghost use Rattle.rows.specs.Runs.{GoesOn, IsRun, StaysRun, Turns};

use ak_words::NoMemory;
use flat_rules::{End, Flat, Step};
use std::alloc::Global;

// The turns that a thread does by itself before it rests.
const MOST_LOCAL: u32 = 1024;

// How many steps a thread does at most before its run is given up, and how many times a run goes on with a thread.
const MOST_STEPS: u32 = 1_000_000;

// A thread works by itself, and then does its step.
fn step<F: Flat<Code, Context> + Drop, Code: Drop, Context: Drop>(
    shared: &mut F,
    code: &Code,
    ctx: &mut Context,
) -> Step
    requires on { GoesOn (F.machine code.now) (F.shared_of code.now) (F.context_of code.now) shared.old ((F.machine code.now).thread_of ctx.old) ctx.old }
    requires few { (F.machine code.now).threads shared.old ≤ 64 }
    ensures { Turns (F.machine code.now) (F.shared_of code.now) (F.context_of code.now) shared.old shared.new ((F.machine code.now).thread_of ctx.old) ctx.new result }
{
    F::local(code, ctx, MOST_LOCAL);
    shared.act(code, ctx)
}

/// A thread goes on until it waits, or has ended. [`Step::Went`] says that it did none of that for very long.
pub fn turn<F: Flat<Code, Context> + Drop, Code: Drop, Context: Drop>(
    shared: &mut F,
    code: &Code,
    ctx: &mut Context,
) -> Step
    requires on { GoesOn (F.machine code.now) (F.shared_of code.now) (F.context_of code.now) shared.old ((F.machine code.now).thread_of ctx.old) ctx.old }
    requires few { (F.machine code.now).threads shared.old ≤ 64 }
    ensures { Turns (F.machine code.now) (F.shared_of code.now) (F.context_of code.now) shared.old shared.new ((F.machine code.now).thread_of ctx.old) ctx.new result }
{
    for _ in 0..MOST_STEPS {
        match step(shared, code, ctx) {
            Step::Went => {}
            last => return last,
        }
    }
    Step::Went
}

/// A thread that was made begins, and has its first turn.
pub fn first_turn<F: Flat<Code, Context> + Drop, Code: Drop, Context: Drop>(
    shared: &mut F,
    code: &Code,
    ctx: &mut Context,
    number: u32,
) -> Step
    requires shared { F.shared_of code.now shared.old }
    requires few { (F.machine code.now).threads shared.old ≤ 64 }
    requires blank { ctx.old ≡ (F.machine code.now).blank number }
    requires made { number < (F.machine code.now).threads shared.old }
    requires going { (F.machine code.now).has_ended shared.old number ≡ false }
    ensures { Turns (F.machine code.now) (F.shared_of code.now) (F.context_of code.now) shared.old shared.new number ctx.new result }
{
    shared.begin(code, ctx);
    turn(shared, code, ctx)
}

// The next thread that was made begins, has its first turn, and then its place at home.
fn welcome<F: Flat<Code, Context> + Drop, Code: Drop, Context: Drop>(
    alloc: Global,
    shared: &mut F,
    code: &Code,
    homes: &mut Vec<Option<Context>>,
) -> Result<Step, NoMemory>
    requires run { IsRun (F.machine code.now) (F.shared_of code.now) (F.context_of code.now) shared.old homes.old.items }
    requires made { length homes.old.items < (F.machine code.now).threads shared.old }
    ensures { IfOk result (StaysRun (F.machine code.now) (F.shared_of code.now) (F.context_of code.now) shared.new homes.new.items) }
{
    let number = homes.len() as u32;
    let mut ctx = F::blank(alloc, code, number)?;
    let last = first_turn(shared, code, &mut ctx, number);
    match last {
        Step::Busy | Step::WaitRoom => homes.push(Some(ctx))?,
        Step::Ended => homes.push(None)?,
        Step::Went | Step::Over(_) => {}
    }
    Ok(last)
}

// A thread at home goes on.
fn go_on<F: Flat<Code, Context> + Drop, Code: Drop, Context: Drop>(
    shared: &mut F,
    code: &Code,
    homes: &mut [Option<Context>],
    number: usize,
) -> Step
    requires run { IsRun (F.machine code.now) (F.shared_of code.now) (F.context_of code.now) shared.old homes.old }
    requires there { number < length homes.old }
    ensures { StaysRun (F.machine code.now) (F.shared_of code.now) (F.context_of code.now) shared.new homes.new result }
{
    let Some(mut ctx) = homes[number].take() else {
        return Step::Ended;
    };
    let last = turn(shared, code, &mut ctx);
    match last {
        Step::Busy | Step::WaitRoom => homes[number] = Some(ctx),
        Step::Ended | Step::Went | Step::Over(_) => {}
    }
    last
}

// The first thread at home that is ready.
fn ready<F: Flat<Code, Context> + Drop, Code: Drop, Context: Drop>(
    shared: &F,
    code: &Code,
    homes: &[Option<Context>],
) -> Option<usize>
    requires { IsRun (F.machine code.now) (F.shared_of code.now) (F.context_of code.now) shared.now homes.now }
    ensures { MatchOption result (Unit {0}) (λ number. number < length homes.now) }
{
    for number in 0..homes.len() {
        if let Some(ctx) = &homes[number]
            && shared.is_ready(code, ctx)
        {
            return Some(number);
        }
    }
    None
}

// Objects slide, and mallocs that wait are served.
fn sweep<F: Flat<Code, Context> + Drop, Code: Drop, Context: Drop>(
    shared: &mut F,
    code: &Code,
    homes: &mut [Option<Context>],
)
    requires run { IsRun (F.machine code.now) (F.shared_of code.now) (F.context_of code.now) shared.old homes.old }
    requires all { length homes.old ≡ (F.machine code.now).threads shared.old }
    ensures { IsRun (F.machine code.now) (F.shared_of code.now) (F.context_of code.now) shared.new homes.new }
{
    shared.barrier(code, homes);
}

/// One turn of the next thread that was made or else of one that is ready; or a barrier, where there is neither.
pub fn next<F: Flat<Code, Context> + Drop, Code: Drop, Context: Drop>(
    alloc: Global,
    shared: &mut F,
    code: &Code,
    homes: &mut Vec<Option<Context>>,
) -> Result<Step, NoMemory>
    requires { IsRun (F.machine code.now) (F.shared_of code.now) (F.context_of code.now) shared.old homes.old.items }
    ensures { IfOk result (StaysRun (F.machine code.now) (F.shared_of code.now) (F.context_of code.now) shared.new homes.new.items) }
{
    if (homes.len() as u32) < shared.threads(code) {
        return welcome(alloc, shared, code, homes);
    }
    match ready(shared, code, homes) {
        Some(number) => Ok(go_on(shared, code, homes, number)),
        None => {
            sweep(shared, code, homes);
            Ok(Step::Busy)
        }
    }
}

/// All threads in turns, until the run is over; and how many times one waited for room.
pub fn run<F: Flat<Code, Context> + Drop, Code: Drop, Context: Drop>(
    alloc: Global,
    shared: &mut F,
    code: &Code,
) -> Result<(Option<End>, u32), NoMemory>
    requires { IsOpened (F.machine code.now) (F.shared_of code.now) shared.old }
{
    let mut homes = Vec::new(alloc);
    let mut waits = 0;
    for _ in 0..MOST_STEPS {
        match next(alloc, shared, code, &mut homes)? {
            Step::Over(end) => return Ok((Some(end), waits)),
            Step::Went => return Ok((None, waits)),
            Step::WaitRoom => waits += 1,
            Step::Busy | Step::Ended => {}
        }
    }
    Ok((None, waits))
}
