//! Two passes take the calls of a run by turns, on one thread.
ghost use Rattle.std.specs.Prelude.{◌≡◌, ◌≢◌, ℕ, ◌<◌, IsTrue, length, slice_get};
ghost use Rattle.turn_lock.specs.Locks.{AllPasses, IsPassOf, first_of, seen_of, worker_of};
ghost use Rattle.world_rules.specs.Sound.{MayWork};
ghost use Rattle.ak_world.specs.Turns.{SawOver};
ghost use Rattle.rows.specs.declared.machine.driving.Hand.TheVariants as hands;
ghost use Rattle.rows.specs.Hands.{Holds, HoldsAt, most_of};

use ak_world::{Acted, Found, SharedWorld, World};
use flat_rules::Flat;
use std::sync::Wait;
use turn_lock::Pass;

/// What a pass has in hand.
#[derive(Drop)]
pub enum Hand<Context> {
    /// Nothing.
    Free,
    /// A thread that goes on, and whether it was asked home.
    Out(Context, bool),
    /// A thread that is to be brought home.
    Due(Context),
    /// The end of the run.
    Over,
}

// How many calls each pass makes at most.
const MOST_CALLS: u32 = 1000;

// Works with the context alone, just up to the next safepoint where the thread was asked home.
fn work_alone<F: Flat<Code, Context> + Drop, Code: Drop, Context: Drop>(
    code: &Code,
    ctx: &mut Context,
    asked: bool,
)
    requires { MayWork F.machine F.shared_of F.context_of code.now ctx.old }
    ensures { ctx.new ≡ (F.machine code.now).local (most_of asked) ctx.old }
{
    if asked {
        F::local(code, ctx, 0);
    } else {
        F::local(code, ctx, 1024);
    }
}

// A pass that has nothing in hand looks for work.
fn look_for_work<F: Flat<Code, Context> + Drop, Code: Drop, Context: Drop, R: Wait>(
    rt: &R,
    world: &SharedWorld<F, Code, Context>,
    pass: &mut Pass<World<F, Code, Context>>,
) -> Hand<Context>
    requires { IsPassOf world.now.lock pass.old }
    ensures pass { IsPassOf world.now.lock pass.new × (worker_of pass.new ≡ worker_of pass.old) }
    ensures holds { Holds F.machine F.shared_of F.context_of (first_of world.now.lock) (seen_of pass.new) (worker_of pass.new) result }
{
    match world.find(rt, pass) {
        Found::Work(ctx) => Hand::Out(ctx, false),
        Found::Nothing => Hand::Free,
        Found::Swept => Hand::Free,
        Found::Over(_) => Hand::Over,
    }
}

// A pass that has a thread out works with it alone, and then does its step.
fn go_on<F: Flat<Code, Context> + Drop, Code: Drop, Context: Drop, R: Wait>(
    rt: &R,
    code: &Code,
    world: &SharedWorld<F, Code, Context>,
    pass: &mut Pass<World<F, Code, Context>>,
    ctx: Context,
    asked: bool,
) -> Hand<Context>
    requires code { code.now ≡ (first_of world.now.lock).code }
    requires pass { IsPassOf world.now.lock pass.old }
    requires holds { Holds F.machine F.shared_of F.context_of (first_of world.now.lock) (seen_of pass.old) (worker_of pass.old) (hands.Out ctx asked) }
    ensures pass { IsPassOf world.now.lock pass.new × (worker_of pass.new ≡ worker_of pass.old) }
    ensures holds { Holds F.machine F.shared_of F.context_of (first_of world.now.lock) (seen_of pass.new) (worker_of pass.new) result }
{
    let mut ctx = ctx;
    work_alone::<F, Code, Context>(code, &mut ctx, asked);
    match world.act(rt, pass, ctx) {
        Acted::Went {
            ctx: next,
            come_home,
        } => Hand::Out(next, asked || come_home),
        Acted::Rested(next) => Hand::Due(next),
        Acted::Busy(next) => Hand::Due(next),
        Acted::WaitRoom(next) => Hand::Due(next),
        Acted::Ended => Hand::Free,
        Acted::Over(_) => Hand::Over,
    }
}

// A pass makes the one call that it may make with what it has in hand.
fn call<F: Flat<Code, Context> + Drop, Code: Drop, Context: Drop, R: Wait>(
    rt: &R,
    code: &Code,
    world: &SharedWorld<F, Code, Context>,
    pass: &mut Pass<World<F, Code, Context>>,
    hand: Hand<Context>,
) -> Hand<Context>
    requires code { code.now ≡ (first_of world.now.lock).code }
    requires pass { IsPassOf world.now.lock pass.old }
    requires holds { Holds F.machine F.shared_of F.context_of (first_of world.now.lock) (seen_of pass.old) (worker_of pass.old) hand }
    ensures pass { IsPassOf world.now.lock pass.new × (worker_of pass.new ≡ worker_of pass.old) }
    ensures holds { Holds F.machine F.shared_of F.context_of (first_of world.now.lock) (seen_of pass.new) (worker_of pass.new) result }
{
    match hand {
        Hand::Free => look_for_work(rt, world, pass),
        Hand::Out(ctx, asked) => go_on(rt, code, world, pass, ctx, asked),
        Hand::Due(ctx) => {
            world.home(rt, pass, ctx);
            Hand::Free
        }
        Hand::Over => Hand::Over,
    }
}

// The pass of this number makes a call.
fn call_by<F: Flat<Code, Context> + Drop, Code: Drop, Context: Drop, R: Wait>(
    rt: &R,
    code: &Code,
    world: &SharedWorld<F, Code, Context>,
    passes: &mut [Pass<World<F, Code, Context>>],
    number: usize,
    hand: Hand<Context>,
) -> Hand<Context>
    requires code { code.now ≡ (first_of world.now.lock).code }
    requires all { AllPasses world.now.lock passes.old }
    requires there { number < length passes.old }
    requires holds { HoldsAt F.machine F.shared_of F.context_of (first_of world.now.lock) passes.old number hand }
    ensures all { AllPasses world.now.lock passes.new }
    ensures holds { HoldsAt F.machine F.shared_of F.context_of (first_of world.now.lock) passes.new number result }
    ensures others { (k : ℕ) → k ≢ number → slice_get passes.new k ≡ slice_get passes.old k }
{
    call(rt, code, world, &mut passes[number], hand)
}

/// Two passes call by turns until the first of them has found the run over; whether it has.
pub fn drive<F: Flat<Code, Context> + Drop, Code: Drop, Context: Drop, R: Wait>(
    rt: &R,
    code: &Code,
    world: &SharedWorld<F, Code, Context>,
    passes: &mut [Pass<World<F, Code, Context>>],
) -> bool
    requires code { code.now ≡ (first_of world.now.lock).code }
    requires two { length passes.old ≡ 2 }
    requires all { AllPasses world.now.lock passes.old }
    ensures all { AllPasses world.now.lock passes.new }
    ensures over { IsTrue result → SawOver F.machine F.shared_of F.context_of (first_of world.now.lock) passes.new }
{
    let mut first = Hand::Free;
    let mut second = Hand::Free;
    for _ in 0..MOST_CALLS {
        first = call_by(rt, code, world, passes, 0, first);
        second = call_by(rt, code, world, passes, 1, second);
        if let Hand::Over = &first {
            return true;
        }
    }
    false
}
