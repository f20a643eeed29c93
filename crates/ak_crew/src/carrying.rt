//! A worker goes on with a thread that it has out.
ghost use Rattle.std.specs.Prelude.{◌≡◌, if◌then◌else◌};
ghost use Rattle.turn_lock.specs.Locks.{IsPassOf, first_of, seen_of, worker_of};
ghost use Rattle.flat_rules.specs.States.{free};
ghost use Rattle.world_rules.specs.declared.calls.Call.TheVariants as call;
ghost use Rattle.world_rules.specs.Allowed.{IsOut, MayCall};
ghost use Rattle.world_rules.specs.Sound.{MayWork};

use crate::gate::{Gate, Point};
use ak_world::{Acted, SharedWorld, World};
use flat_rules::Flat;
use std::sync::Wait;
use turn_lock::Pass;

/// The turns that a thread does by itself before it rests.
const MOST_LOCAL: u32 = 1024;

/// How a thread went that a worker carried.
#[derive(Clone, Copy)]
pub(crate) enum Carried {
    /// As far as it could, or as it may at once: no other was in its way.
    Freely,
    /// Some steps, and then it had to wait for another.
    UntilBusy,
    /// It had to wait for another at once.
    Nowhere,
}

// Works with the context alone, just up to the next safepoint where the thread was asked home.
fn work_alone<F: Flat<Code, Context> + Drop, Code: Drop, Context: Drop>(
    code: &Code,
    ctx: &mut Context,
    asked: bool,
)
    requires { MayWork F.machine F.shared_of F.context_of code.now ctx.old }
    ensures { ctx.new ≡ (F.machine code.now).local (if asked then 0 else 1024) ctx.old }
{
    if asked {
        F::local(code, ctx, 0);
    } else {
        F::local(code, ctx, MOST_LOCAL);
    }
}

// Brings home a thread that rests, is busy or waits for room.
fn bring_home<F: Flat<Code, Context> + Drop, Code: Drop, Context: Drop, R: Wait, G: Gate>(
    rt: &R,
    world: &SharedWorld<F, Code, Context>,
    pass: &mut Pass<World<F, Code, Context>>,
    gate: &G,
    ctx: Context,
)
    requires pass { IsPassOf world.now.lock pass.old }
    requires out { MayCall F.machine (first_of world.now.lock) (seen_of pass.old) (worker_of pass.old) (call.Home ctx) }
    ensures { IsPassOf world.now.lock pass.new × (worker_of pass.new ≡ worker_of pass.old) }
{
    gate.pause(pass.worker(), Point::Home);
    world.home(rt, pass, ctx);
}

// How a thread went that had to wait for another, after some steps or at once.
fn busy_after(went: bool) -> Carried {
    if went {
        Carried::UntilBusy
    } else {
        Carried::Nowhere
    }
}

/// Goes on with a thread that was handed out, until it comes home or is nowhere; and tells how it went, of which no clause speaks.
pub(crate) fn carry<F: Flat<Code, Context> + Drop, Code: Drop, Context: Drop, R: Wait, G: Gate>(
    rt: &R,
    code: &Code,
    world: &SharedWorld<F, Code, Context>,
    pass: &mut Pass<World<F, Code, Context>>,
    gate: &G,
    ctx: Context,
) -> Carried
    requires code { code.now ≡ (first_of world.now.lock).code }
    requires pass { IsPassOf world.now.lock pass.old }
    requires out { IsOut F.machine (first_of world.now.lock) (seen_of pass.old) (worker_of pass.old) ((F.machine code.now).thread_of ctx) ctx free }
    requires works { MayWork F.machine F.shared_of F.context_of code.now ctx }
    ensures { IsPassOf world.now.lock pass.new × (worker_of pass.new ≡ worker_of pass.old) }
{
    let worker = pass.worker();
    let mut ctx = ctx;
    let mut asked = false;
    let mut went = false;
    for _ in rt.forever() {
        work_alone::<F, Code, Context>(code, &mut ctx, asked);
        gate.pause(worker, Point::Act);
        match world.act(rt, pass, ctx) {
            Acted::Went {
                ctx: next,
                come_home,
            } => {
                ctx = next;
                asked = asked || come_home;
                went = true;
            }
            Acted::Rested(next) => {
                bring_home(rt, world, pass, gate, next);
                return Carried::Freely;
            }
            Acted::Busy(next) => {
                bring_home(rt, world, pass, gate, next);
                return busy_after(went);
            }
            Acted::WaitRoom(next) => {
                bring_home(rt, world, pass, gate, next);
                return Carried::Freely;
            }
            Acted::Ended => return Carried::Freely,
            Acted::Over(_) => return Carried::Freely,
        }
    }
    unreachable!()
}
