//! The workers together.
ghost use Rattle.std.specs.Prelude.{◌≡◌, length};
ghost use Rattle.turn_lock.specs.Locks.{IsPassOf, AllPasses, first_of, passes_of, worker_of};
ghost use Rattle.ak_world.specs.Turns.{SawOver};
ghost use Rattle.ak_crew.specs.Overs.{FoundOver, EachFoundOver};

use crate::gate::Gate;
use crate::idling::Bell;
use crate::working::work;
use ak_world::{SharedWorld, World};
use flat_rules::Flat;
use std::marker::{Send, Sync};
use std::sync::Wait;
use std::thread;
use std::thread::Threads;
use turn_lock::Pass;

/// Gives each pass to a worker of its own, on a thread of its own where one can be made, and returns when each has found the run over. It takes no memory.
pub fn run<
    F: Flat<Code, Context> + Drop + Send,
    Code: Drop + Send + Sync,
    Context: Drop + Send,
    R: Threads + Wait + Sync,
    G: Gate,
>(
    rt: &R,
    code: &Code,
    world: &SharedWorld<F, Code, Context>,
    passes: &mut [Pass<World<F, Code, Context>>],
    gate: &G,
)
    requires code { code.now ≡ (first_of world.now.lock).code }
    requires all { (length passes.old ≡ passes_of world.now.lock) × AllPasses world.now.lock passes.old }
    ensures all { (length passes.new ≡ length passes.old) × AllPasses world.now.lock passes.new }
    ensures each { EachFoundOver F.machine F.shared_of F.context_of world.now.lock passes.new }
    ensures over { SawOver F.machine F.shared_of F.context_of (first_of world.now.lock) passes.new }
{
    let workers = passes.len();
    let bell = Bell::new();
    thread::for_each_mut(
        rt,
        passes,
        workers,
        &|_number: usize, pass: &mut Pass<World<F, Code, Context>>|
            requires { (code.now ≡ (first_of world.now.lock).code) × IsPassOf world.now.lock pass.now }
            ensures { IsPassOf world.entry.now.lock pass.exit.now × (worker_of pass.exit.now ≡ worker_of pass.entry.now) × FoundOver F.machine F.shared_of F.context_of world.entry.now.lock pass.exit.now }
        { work(rt, code, world, pass, gate, &bell) },
    );
}
