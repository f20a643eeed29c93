//! What a worker does.
ghost use Rattle.std.specs.Prelude.{◌≡◌};
ghost use Rattle.turn_lock.specs.Locks.{IsPassOf, first_of, worker_of};
ghost use Rattle.ak_crew.specs.Overs.{FoundOver};

use crate::carrying::carry;
use crate::gate::{Gate, Point};
use crate::idling::{Bell, Idling};
use ak_world::{Found, SharedWorld, World};
use flat_rules::Flat;
use std::sync::Wait;
use turn_lock::Pass;

/// Does what there is to do until the run is over, and then rings.
pub(crate) fn work<F: Flat<Code, Context> + Drop, Code: Drop, Context: Drop, R: Wait, G: Gate>(
    rt: &R,
    code: &Code,
    world: &SharedWorld<F, Code, Context>,
    pass: &mut Pass<World<F, Code, Context>>,
    gate: &G,
    bell: &Bell,
)
    requires code { code.now ≡ (first_of world.now.lock).code }
    requires pass { IsPassOf world.now.lock pass.old }
    ensures pass { IsPassOf world.now.lock pass.new × (worker_of pass.new ≡ worker_of pass.old) }
    ensures over { FoundOver F.machine F.shared_of F.context_of world.now.lock pass.new }
{
    let worker = pass.worker();
    let mut idling = Idling::new();
    for _ in rt.forever() {
        gate.pause(worker, Point::Find);
        match world.find(rt, pass) {
            Found::Work(ctx) => {
                let how = carry(rt, code, world, pass, gate, ctx);
                idling.carried(how);
            }
            Found::Nothing => idling.wait(rt, bell),
            Found::Swept => idling.reset(),
            Found::Over(_) => {
                bell.ring();
                return;
            }
        }
    }
    unreachable!()
}
