//! The machine is one that the rules of a run are of.

ghost use Rattle.flat_rules.specs.Machine.{Machine};
ghost use Rattle.flat_threads.specs.Belonging.{IsContextOf};
ghost use Rattle.flat_machine.specs.Machine.{machine_of};
ghost use Rattle.flat_machine.specs.Shares.{IsSharedOf};
ghost use Rattle.flat_machine.specs.Start.{first_shared, settings_limits};
ghost use Rattle.flat_machine.specs.lemmas.MachineIsFlat.{machine_is_flat};

use crate::acting::act;
use crate::barriers::barrier;
use crate::evacuating::evacuation;
use crate::ready::{begin, is_ready};
use crate::shared::Shared;
use ak_trace::Entry;
use ak_words::NoMemory;
use flat_rules::{Flat, Settings, Step};
use flat_threads::{Context, Program, local};
use std::alloc::Global;

impl Flat<Program, Context> for Shared {
    ghost machine = { λ code. machine_of code };

    ghost opened = { λ code s. first_shared code (settings_limits s) };

    ghost shared_of = { λ code s. IsSharedOf code s };

    ghost context_of = { λ code c. IsContextOf code c };

    ghost lawful = { λ code. machine_is_flat code };

    fn open(alloc: Global, code: &Program, settings: &Settings) -> Result<Shared, NoMemory> {
        Shared::new(alloc, code, settings)
    }

    fn blank(alloc: Global, _code: &Program, number: u32) -> Result<Context, NoMemory> {
        Context::blank(alloc, number)
    }

    fn thread(_code: &Program, ctx: &Context) -> u32 {
        ctx.thread()
    }

    fn begin(&self, _code: &Program, ctx: &mut Context) {
        begin(self, ctx);
    }

    fn local(code: &Program, ctx: &mut Context, most: u32) {
        local(ctx, code, most);
    }

    fn act(&mut self, code: &Program, ctx: &mut Context) -> Step {
        act(self, code, ctx)
    }

    fn barrier(&mut self, code: &Program, home: &mut [Option<Context>]) {
        barrier(self, code, home);
    }

    fn evacuation(&mut self, code: &Program, home: &[Option<Context>]) -> bool {
        evacuation(self, code, home) > 0
    }

    fn is_ready(&self, _code: &Program, ctx: &Context) -> bool {
        is_ready(self, ctx)
    }

    fn wants_room(_code: &Program, ctx: &Context) -> bool {
        ctx.wants_room()
    }

    fn threads(&self, _code: &Program) -> u32 {
        self.threads()
    }

    fn made(&self, _code: &Program) -> &[Entry] {
        self.made()
    }
}
