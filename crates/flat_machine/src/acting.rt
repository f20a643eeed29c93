//! A thread's pending step.

ghost use Rattle.std.specs.Prelude.{◌≡◌, ◌+◌, ◌^◌, ◌<◌, length, map, None, IsSome};
ghost use Rattle.struct_ir.specs.Instrs.{LinearCode};
ghost use Rattle.struct_ir.specs.Views.{step_view};
ghost use Rattle.flat_meaning.specs.declared.endings.Stop.{Stop as FlatStop};
ghost use Rattle.flat_meaning.specs.declared.endings.Stop.TheVariants.{AtStep};
ghost use Rattle.flat_meaning.specs.Actions.{acted_on_memory};
ghost use Rattle.flat_meaning.specs.Words.{target_of, word_at};
ghost use Rattle.flat_rules.specs.Answers.{step_of};
ghost use Rattle.flat_threads.specs.Belonging.{HasStopped, IsContextOf};
ghost use Rattle.flat_threads.specs.Contexts.{IsInCall, own_image};
ghost use Rattle.flat_threads.specs.Deeds.{top_of};
ghost use Rattle.flat_threads.specs.Waits.{action_waits};
ghost use Rattle.flat_machine.specs.Acting.{acted_by};
ghost use Rattle.flat_machine.specs.Choices.{action_choice, malloc_choice};
ghost use Rattle.flat_machine.specs.Shares.{IsSharedOf, image_of};
ghost use Rattle.flat_machine.specs.Turns.{done_turned};
ghost use Rattle.flat_machine.specs.inner.Acted.{TurnIsDone, IsSettled, IsStepOf, StepIsDone};
ghost use Rattle.flat_machine.specs.inner.Dones.{Does, WaitsFor, Went};

use crate::done::Done;
use crate::shared::Shared;
use crate::turned::Turned;
use flat_meaning::Stop;
use flat_rules::Step;
use flat_threads::{Context, Program, Wait};
use struct_ir::linear::InstrKind;
use struct_ir::{Action, StepNode};

/// Does a thread's pending step, with the least id and the lowest place at an allocation. Behind [`Stop::Spent`] it is a rest, and behind
/// [`Stop::NoRoom`] the end of the run.
pub fn act(shared: &mut Shared, program: &Program, ctx: &mut Context) -> Step
    requires of { IsContextOf program.now ctx.old }
    requires shared { IsSharedOf program.now shared.old }
    requires stopped { IsSome ctx.old.stop }
    requires made { ctx.old.number < length shared.old.memory.threads }

    ensures shared { shared.new ≡ (acted_by program.now shared.old ctx.old).shared }
    ensures context { ctx.new ≡ (acted_by program.now shared.old ctx.old).context }
    ensures step { result ≡ step_of ctx.old.number (acted_by program.now shared.old ctx.old).turned }
{
    let stop = ctx.take_stop();
    let turned = shared.turn(program, ctx, stop);
    shared.tell(turned.entry(ctx.thread(), ctx.turns()));
    turned.step(ctx.thread())
}

impl Shared {
    // What a thread does that has stopped for this reason.
    fn turn(&mut self, program: &Program, ctx: &mut Context, stop: Option<Stop>) -> Turned
        requires of { IsContextOf program.now ctx.old }
        requires shared { IsSharedOf program.now self.old }
        requires stopped { (reason : FlatStop) → stop ≡ Some reason → HasStopped (own_image program.now) ctx.old.stage reason }
        requires some { IsSome stop }
        requires made { ctx.old.number < length self.old.memory.threads }
        ensures { TurnIsDone program.now stop self.old self.new ctx.old ctx.new result }
    {
        match stop {
            Some(Stop::AtStep) => self.step(program, ctx),
            Some(Stop::NoRoom) => Turned::LackedStack,
            Some(Stop::Spent) => Turned::Rested,
            None => unreachable!(),
        }
    }

    // The Look, the step or the return before which the thread stands.
    fn step(&mut self, program: &Program, ctx: &mut Context) -> Turned
        requires of { IsContextOf program.now ctx.old }
        requires shared { IsSharedOf program.now self.old }
        requires stopped { HasStopped (own_image program.now) ctx.old.stage AtStep }
        requires made { ctx.old.number < length self.old.memory.threads }
        ensures { StepIsDone program.now self.old self.new ctx.old ctx.new result }
    {
        match &ctx.instr(program).kind {
            InstrKind::Look(slot, base) => {
                let word = ctx.word(*base);
                ctx.look(*slot, word, self.arena.look(word));
                Turned::Looked
            }
            InstrKind::Leave(temp) => {
                let word = ctx.given(*temp);
                ctx.end();
                self.finish(ctx.thread(), word)
            }
            InstrKind::Step(node) => {
                let done = self.done(ctx, node);
                settle(ctx, node, done)
            }
            _ => Turned::Stepped,
        }
    }

    // What comes of an action.
    fn done(&mut self, ctx: &Context, node: &StepNode) -> Done
        requires call { IsInCall ctx.now.stage }
        requires number { ctx.now.number < 64 }
        requires step { IsStepOf (top_of ctx.now).own (step_view node.now) }
        requires idle { self.old.memory.leaving ≡ None }
        ensures does { (code : LinearCode) → let l = (top_of ctx.now).own in let s = step_view node.now in Does self.old self.new result
            (acted_on_memory (image_of code self.old).layout ctx.now.number (action_choice (malloc_choice self.old.memory.storage) l s.action s.temps) s.action (map (target_of l) s.places) (map (word_at l) s.temps) self.old.memory) }
        ensures told { (code : LinearCode) → let l = (top_of ctx.now).own in let s = step_view node.now in
            Went result (done_turned (image_of code self.old) self.old.memory (action_choice (malloc_choice self.old.memory.storage) l s.action s.temps) s.action) }
        ensures waits { let l = (top_of ctx.now).own in let s = step_view node.now in
            WaitsFor result (action_waits s.action (map (target_of l) s.places) (map (word_at l) s.temps)) }
    {
        let places = node.places.as_slice();
        let temps = node.temps.as_slice();
        match &node.action {
            Action::Load(how) => self.load(*how, ctx.target(&places[0])),
            Action::Store(how) => self.store(*how, ctx.target(&places[0]), ctx.word(temps[0])),
            Action::Copy { .. } => {
                self.copy(
                    ctx.target(&places[0]),
                    ctx.target(&places[1]),
                    ctx.word(temps[0]),
                )
            }
            Action::Malloc => self.malloc(ctx.word(temps[0])),
            Action::Calloc => self.calloc(ctx.word(temps[0]), ctx.word(temps[1])),
            Action::Realloc => self.realloc(ctx.word(temps[0]), ctx.word(temps[1])),
            Action::Free => self.free(ctx.word(temps[0])),
            Action::Change(how, ty) => {
                self.change(*how, *ty, ctx.target(&places[0]), ctx.word(temps[0]))
            }
            Action::Compare(ty) => self.compare(
                *ty,
                ctx.target(&places[0]),
                ctx.target(&places[1]),
                ctx.word(temps[0]),
            ),
            Action::Print(pieces) => self.print(ctx, pieces, places, temps),
            Action::Lock => self.lock(ctx.thread(), ctx.target(&places[0])),
            Action::Unlock => self.unlock(ctx.target(&places[0])),
            Action::Destroy => Done::plain(),
            Action::Start(function) => {
                self.start(*function, ctx.target(&places[0]), ctx.word(temps[0]))
            }
            Action::Join => self.join(ctx.target(&places[0]), ctx.word(temps[0])),
        }
    }
}

// What the thread has behind an action, and how its step went.
fn settle(ctx: &mut Context, node: &StepNode, done: Done) -> Turned
    requires call { IsInCall ctx.old.stage }
    requires step { IsStepOf (top_of ctx.old).own (step_view node.now) }
    requires index { (top_of ctx.old).at.index + 1 < 2 ^ 32 }
    ensures { IsSettled (step_view node.now) done ctx.old ctx.new result }
{
    match done {
        Done::Went(word, turned) => {
            ctx.land(node, word);
            turned
        }
        Done::Waits(Wait::Room) => {
            ctx.wait(Wait::Room);
            Turned::WantsRoom
        }
        Done::Waits(reason) => {
            ctx.wait(reason);
            Turned::FoundBusy
        }
        Done::Trap(word, kind) => Turned::Trapped(word, kind),
        Done::Full => Turned::PassedLimit,
    }
}
