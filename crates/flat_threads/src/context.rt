ghost use Rattle.std.specs.Prelude.{◌≡◌, ◌+◌, ◌^◌, ◌≤◌, ◌<◌, ◌↔◌, length, slice_get, vec_capacity, Some, None, IsTrue, IfOk};
ghost use Rattle.std.specs.Option.{ForSome};
ghost use Rattle.struct_ir.specs.Instrs.{instrs_of};
ghost use Rattle.struct_ir.specs.InstrViews.{instr_view};
ghost use Rattle.struct_ir.specs.Views.{place_view, step_view};
ghost use Rattle.flat_meaning.specs.Machine.{given};
ghost use Rattle.flat_meaning.specs.Stages.{starts};
ghost use Rattle.flat_meaning.specs.Words.{target_of, word_at};
ghost use Rattle.flat_threads.specs.Contexts.{IsInCall, IsListFor, IsStageIf, blank_context, standing, with_stop};
ghost use Rattle.flat_threads.specs.Deeds.{IsPlaceOf, landed_stage, looked_stage, top_of, waiting_stage};
ghost use Rattle.flat_threads.specs.Targets.{target_view};

use crate::call::Phase;
use crate::calls::{Calls, SLOTS};
use crate::program::Program;
use crate::targets::Target;
use crate::wait::Wait;
use ak_words::NoMemory;
use flat_meaning::Stop;
use std::alloc::Global;
use std::marker::Model;
use struct_ir::linear::Instr;
use struct_ir::{Place, StepNode};

/// A thread's context: its number, how far it is, and its calls, in memory that is reserved once.
#[derive(Drop)]
pub struct Context {
    // In a box, since a context goes from hand to hand by value.
    pub(crate) parts: Box<Parts>,
}

/// What a context has.
#[derive(Drop)]
pub(crate) struct Parts {
    pub(crate) number: u32,
    pub(crate) phase: Phase,
    pub(crate) calls: Calls,
    // The list of the step behind which the thread has landed.
    pub(crate) list: Vec<u32>,
    pub(crate) turns: u32,
    pub(crate) stop: Option<Stop>,
    pub(crate) wait: Option<Wait>,
}

// Clauses see how far the thread is, with a list of registers and one of slots for each call.
impl Model for Context {
    ghost use Rattle.std.specs.Prelude.{◌≤◌, vec_capacity};
    ghost use Rattle.flat_threads.specs.Contexts.{Context as ContextView};
    ghost use Rattle.flat_threads.specs.inner.Arrays.{IsListed, stage_of};

    ghost Value = { ContextView };

    ghost view = { λ c. let p = c.parts.value in record { number = p.number; stage = stage_of p.phase p.list.items p.calls; turns = p.turns; stop = p.stop; wait = p.wait } };

    ghost invariant = { λ c. let p = c.parts.value in IsListed p.number p.list.items × (1024 ≤ vec_capacity p.list) };
}

impl Context {
    /// A context of the thread of this number, which hasn't begun, with all the memory that it can come to use.
    pub fn blank(alloc: Global, number: u32) -> Result<Context, NoMemory>
        requires { number < 64 }
        ensures { IfOk result (λ c. c ≡ blank_context number) }
    {
        let calls = Calls::none(alloc)?;
        let list = Vec::with_capacity(alloc, SLOTS as usize)?;
        let parts = Parts {
            number,
            phase: Phase::Away,
            calls,
            list,
            turns: 0,
            stop: None,
            wait: None,
        };
        let parts = Box::new(alloc, parts)?;
        Ok(Context { parts })
    }

    /// The number of its thread.
    pub fn thread(&self) -> u32
        ensures number { result ≡ self.now.number }
        ensures below { self.now.number < 64 }
    {
        self.parts.number
    }

    /// The turns that the last call of `local` did.
    pub fn turns(&self) -> u32
        ensures { result ≡ self.now.turns }
    {
        self.parts.turns
    }

    /// What the thread waits for.
    pub fn waits_for(&self) -> Option<Wait>
        ensures { result ≡ self.now.wait }
    {
        self.parts.wait
    }

    /// Whether the thread waits at an allocation.
    pub fn wants_room(&self) -> bool
        ensures { IsTrue result ↔ (self.now.wait ≡ Some Wait.Room) }
    {
        self.parts.wait == Some(Wait::Room)
    }

    /// Puts the first function of its thread before it, with the word of its argument.
    pub fn begin(&mut self, function: u32, argument: u64)
        ensures { self.new ≡ standing self.old (Some (starts function argument)) self.old.wait }
    {
        self.parts.phase = Phase::Starts(function, argument);
    }

    /// Why the last call of `local` stopped, if no step was taken since; the context then has no stop.
    pub fn take_stop(&mut self) -> Option<Stop>
        ensures stop { result ≡ self.old.stop }
        ensures taken { self.new ≡ with_stop self.old None }
    {
        let stop = self.parts.stop;
        self.parts.stop = None;
        stop
    }

    /// The instruction before which the thread stands.
    pub fn instr<'a>(&self, program: &'a Program) -> &'a Instr
        requires call { IsInCall self.now.stage }
        requires of { IsStageIf program.now self.now.stage }
        ensures is { slice_get (instrs_of program.now.funcs (top_of self.now).at.function) (top_of self.now).at.index ≡ Some (instr_view result.now) }
        ensures small { (top_of self.now).at.index + 1 < 2 ^ 32 }
    {
        self.parts.calls.instr(program)
    }

    /// The word in a register of the call under way.
    pub fn word(&self, temp: u32) -> u64
        requires call { IsInCall self.now.stage }
        requires temp { temp < length (top_of self.now).own.temps }
        ensures { result ≡ word_at (top_of self.now).own temp }
    {
        self.parts.calls.word(temp)
    }

    /// The word that the call under way gives: 0 where it has no value.
    pub fn given(&self, temp: Option<u32>) -> u64
        requires call { IsInCall self.now.stage }
        requires temp { ForSome temp (λ r. r < length (top_of self.now).own.temps) }
        ensures { result ≡ given (top_of self.now).own temp }
    {
        self.parts.calls.given(temp)
    }

    /// Where a place of the call under way leads.
    pub fn target(&self, place: &Place) -> Target
        requires call { IsInCall self.now.stage }
        requires place { IsPlaceOf (top_of self.now).own (place_view place.now) }
        ensures { target_view result ≡ target_of (top_of self.now).own (place_view place.now) }
    {
        self.parts.calls.target(place)
    }

    /// Sets a slot of the call under way to a word and its address, and goes on behind the Look.
    pub fn look(&mut self, slot: u32, word: u64, address: u64)
        requires call { IsInCall self.old.stage }
        requires slot { slot < length (top_of self.old).own.slots }
        requires index { (top_of self.old).at.index + 1 < 2 ^ 32 }
        ensures { self.new ≡ standing self.old (looked_stage self.old.stage slot word address) None }
    {
        self.parts.calls.set_slot(slot, word, address);
        self.parts.calls.go_on();
        self.parts.phase = Phase::Going;
        self.parts.wait = None;
    }

    /// Goes on behind a step that gave a word or none: where that has a list, the thread has landed.
    pub fn land(&mut self, node: &StepNode, word: Option<u64>)
        requires call { IsInCall self.old.stage }
        requires to { ForSome node.now.to (λ r. r < length (top_of self.old).own.temps) }
        requires list { IsListFor (top_of self.old).own node.now.slots.items }
        requires index { (top_of self.old).at.index + 1 < 2 ^ 32 }
        ensures { self.new ≡ standing self.old (landed_stage (step_view node.now) self.old.stage word) None }
    {
        self.parts.calls.keeps_slots();
        self.parts.calls.put_given(node.to, word);
        self.parts.calls.go_on();
        self.parts.wait = None;
        self.parts.phase = Phase::Going;
        if node.action.may_wait() {
            self.parts.phase = Phase::Landed;
            keep_list(&mut self.parts.list, node.slots.as_slice());
        }
    }

    /// Stands before a step that couldn't be done.
    pub fn wait(&mut self, reason: Wait)
        requires { IsInCall self.old.stage }
        ensures { self.new ≡ standing self.old (waiting_stage self.old.stage) (Some reason) }
    {
        self.parts.phase = Phase::Waiting;
        self.parts.wait = Some(reason);
    }

    /// The thread has ended.
    pub fn end(&mut self)
        ensures { self.new ≡ standing self.old None None }
    {
        self.parts.phase = Phase::Away;
        self.parts.wait = None;
    }
}

// Keeps the list of a step.
fn keep_list(list: &mut Vec<u32>, slots: &[u32])
    requires { length slots.now ≤ vec_capacity list.old }
    ensures items { list.new.items ≡ slots.now }
    ensures capacity { vec_capacity list.new ≡ vec_capacity list.old }
{
    list.clear();
    for slot in slots {
        list.push_reserved(*slot);
    }
}
