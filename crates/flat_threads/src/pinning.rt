//! The words in the slots that are listed where a thread's calls stand.

ghost use Rattle.std.specs.Prelude.{◌≡◌, ◌+◌, ◌≤◌, ◌++◌, Some, flat_map, length};
ghost use Rattle.flat_meaning.specs.Allowed.{handles_here, handles_if, handles_in};
ghost use Rattle.flat_threads.specs.Belonging.{IsContextOf};
ghost use Rattle.flat_threads.specs.Contexts.{IsListFor, IsProgram, IsThreadOf, own_image};
ghost use Rattle.flat_threads.specs.inner.Parts.{IsAt, listed_at};

use crate::call::{Call, Phase};
use crate::calls::Calls;
use crate::context::Context;
use crate::program::Program;
use handle_table::{PinWords, unite};
use struct_ir::{InstrKind, StepNode};

impl Context {
    /// Appends the handles in the slots that are listed where the thread's calls stand. A thread that hasn't begun lists nothing.
    pub fn pin(&self, program: &Program, into: &mut PinWords)
        requires of { IsContextOf program.now self.now }
        requires room { length into.old.words + 1024 ≤ into.old.room }
        ensures pinned { into.new ≡ record into.old { words = into.old.words ++ handles_if (own_image program.now).flow self.now.stage } }
        ensures few { length into.new.words ≤ length into.old.words + 1024 }
    {
        let parts = &*self.parts;
        match parts.phase {
            Phase::Away | Phase::Starts(_, _) => return,
            Phase::Landed => parts.calls.pin_top(&parts.list, into),
            Phase::Going | Phase::Waiting => {
                let list = list_at(program, &parts.calls.top);
                parts.calls.pin_top(list, into);
            }
        }
        parts.calls.pin_callers(program, into);
    }
}

impl Calls {
    // Appends the handles in listed slots of the call under way.
    fn pin_top(&self, list: &[u32], into: &mut PinWords)
        requires list { IsListFor self.now.top.own list.now }
        requires room { length into.old.words + length self.now.top.own.slots ≤ into.old.room }
        ensures pinned { into.new ≡ record into.old { words = into.old.words ++ handles_in self.now.top.own (Some list.now) } }
        ensures few { length into.new.words ≤ length into.old.words + length self.now.top.own.slots }
    {
        unite(&self.slots, self.top.slots, list, into);
    }

    // Appends the handles in the slots that are listed where the calls stand that wait, the last one first.
    fn pin_callers(&self, program: &Program, into: &mut PinWords)
        requires program { IsProgram program.now }
        requires of { IsThreadOf program.now self.now }
        requires room { length into.old.words + self.now.top.own.below.slots ≤ into.old.room }
        ensures pinned { into.new ≡ record into.old { words = into.old.words ++ flat_map (handles_here (own_image program.now).flow) self.now.callers } }
        ensures few { length into.new.words ≤ length into.old.words + self.now.top.own.below.slots }
    {
        for at in (0..self.callers.len()).rev() {
            let call = &self.callers[at];
            unite(&self.slots, call.slots, list_at(program, call), into);
        }
    }
}

// The slots that are listed where a call stands.
fn list_at<'a>(program: &'a Program, call: &Call) -> &'a [u32]
    requires { IsAt program.now (record { function = call.now.function; index = call.now.index }) }
    ensures { result.now ≡ listed_at ((own_image program.now).flow.here (record { function = call.now.function; index = call.now.index })) }
{
    match &call.instr(program).kind {
        InstrKind::Safe(slots) => slots,
        InstrKind::Enter(node) => &node.slots,
        InstrKind::Step(node) if node.action.may_wait() => node.slots.as_slice(),
        _ => &[],
    }
}
