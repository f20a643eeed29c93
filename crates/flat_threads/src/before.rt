//! What a thread stands before, and whether there is room for a call.

ghost use Rattle.std.specs.Prelude.{◌≡◌, ◌+◌, ◌-◌, ◌^◌, ◌<◌, ℕ, Some, nat_le, slice_get};
ghost use Rattle.struct_ir.specs.Instrs.{LinearFunc};
ghost use Rattle.struct_ir.specs.Linear.{Spot};
ghost use Rattle.flat_meaning.specs.Local as alone;
ghost use Rattle.flat_meaning.specs.Stages as stages;
ghost use Rattle.flat_meaning.specs.Stages.{Stage, room_for};
ghost use Rattle.flat_threads.specs.Contexts.{IsProgram, IsStageIf, IsThreadOf, layout_of, own_image};
ghost use Rattle.flat_meaning.specs.Words.{none_used};
ghost use Rattle.flat_threads.specs.inner.Flat.{IsFlatFunc};
ghost use Rattle.flat_threads.specs.inner.Parts.{fits_above};
ghost use Rattle.flat_threads.specs.inner.Steps as steps;
ghost use Rattle.flat_threads.specs.inner.Steps.{told_before};

use crate::call::Phase;
use crate::calls::{Calls, FRAMES, REGISTERS, SLOTS, STACK};
use crate::context::Context;
use crate::flat::{Flat, FlatFunc};
use crate::program::Program;
use flat_meaning::Stop;
use struct_ir::InstrKind;

/// What a thread stands before.
#[derive(Clone, Copy, PartialEq, Eq)]
pub(crate) enum Before {
    /// A safepoint.
    Safe,
    /// A Look, a step, or the return of the thread's first function.
    Shared,
    /// A call.
    Calls,
    /// The end of a round, or of a call.
    TurnOver,
    /// Nothing at which an event ends.
    Nothing,
}

// What a thread stands before.
fn stands_before(program: &Program, calls: &Calls) -> Before
    requires { IsThreadOf program.now calls.now }
    ensures before { result ≡ told_before (stages.before (own_image program.now) calls.now) }
    ensures small { calls.now.top.at.index + 1 < 2 ^ 32 }
    ensures program { IsProgram program.now }
{
    match calls.flat(program) {
        Flat::Safe => Before::Safe,
        Flat::Stop => Before::Shared,
        Flat::Enter => Before::Calls,
        Flat::Round(_) => Before::TurnOver,
        Flat::Leave => before_return(calls),
        _ => Before::Nothing,
    }
}

// A return is shared where no call waits.
fn before_return(calls: &Calls) -> Before
    ensures { result ≡ told_before (stages.before_return calls.now.callers) }
{
    if calls.callers.is_empty() {
        Before::Shared
    } else {
        Before::TurnOver
    }
}

/// Why a thread stops at once, if it does; one that is on its way finds that out at its next stop.
pub(crate) fn first_stop(program: &Program, ctx: &Context, most: u32) -> Option<Stop>
    requires { IsStageIf program.now ctx.now.stage }
    ensures { (stage : Stage Spot) → ctx.now.stage ≡ Some stage → result ≡ steps.first_stop program.now most stage }
{
    let parts = &*ctx.parts;
    match parts.phase {
        Phase::Away | Phase::Going => None,
        Phase::Starts(function, _) => {
            no_room_unless(is_small(&program.funcs[function as usize]))
        }
        Phase::Waiting | Phase::Landed => stop_before(program, &parts.calls, most),
    }
}

// The same, of a thread that is somewhere.
fn stop_before(program: &Program, calls: &Calls, most: u32) -> Option<Stop>
    requires { IsThreadOf program.now calls.now }
    ensures { result ≡ alone.stop_before (own_image program.now) most 0 calls.now (stages.before (own_image program.now) calls.now) }
{
    match stands_before(program, calls) {
        Before::Safe if most == 0 => Some(Stop::Spent),
        Before::Shared => Some(Stop::AtStep),
        Before::Calls => no_room_unless(may_enter(program, calls)),
        _ => None,
    }
}

fn no_room_unless(room: bool) -> Option<Stop>
    ensures { result ≡ alone.no_room_if room }
{
    if room { None } else { Some(Stop::NoRoom) }
}

// Whether there is room for the call before which a thread stands.
fn may_enter(program: &Program, calls: &Calls) -> bool
    requires { IsThreadOf program.now calls.now }
    ensures { (function : ℕ) → stages.before (own_image program.now) calls.now ≡ stages.calls function → result ≡ room_for (own_image program.now) calls.now function }
{
    match &calls.instr(program).kind {
        InstrKind::Enter(node) => has_room(program, calls, &program.funcs[node.function as usize]),
        _ => false,
    }
}

// A thread has room for a call of the function, if it has no other.
fn is_small(func: &FlatFunc) -> bool
    ensures { result ≡ fits_above none_used func.now }
{
    fits(0, 0, 0, 0, func)
}

// A thread has room for a call of the function above what it has.
pub(crate) fn has_room(program: &Program, calls: &Calls, func: &FlatFunc) -> bool
    requires { IsThreadOf program.now calls.now }
    ensures { (function : ℕ) (f : LinearFunc) → slice_get program.now.funcs function ≡ Some f → IsFlatFunc (layout_of program.now) f func.now → result ≡ room_for (own_image program.now) calls.now function }
{
    let top = &calls.top;
    let stack = program.funcs[top.function as usize].stack;
    fits(
        top.registers + top.own_registers,
        top.slots + top.own_slots,
        calls.callers.len() as u32 + 1,
        top.stack + stack,
        func,
    )
}

// There is room for a call of the function where so much is in use.
fn fits(registers: u32, slots: u32, frames: u32, stack: u32, func: &FlatFunc) -> bool
    requires { frames < 2 ^ 32 - 1 }
    ensures { result ≡ fits_above (record { registers = registers; slots = slots; frames = frames; stack = stack }) func.now }
{
    let registers = is_within(registers, func.temps, REGISTERS);
    let slots = is_within(slots, func.slots, SLOTS);
    let frames = frames + 1 <= FRAMES;
    let stack = is_within(stack, func.stack, STACK);
    (registers && slots) && (frames && stack)
}

fn is_within(used: u32, more: u32, most: u32) -> bool
    ensures { result ≡ nat_le (used + more) most }
{
    u64::from(used) + u64::from(more) <= u64::from(most)
}
