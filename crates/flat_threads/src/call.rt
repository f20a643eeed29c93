ghost use Rattle.std.specs.Prelude.{◌≡◌, ◌+◌, ◌^◌, ◌<◌, Some, slice_get};
ghost use Rattle.struct_ir.specs.Instrs.{instrs_of};
ghost use Rattle.struct_ir.specs.InstrViews.{instr_view};
ghost use Rattle.flat_threads.specs.Contexts.{IsProgram};
ghost use Rattle.flat_threads.specs.inner.Arrays.{call_above};
ghost use Rattle.flat_threads.specs.inner.Parts.{IsAt};

use crate::flat::FlatFunc;
use crate::program::Program;
use struct_ir::Instr;

/// A call: the instruction before which it stands, and where in its thread's arrays what it has begins.
#[derive(Clone, Copy)]
pub(crate) struct Call {
    /// The number of its function.
    pub function: u32,
    /// The index of the instruction.
    pub index: u32,
    /// Its first register, and how many it has.
    pub registers: u32,
    pub own_registers: u32,
    /// Its first pin slot, and how many it has.
    pub slots: u32,
    pub own_slots: u32,
    /// The first byte of its stack objects, from the start of its thread's stack.
    pub stack: u32,
}

impl Call {
    /// The call of a thread that has none: it has nothing.
    pub(crate) fn none() -> Call
        ensures { result ≡ record { function = 0; index = 0; registers = 0; own_registers = 0; slots = 0; own_slots = 0; stack = 0 } }
    {
        Call {
            function: 0,
            index: 0,
            registers: 0,
            own_registers: 0,
            slots: 0,
            own_slots: 0,
            stack: 0,
        }
    }

    /// A call of a function directly above this one, whose stack objects take so many bytes; it stands before its first instruction.
    pub(crate) fn above(&self, stack: u32, function: u32, func: &FlatFunc) -> Call
        requires registers { self.now.registers + self.now.own_registers < 2 ^ 32 }
        requires slots { self.now.slots + self.now.own_slots < 2 ^ 32 }
        requires stack { self.now.stack + stack < 2 ^ 32 }
        ensures { result ≡ call_above self.now stack function func.now.temps func.now.slots }
    {
        Call {
            function,
            index: 0,
            registers: self.registers + self.own_registers,
            own_registers: func.temps,
            slots: self.slots + self.own_slots,
            own_slots: func.slots,
            stack: self.stack + stack,
        }
    }

    /// The instruction before which it stands.
    pub(crate) fn instr<'a>(&self, program: &'a Program) -> &'a Instr
        requires { IsAt program.now (record { function = self.now.function; index = self.now.index }) }
        ensures is { slice_get (instrs_of program.now.funcs self.now.function) self.now.index ≡ Some (instr_view result.now) }
        ensures small { self.now.index + 1 < 2 ^ 32 }
        ensures program { IsProgram program.now }
    {
        &program.code.funcs[self.function as usize].instrs[self.index as usize]
    }
}

/// How far a thread is.
#[derive(Clone, Copy)]
pub(crate) enum Phase {
    /// It hasn't begun, or has ended.
    Away,
    /// A function is before it, with the word of its argument.
    Starts(u32, u64),
    /// It is somewhere.
    Going,
    /// It stands before a step that couldn't be done.
    Waiting,
    /// A step with a list is done, and it hasn't gone on since.
    Landed,
}
