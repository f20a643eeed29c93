//! Linear code: what the machine runs.

ghost use Rattle.std.specs.Prelude.{◌≤◌, map, length, slice_get, IsTrue};
ghost use Rattle.std.proofs.Props.{props};
ghost use Rattle.std.specs.List.{list_all};
ghost use Rattle.c_tree.specs.TypedViews.{literal_view};
ghost use Rattle.struct_ir.specs.InstrViews.{instr_view};
ghost use Rattle.struct_ir.specs.Lawful.{IsLawful};
ghost use Rattle.struct_ir.specs.Valid.{has_params};
ghost use Rattle.struct_ir.specs.ValidCode.{is_valid_code};
ghost use Rattle.struct_ir.specs.Views.{object_view, global_view};
ghost use Rattle.struct_ir.specs.Whole.{is_init_in, plain_bytes};

use crate::code::{Calc, CallNode, IrGlobal, StackObject, StepNode};
use c_tree::typed::Literal;

/// An instruction, with its place in the text.
#[derive(Drop)]
pub struct Instr {
    /// A byte offset from 0.
    pub place: u32,
    /// What the instruction does.
    pub kind: InstrKind,
}

/// What an instruction does. All but four go on at the instruction behind them.
#[derive(Drop)]
pub enum InstrKind {
    /// Sets a register.
    Set(u32, Calc),
    /// Does an action.
    Step(Box<StepNode>),
    /// Puts into a pin slot the word of a register and that word's address.
    Look(u32, u32),
    /// A point at which objects may move, but for those that these slots name.
    Safe(Vec<u32>),
    /// Goes on at an index where the register is 0 or null, and else behind itself.
    Unless(u32, usize),
    /// Goes on at an index, which is later.
    Jump(usize),
    /// Ends a round of a loop, and goes on at an index, which isn't later.
    Round(usize),
    /// Calls a function.
    Enter(Box<CallNode>),
    /// Returns, with the value of a register.
    Leave(Option<u32>),
}

/// A function. By its type its instructions are lawful: jumps, tests and what is done lead to later
/// ones, a round goes back from directly behind a safepoint, a call stands between two, no jump, test
/// or round leads past the safepoint before a round or a call, and the last one returns.
#[derive(Drop)]
pub struct CodeFunc {
    /// How many parameters it has; these are its first registers.
    pub params: u32,
    /// How many registers it has.
    pub temps: u32,
    /// How many pin slots it has.
    pub slots: u32,
    /// Its stack objects.
    pub objects: Vec<StackObject>,
    /// Its instructions.
    pub instrs: Vec<Instr>,
    pub ghost params_are_registers: { params ≤ temps },
    pub ghost is_lawful: { IsLawful (map instr_view instrs.items) } by { Prim.hlevel props },
}

/// Linear code of a program. By its type it is valid: each instruction names only registers, slots,
/// stack objects, globals, literals and functions that are there, calls give as many arguments as
/// their functions have parameters, and no list names a slot twice. Main is one of the functions and
/// has no parameter, each literal that a global begins with is there, and globals and literals fit
/// the plain area.
#[derive(Drop)]
pub struct Code {
    /// The globals, in order.
    pub globals: Vec<IrGlobal>,
    /// The string literals, in order.
    pub literals: Vec<Literal>,
    /// The functions, in order.
    pub funcs: Vec<CodeFunc>,
    /// The number of main.
    pub main: u32,
    pub ghost main_takes_nothing: { IsTrue (has_params (slice_get (map (λ f. f.params) funcs.items) main) 0) },
    pub ghost literals_are_there: { IsTrue (list_all (λ g. is_init_in (length (map literal_view literals.items)) g.init) (map global_view globals.items)) },
    pub ghost fits_the_plain_area: { plain_bytes (map global_view globals.items) (map literal_view literals.items) ≤ 1048576 },
    pub ghost is_valid: { IsTrue (is_valid_code (record { globals = map global_view globals.items; literals = map literal_view literals.items; funcs = map (λ f. record { params = f.params; temps = f.temps; slots = f.slots; objects = map object_view f.objects.items; instrs = map instr_view f.instrs.items }) funcs.items; main = main })) },
}
