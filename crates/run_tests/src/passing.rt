//! Callers of what makes code of other code: the lowering and the passes.

ghost use Rattle.std.specs.Prelude.{◌≡◌, ◌≤◌, ◌+◌, ◌*◌, ℕ, true, IfOk, IfSome, length};
ghost use Rattle.c_tree.specs.TypedForm.{IsWellFormed};
ghost use Rattle.c_tree.specs.TypedViews.{typed_view};
ghost use Rattle.struct_ir.specs.Erased.{ir_erased};
ghost use Rattle.struct_ir.specs.Instrs.{instr_count};
ghost use Rattle.struct_ir.specs.Linear.{linear, entry_of};
ghost use Rattle.struct_ir.specs.LinearViews.{code_view};
ghost use Rattle.struct_ir.specs.Pins.{PinSafe};
ghost use Rattle.struct_ir.specs.Valid.{is_valid};
ghost use Rattle.struct_ir.specs.WholeViews.{ir_view};
ghost use Rattle.struct_ir.specs.Emitted.{nodes_count};
ghost use Rattle.struct_ir.specs.Safe.{EveryFunc, IsPinSafe};
ghost use Rattle.pin_flow.specs.Funcs.{IsCovered, IsExact, IsHoisted};
ghost use Rattle.pin_flow.specs.Slots.{HasOwnSlots};

use ak_words::NoMemory;
use c_tree::typed::Typed;
use compile_passes::{Compiled, compile};
use emit_code::emit_code;
use hoist_pass::hoist;
use ir_lower::lower;
use pin_frames::place;
use std::alloc::Global;
use struct_ir::linear::Code;
use struct_ir::{Ir, erase, is_placed, is_valid};
use translate_pass::insert;

/// The code that the passes take, of a well formed program.
pub fn ready(alloc: Global, typed: &Typed) -> Result<Ir, NoMemory>
    requires { IsWellFormed (typed_view typed.now) }
    ensures valid { IfOk result (λ x. is_valid (ir_view x) ≡ true) }
    ensures bare { IfOk result (λ x. ir_erased (ir_view x) ≡ ir_view x) }
{
    lower(alloc, typed)
}

/// The code with its Looks, and the code without them again.
pub fn there_and_back(alloc: Global, ir: &Ir) -> Result<(Ir, Ir), NoMemory>
    requires valid { is_valid (ir_view ir.now) ≡ true }
    requires bare { ir_erased (ir_view ir.now) ≡ ir_view ir.now }
    ensures valid { IfOk result (λ p. is_valid (ir_view p.0) ≡ true) }
    ensures covered { IfOk result (λ p. EveryFunc IsCovered (ir_view p.0)) }
    ensures back { IfOk result (λ p. ir_view p.1 ≡ ir_view ir.now) }
{
    let there = insert(alloc, ir)?;
    let back = erase(alloc, &there)?;
    Ok((there, back))
}

/// What was hoisted may be hoisted again.
pub fn hoist_twice(alloc: Global, ir: &Ir) -> Result<Ir, NoMemory>
    requires valid { is_valid (ir_view ir.now) ≡ true }
    requires covered { EveryFunc IsCovered (ir_view ir.now) }
    requires slots { EveryFunc HasOwnSlots (ir_view ir.now) }
    ensures valid { IfOk result (λ x. is_valid (ir_view x) ≡ true) }
    ensures erased { IfOk result (λ x. ir_erased (ir_view x) ≡ ir_erased (ir_view ir.now)) }
    ensures hoisted { IfOk result (λ x. EveryFunc IsHoisted (ir_view x)) }
{
    let once = hoist(alloc, ir)?;
    hoist(alloc, &once)
}

/// Code that was placed before may be placed again.
pub fn place_twice(alloc: Global, ir: &Ir) -> Result<Ir, NoMemory>
    requires named { is_valid (ir_erased (ir_view ir.now)) ≡ true }
    requires slots { EveryFunc HasOwnSlots (ir_view ir.now) }
    ensures erased { IfOk result (λ x. ir_erased (ir_view x) ≡ ir_erased (ir_view ir.now)) }
    ensures exact { IfOk result (λ x. EveryFunc IsExact (ir_view x)) }
{
    let once = place(alloc, ir)?;
    place(alloc, &once)
}

/// The linear code, where the code is valid and safepoints stand as they should: what is safe stays so, and there are at most two instructions a node and
/// one a function.
pub fn emit_if_placed(alloc: Global, ir: &Ir) -> Result<Option<Code>, NoMemory>
    ensures safe { IfOk result (λ o. IfSome o (λ code. EveryFunc IsPinSafe (ir_view ir.now) → (f : ℕ) → PinSafe (linear (code_view code).funcs) (entry_of f))) }
    ensures short { IfOk result (λ o. IfSome o (λ code. instr_count (code_view code).funcs ≤ 2 * nodes_count (ir_view ir.now).funcs + length (ir_view ir.now).funcs)) }
{
    if is_placed(ir) && is_valid(ir) {
        Ok(Some(emit_code(alloc, ir)?))
    } else {
        Ok(None)
    }
}

/// Code that is safe for moves.
pub fn safe_code(alloc: Global, ir: Ir) -> Result<Code, NoMemory>
    requires valid { is_valid (ir_view ir) ≡ true }
    requires bare { ir_erased (ir_view ir) ≡ ir_view ir }
    ensures { IfOk result (λ code. (f : ℕ) → PinSafe (linear (code_view code).funcs) (entry_of f)) }
{
    let Compiled { code, .. } = compile(alloc, ir)?;
    Ok(code)
}
