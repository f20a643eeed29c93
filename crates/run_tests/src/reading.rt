//! Callers of what reads code: the checker, the tests of code, the states of marks, the slots.

ghost use Rattle.std.specs.Prelude.{◌≡◌, ◌↔◌, is_some, IfOk, IfSome, IsTrue};
ghost use Rattle.struct_ir.specs.Erased.{ir_erased};
ghost use Rattle.struct_ir.specs.Valid.{is_valid};
ghost use Rattle.struct_ir.specs.Views.{nodes_view, func_view};
ghost use Rattle.struct_ir.specs.WholeViews.{ir_view};
ghost use Rattle.pin_flow.specs.Held.{held};
ghost use Rattle.pin_flow.specs.Marks.{bad, flow};
ghost use Rattle.pin_flow.specs.Slots.{bases_of, slot_if};
ghost use Rattle.pin_flow.specs.Views.{state_view};
ghost use Rattle.pin_checker.specs.Safe.{IsSafe};

use ak_words::NoMemory;
use pin_checker::{CheckFault, check};
use pin_flow::flow::ways_of;
use pin_flow::mark::Mark;
use pin_flow::slots::{bases_of, slot_of};
use pin_flow::state::State;
use std::alloc::Global;
use struct_ir::{Ir, IrFunc, Node, erase, is_valid};

/// Whether code is safe for moves.
pub fn is_safe(alloc: Global, ir: Ir) -> Result<bool, NoMemory>
    ensures { IfOk result (λ b. IsTrue b ↔ IsSafe (ir_view ir)) }
{
    match check(alloc, ir) {
        Ok(checked) => {
            let _ir = checked.ir();
            Ok(true)
        }
        Err(CheckFault::Refused { .. }) => Ok(false),
        Err(CheckFault::NoMemory) => Err(NoMemory),
    }
}

/// The bare code, where the code is valid.
pub fn bare_if_valid(alloc: Global, ir: &Ir) -> Result<Option<Ir>, NoMemory>
    ensures valid { IfOk result (λ o. IfSome o (λ x. IsTrue (is_valid (ir_view ir.now)))) }
    ensures erased { IfOk result (λ o. IfSome o (λ x. ir_view x ≡ ir_erased (ir_view ir.now))) }
{
    if is_valid(ir) {
        Ok(Some(erase(alloc, ir)?))
    } else {
        Ok(None)
    }
}

/// What the paths to the end of a row say of a register.
pub fn held_at_end(b: u32, rows: &[Node]) -> State
    ensures { state_view result ≡ (flow (held b) (nodes_view rows.now) bad).on }
{
    ways_of(Mark::Held(b), rows, State::Bad).on
}

/// Whether a register has a slot.
pub fn has_slot(alloc: Global, f: &IrFunc, b: u32) -> Result<bool, NoMemory>
    ensures { IfOk result (λ v. v ≡ is_some (slot_if (bases_of (func_view f.now)) b)) }
{
    // (there are no more bases than registers)
    let _temps = f.temps;
    let bases = bases_of(alloc, f)?;
    Ok(slot_of(&bases, b).is_some())
}
