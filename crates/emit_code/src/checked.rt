//! The linear code of checked code.

ghost use Rattle.std.specs.Prelude.{ℕ, IfOk};
ghost use Rattle.struct_ir.specs.Linear.{linear, entry_of};
ghost use Rattle.struct_ir.specs.LinearViews.{code_view};
ghost use Rattle.struct_ir.specs.Pins.{PinSafe};
ghost use Rattle.pin_checker.specs.CheckedViews.{program_in};
ghost use Rattle.struct_ir.specs.Emitted.{IsEmitted};

use crate::emitting::emit_code;
use ak_words::NoMemory;
use pin_checker::Checked;
use std::alloc::Global;
use struct_ir::linear::Code;

/// The linear code of checked code. It is safe for moves, as that is.
///
/// # Errors
///
/// Only want of memory.
pub fn emit(alloc: Global, checked: &Checked) -> Result<Code, NoMemory>
    ensures emitted { IfOk result (λ code. IsEmitted (program_in checked.now) (code_view code)) }
    ensures safe { IfOk result (λ code. (f : ℕ) → PinSafe (linear (code_view code).funcs) (entry_of f)) }
{
    emit_code(alloc, checked.ir())
}
