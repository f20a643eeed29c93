//! From structured code to linear code.

ghost use Rattle.std.specs.Prelude.{◌≡◌, IfOk, true};
ghost use Rattle.struct_ir.specs.Erased.{ir_erased};
ghost use Rattle.struct_ir.specs.LinearViews.{code_view};
ghost use Rattle.struct_ir.specs.Valid.{is_valid};
ghost use Rattle.struct_ir.specs.WholeViews.{ir_view};
ghost use Rattle.pin_checker.specs.CheckedViews.{program_in};
ghost use Rattle.pin_checker.specs.Safe.{IsSafe};
ghost use Rattle.compile_passes.specs.Compiled.{IsCompiled, IsPrepared};

use ak_words::NoMemory;
use emit_code::emit;
use hoist_pass::hoist_owned;
use pin_checker::{CheckFault, Checked, check};
use pin_frames::place_owned;
use std::alloc::Global;
use struct_ir::Ir;
use struct_ir::linear::Code;
use translate_pass::insert_owned;

/// The code with its Looks, hoisted, with safepoints and exact lists: the same once erased.
///
/// # Errors
///
/// Only want of memory.
pub fn prepare(alloc: Global, ir: Ir) -> Result<Ir, NoMemory>
    requires valid { is_valid (ir_view ir) ≡ true }
    requires bare { ir_erased (ir_view ir) ≡ ir_view ir }
    ensures { IfOk result (λ x. IsPrepared (ir_view ir) (ir_view x)) }
{
    let looked = insert_owned(alloc, ir)?;
    let hoisted = hoist_owned(alloc, looked)?;
    place_owned(alloc, hoisted)
}

// Code that is safe passes the check.
fn checked(alloc: Global, ir: Ir) -> Result<Checked, NoMemory>
    requires { IsSafe (ir_view ir) }
    ensures { IfOk result (λ c. program_in c ≡ ir_view ir) }
{
    match check(alloc, ir) {
        Ok(checked) => Ok(checked),
        Err(CheckFault::NoMemory) => Err(NoMemory),
        Err(CheckFault::Refused { .. }) => unreachable!(),
    }
}

/// The code that the passes prepared and the checker accepted, and the machine's code of it.
#[derive(Drop)]
pub struct Compiled {
    /// Structured code with its Looks, safepoints and lists.
    pub checked: Checked,
    /// Its linear code.
    pub code: Code,
}

/// The machine's code of structured code, and the checked code that it is of. The checker never
/// refuses what the passes prepare.
///
/// # Errors
///
/// Only want of memory.
pub fn compile(alloc: Global, ir: Ir) -> Result<Compiled, NoMemory>
    requires valid { is_valid (ir_view ir) ≡ true }
    requires bare { ir_erased (ir_view ir) ≡ ir_view ir }
    ensures { IfOk result (λ x. IsCompiled (ir_view ir) (program_in x.checked) (code_view x.code)) }
{
    let ready = prepare(alloc, ir)?;
    let checked = checked(alloc, ready)?;
    let code = emit(alloc, &checked)?;
    Ok(Compiled { checked, code })
}
