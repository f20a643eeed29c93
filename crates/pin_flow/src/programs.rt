//! Copies of programs.

ghost use Rattle.std.specs.Prelude.{◌≡◌, map, IfOk};
ghost use Rattle.struct_ir.specs.Views.{func_view};
ghost use Rattle.struct_ir.specs.WholeViews.{ir_view};

use crate::copies::copy_literals;
use crate::rows::copy_row;
use ak_words::NoMemory;
use std::alloc::Global;
use struct_ir::{Ir, IrFunc};

/// A copy of a program, with all that it holds.
///
/// # Errors
///
/// Only want of memory.
pub fn copy_ir(alloc: Global, ir: &Ir) -> Result<Ir, NoMemory>
    ensures { IfOk result (λ x. ir_view x ≡ ir_view ir.now) }
{
    let literals = copy_literals(alloc, &ir.literals)?;
    let funcs = copy_funcs(alloc, &ir.funcs)?;
    Ok(Ir {
        globals: ir.globals.to_vec(alloc)?,
        literals,
        funcs,
        main: ir.main,
    })
}

fn copy_funcs(alloc: Global, funcs: &[IrFunc]) -> Result<Vec<IrFunc>, NoMemory>
    ensures { IfOk result (λ v. map func_view v.items ≡ map func_view funcs.now) }
{
    let mut out = Vec::with_capacity(alloc, funcs.len())?;
    for f in funcs {
        out.push(copy_func(alloc, f)?)?;
    }
    Ok(out)
}

fn copy_func(alloc: Global, f: &IrFunc) -> Result<IrFunc, NoMemory>
    ensures { IfOk result (λ x. func_view x ≡ func_view f.now) }
{
    Ok(IrFunc {
        params: f.params,
        temps: f.temps,
        slots: f.slots,
        objects: f.objects.to_vec(alloc)?,
        nodes: copy_row(alloc, &f.nodes)?,
    })
}
