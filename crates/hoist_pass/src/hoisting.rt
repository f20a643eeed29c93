ghost use Rattle.std.specs.Prelude.{◌≡◌, ◌<◌, ◌^◌, length, map, IfOk, OnOk, true};
ghost use Rattle.struct_ir.specs.Erased.{ir_erased};
ghost use Rattle.struct_ir.specs.Valid.{is_valid};
ghost use Rattle.struct_ir.specs.Views.{nodes_view, func_view};
ghost use Rattle.struct_ir.specs.WholeViews.{ir_view};
ghost use Rattle.struct_ir.specs.Safe.{EveryFunc};
ghost use Rattle.pin_flow.specs.Funcs.{IsCovered, IsHoisted, IsHoistedThroughout};
ghost use Rattle.pin_flow.specs.Slots.{HasOwnSlots, slot_if};
ghost use Rattle.hoist_pass.specs.inner.Hoist.{hoisted_each, func_hoisted, ir_hoisted, AreDistinct};

use crate::dropping::drop_row;
use crate::lifting::lift_row;
use ak_words::NoMemory;
use mark_sets::gather::gather_each;
use mark_sets::marks::held_marks;
use mark_sets::sets::Sets;
use mark_sets::words::full;
use pin_flow::programs::copy_ir;
use pin_flow::slots::bases_of;
use std::alloc::Global;
use struct_ir::{Ir, IrFunc, Node};

/// The code with each Look before the outermost loop that doesn't assign its register, and without
/// the Looks of registers for which a slot is available there.
///
/// # Errors
///
/// Only want of memory.
pub fn hoist(alloc: Global, ir: &Ir) -> Result<Ir, NoMemory>
    requires valid { is_valid (ir_view ir.now) ≡ true }
    requires covered { EveryFunc IsCovered (ir_view ir.now) }
    requires slots { EveryFunc HasOwnSlots (ir_view ir.now) }
    ensures valid { IfOk result (λ x. is_valid (ir_view x) ≡ true) }
    ensures erased { IfOk result (λ x. ir_erased (ir_view x) ≡ ir_erased (ir_view ir.now)) }
    ensures covered { IfOk result (λ x. EveryFunc IsCovered (ir_view x)) }
    ensures slots { IfOk result (λ x. EveryFunc HasOwnSlots (ir_view x)) }
    ensures hoisted { IfOk result (λ x. EveryFunc IsHoisted (ir_view x)) }
    ensures throughout { IfOk result (λ x. EveryFunc IsHoistedThroughout (ir_view x)) }
{
    let own = copy_ir(alloc, ir)?;
    hoist_owned(alloc, own)
}

/// The same, of code that nothing needs any more: what stays of it isn't copied.
///
/// # Errors
///
/// Only want of memory.
pub fn hoist_owned(alloc: Global, ir: Ir) -> Result<Ir, NoMemory>
    requires valid { is_valid (ir_view ir) ≡ true }
    requires covered { EveryFunc IsCovered (ir_view ir) }
    requires slots { EveryFunc HasOwnSlots (ir_view ir) }
    ensures valid { IfOk result (λ x. is_valid (ir_view x) ≡ true) }
    ensures erased { IfOk result (λ x. ir_erased (ir_view x) ≡ ir_erased (ir_view ir)) }
    ensures covered { IfOk result (λ x. EveryFunc IsCovered (ir_view x)) }
    ensures slots { IfOk result (λ x. EveryFunc HasOwnSlots (ir_view x)) }
    ensures hoisted { IfOk result (λ x. EveryFunc IsHoisted (ir_view x)) }
    ensures throughout { IfOk result (λ x. EveryFunc IsHoistedThroughout (ir_view x)) }
{
    hoist_all(alloc, ir)
}

fn hoist_all(alloc: Global, ir: Ir) -> Result<Ir, NoMemory>
    ensures { IfOk result (λ x. ir_view x ≡ ir_hoisted (ir_view ir)) }
{
    let funcs = hoist_funcs(alloc, ir.funcs)?;
    Ok(Ir {
        globals: ir.globals,
        literals: ir.literals,
        funcs,
        main: ir.main,
    })
}

fn hoist_funcs(alloc: Global, funcs: Vec<IrFunc>) -> Result<Vec<IrFunc>, NoMemory>
    ensures { IfOk result (λ v. map func_view v.items ≡ map func_hoisted (map func_view funcs.items)) }
{
    let mut out = Vec::with_capacity(alloc, funcs.len())?;
    for f in funcs {
        out.push(hoist_func(alloc, f)?)?;
    }
    Ok(out)
}

fn hoist_func(alloc: Global, f: IrFunc) -> Result<IrFunc, NoMemory>
    ensures { IfOk result (λ x. func_view x ≡ func_hoisted (func_view f)) }
{
    let bases = bases_of(alloc, &f)?;
    let nodes = hoist_bases(alloc, &bases, f.nodes)?;
    Ok(IrFunc {
        params: f.params,
        temps: f.temps,
        slots: f.slots,
        objects: f.objects,
        nodes,
    })
}

// All of them in one walk that lifts, one that gathers what rounds add, and one that drops.
fn hoist_bases(alloc: Global, bases: &[u32], rows: Vec<Node>) -> Result<Vec<Node>, NoMemory>
    requires few { length bases.now < 2 ^ 32 }
    requires distinct { AreDistinct bases.now }
    ensures { IfOk result (λ v. nodes_view v.items ≡ hoisted_each (slot_if bases.now) bases.now (nodes_view rows.items)) }
{
    let marks = held_marks(alloc, bases)?;
    let lifted = lift_row(alloc, bases, &marks, rows)?;
    let sets = gather_each(alloc, &marks, &lifted.rows)?;
    let start = Sets::Bads(full(alloc, marks.count)?);
    let mut next = 0;
    let dropped = drop_row(alloc, &marks, &sets, &mut next, lifted.rows, start)?;
    Ok(dropped.rows)
}
