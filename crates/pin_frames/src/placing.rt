//! Programs with their safepoints and lists.

ghost use Rattle.std.specs.Prelude.{◌≡◌, ◌<◌, ◌^◌, length, map, None, true, false, IfOk, IfSome};
ghost use Rattle.std.specs.List.{list_all};
ghost use Rattle.struct_ir.specs.Erased.{ir_erased};
ghost use Rattle.struct_ir.specs.Nodes.{no_nodes};
ghost use Rattle.struct_ir.specs.Placed.{all_due};
ghost use Rattle.struct_ir.specs.Valid.{is_valid, are_placed};
ghost use Rattle.struct_ir.specs.Views.{nodes_view, func_view};
ghost use Rattle.struct_ir.specs.WholeViews.{ir_view};
ghost use Rattle.pin_flow.specs.Marks.{bad};
ghost use Rattle.pin_flow.specs.Live.{lives};
ghost use Rattle.struct_ir.specs.Safe.{EveryFunc, IsPinSafe};
ghost use Rattle.pin_flow.specs.Funcs.{IsCovered, IsExact, IsExactAtPoints, IsHoisted, IsHoistedAtPoints, IsHoistedThroughout};
ghost use Rattle.pin_flow.specs.Slots.{HasOwnSlots, slot_if, slot_in};
ghost use Rattle.pin_frames.specs.inner.Place.{seated, cleared, listed, none_held, none_later, listed_one, listed_for, listed_each, func_placed, ir_placed};
ghost use Rattle.mark_sets.specs.Added.{loops};
ghost use Rattle.mark_sets.specs.Heads.{AreHeads};
ghost use Rattle.mark_sets.specs.Homes.{AreOnce, AreHomes};

use crate::listing::list_row;
use crate::lives::lives_of;
use crate::seating::seat_row;
use crate::together::list_row as list_all;
use crate::unlisted::free_row;
use ak_words::NoMemory;
use mark_sets::heads::{Outline, outline_of};
use mark_sets::homes::homes_of;
use mark_sets::words::is_empty;
use pin_flow::programs::copy_ir;
use pin_flow::rows::copy_row;
use pin_flow::slots::{bases_of, slot_of};
use pin_flow::state::State;
use std::alloc::Global;
use struct_ir::{Ir, IrFunc, Node};

/// The code with a safepoint before and behind each call and at the end of each loop's step. Each
/// list of slots has just those that are available there and used later, and those that its own
/// step uses. Safepoints and lists that it had before are left out.
///
/// # Errors
///
/// Only want of memory.
pub fn place(alloc: Global, ir: &Ir) -> Result<Ir, NoMemory>
    requires named { is_valid (ir_erased (ir_view ir.now)) ≡ true }
    requires slots { EveryFunc HasOwnSlots (ir_view ir.now) }
    ensures erased { IfOk result (λ x. ir_erased (ir_view x) ≡ ir_erased (ir_view ir.now)) }
    ensures slots { IfOk result (λ x. EveryFunc HasOwnSlots (ir_view x)) }
    ensures stand { IfOk result (λ x. list_all (λ f. are_placed None f.nodes) (ir_view x).funcs ≡ true) }
    ensures due { IfOk result (λ x. all_due (ir_view x) ≡ true) }
    ensures exact { IfOk result (λ x. EveryFunc IsExact (ir_view x)) }
    ensures exact_at_points { IfOk result (λ x. EveryFunc IsExactAtPoints (ir_view x)) }
    ensures safe { EveryFunc IsCovered (ir_view ir.now) → IfOk result (λ x. EveryFunc IsPinSafe (ir_view x)) }
    ensures hoisted { EveryFunc IsHoistedThroughout (ir_view ir.now) → IfOk result (λ x. EveryFunc IsHoisted (ir_view x)) }
    ensures throughout { EveryFunc IsHoistedThroughout (ir_view ir.now) → IfOk result (λ x. EveryFunc IsHoistedThroughout (ir_view x)) }
    ensures hoisted_at_points { EveryFunc IsHoistedThroughout (ir_view ir.now) → IfOk result (λ x. EveryFunc IsHoistedAtPoints (ir_view x)) }
    ensures valid { is_valid (ir_view ir.now) ≡ true → IfOk result (λ x. is_valid (ir_view x) ≡ true) }
{
    let own = copy_ir(alloc, ir)?;
    place_owned(alloc, own)
}

/// The same, of code that nothing needs any more: what stays of it isn't copied.
///
/// # Errors
///
/// Only want of memory.
pub fn place_owned(alloc: Global, ir: Ir) -> Result<Ir, NoMemory>
    requires named { is_valid (ir_erased (ir_view ir)) ≡ true }
    requires slots { EveryFunc HasOwnSlots (ir_view ir) }
    ensures erased { IfOk result (λ x. ir_erased (ir_view x) ≡ ir_erased (ir_view ir)) }
    ensures slots { IfOk result (λ x. EveryFunc HasOwnSlots (ir_view x)) }
    ensures stand { IfOk result (λ x. list_all (λ f. are_placed None f.nodes) (ir_view x).funcs ≡ true) }
    ensures due { IfOk result (λ x. all_due (ir_view x) ≡ true) }
    ensures exact { IfOk result (λ x. EveryFunc IsExact (ir_view x)) }
    ensures exact_at_points { IfOk result (λ x. EveryFunc IsExactAtPoints (ir_view x)) }
    ensures safe { EveryFunc IsCovered (ir_view ir) → IfOk result (λ x. EveryFunc IsPinSafe (ir_view x)) }
    ensures hoisted { EveryFunc IsHoistedThroughout (ir_view ir) → IfOk result (λ x. EveryFunc IsHoisted (ir_view x)) }
    ensures throughout { EveryFunc IsHoistedThroughout (ir_view ir) → IfOk result (λ x. EveryFunc IsHoistedThroughout (ir_view x)) }
    ensures hoisted_at_points { EveryFunc IsHoistedThroughout (ir_view ir) → IfOk result (λ x. EveryFunc IsHoistedAtPoints (ir_view x)) }
    ensures valid { is_valid (ir_view ir) ≡ true → IfOk result (λ x. is_valid (ir_view x) ≡ true) }
{
    place_all(alloc, ir)
}

fn place_all(alloc: Global, ir: Ir) -> Result<Ir, NoMemory>
    ensures { IfOk result (λ x. ir_view x ≡ ir_placed (ir_view ir)) }
{
    let funcs = place_funcs(alloc, ir.funcs)?;
    Ok(Ir {
        globals: ir.globals,
        literals: ir.literals,
        funcs,
        main: ir.main,
    })
}

fn place_funcs(alloc: Global, funcs: Vec<IrFunc>) -> Result<Vec<IrFunc>, NoMemory>
    ensures { IfOk result (λ v. map func_view v.items ≡ map func_placed (map func_view funcs.items)) }
{
    let mut out = Vec::with_capacity(alloc, funcs.len())?;
    for f in funcs {
        out.push(place_func(alloc, f)?)?;
    }
    Ok(out)
}

fn place_func(alloc: Global, f: IrFunc) -> Result<IrFunc, NoMemory>
    ensures { IfOk result (λ x. func_view x ≡ func_placed (func_view f)) }
{
    let bases = bases_of(alloc, &f)?;
    let nodes = list_bases(alloc, bases, f.nodes)?;
    Ok(IrFunc {
        params: f.params,
        temps: f.temps,
        slots: f.slots,
        objects: f.objects,
        nodes,
    })
}

// All registers at once where that serves, and else one after the other.
fn list_bases(alloc: Global, bases: Vec<u32>, rows: Vec<Node>) -> Result<Vec<Node>, NoMemory>
    requires few { length bases.items < 2 ^ 32 }
    requires once { AreOnce bases.items }
    ensures { IfOk result (λ v. nodes_view v.items ≡ listed_each (slot_if bases.items) bases.items (seated (cleared (nodes_view rows.items)) no_nodes)) }
{
    let code = seat_row(alloc, rows)?;
    // (nothing is listed where no register is the base of an access: the code needs no copy)
    if bases.is_empty() {
        return Ok(code);
    }
    let homes = homes_of(alloc, bases)?;
    let outline = outline_of(alloc, homes, &code)?;
    match list_together(alloc, &outline, &code)? {
        Some(done) => Ok(done),
        None => list_in_turn(alloc, &outline.homes.bases, code),
    }
}

// None where some act doesn't keep what is used behind it, or something is used before its Look.
fn list_together(
    alloc: Global,
    outline: &Outline,
    code: &[Node],
) -> Result<Option<Vec<Node>>, NoMemory>
    requires homes { AreHomes outline.now.homes }
    requires count { length outline.now.heads.items ≡ loops (nodes_view code.now) }
    requires heads { AreHeads outline.now.homes.bases.items outline.now.heads.items 0 (nodes_view code.now) }
    ensures { IfOk result (λ o. IfSome o (λ v. nodes_view v.items ≡ listed (slot_in outline.now.homes.bases.items) outline.now.homes.bases.items (nodes_view code.now) none_held none_later)) }
{
    let mut rows = copy_row(alloc, code)?;
    let none = Vec::new(alloc);
    let mut next = 0;
    let walked = list_all(
        alloc,
        outline,
        &mut next,
        &mut rows,
        Vec::new(alloc),
        &none,
        &none,
    )?;
    if walked.kept && is_empty(&walked.on) {
        Ok(Some(rows))
    } else {
        Ok(None)
    }
}

fn list_in_turn(alloc: Global, bases: &[u32], rows: Vec<Node>) -> Result<Vec<Node>, NoMemory>
    requires { length bases.now < 2 ^ 32 }
    ensures { IfOk result (λ v. nodes_view v.items ≡ listed_each (slot_if bases.now) bases.now (nodes_view rows.items)) }
{
    let mut code = rows;
    for b in bases {
        code = list_base(alloc, bases, *b, code)?;
    }
    Ok(code)
}

fn list_base(alloc: Global, bases: &[u32], b: u32, code: Vec<Node>) -> Result<Vec<Node>, NoMemory>
    requires { length bases.now < 2 ^ 32 }
    ensures { IfOk result (λ v. nodes_view v.items ≡ listed_for (slot_if bases.now b) b (nodes_view code.items)) }
{
    match slot_of(bases, b) {
        Some(slot) => list_one(alloc, slot, b, code),
        None => Ok(code),
    }
}

// Most slots are used before the next list, and their code stays as it is.
fn list_one(alloc: Global, slot: u32, b: u32, code: Vec<Node>) -> Result<Vec<Node>, NoMemory>
    ensures { IfOk result (λ v. nodes_view v.items ≡ listed_one slot b (nodes_view code.items) bad (lives false false false)) }
{
    let nothing = lives_of(false, false, false);
    if free_row(slot, b, &code, nothing).is_some() {
        Ok(code)
    } else {
        let mut code = code;
        list_row(alloc, slot, b, &mut code, State::Bad, nothing)?;
        Ok(code)
    }
}
