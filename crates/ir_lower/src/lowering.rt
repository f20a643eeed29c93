//! Functions and programs.

ghost use Rattle.std.specs.Prelude.{◌≡◌, ◌+◌, ◌*◌, IfOk, OnOk, true, map, length, [], None};
ghost use Rattle.std.specs.List.{AllByRecursion};
ghost use Rattle.c_tree.specs.TypedForm.{IsWellFormed};
ghost use Rattle.c_tree.specs.Typed.{stmts_of};
ghost use Rattle.lower_forms.specs.Counts.{greatest_row, switches_in};
ghost use Rattle.c_tree.specs.TypedViews.{stmt_view, layout_view, global_view, local_view, func_view as tree_func_view, typed_view};
ghost use Rattle.struct_ir.specs.Views.{object_view, func_view, global_view as ir_global_view, nodes_view, followed};
ghost use Rattle.struct_ir.specs.WholeViews.{ir_view};
ghost use Rattle.struct_ir.specs.Erased.{ir_erased};
ghost use Rattle.struct_ir.specs.Valid.{is_valid};
ghost use Rattle.struct_ir.specs.Nodes.{Nodes};
ghost use Rattle.lower_forms.specs.Forms.{opened, objects_in, row_nodes};
ghost use Rattle.lower_forms.specs.Laws.{AllBounded};
ghost use Rattle.lower_forms.specs.Programs.{HasParams, homes_from, object_of, objects_of, last_nodes, func_lowered, funcs_lowered, global_lowered, globals_lowered, lowered};
ghost use Rattle.lower_expressions.specs.FrameViews.{frame_view};

use crate::counts::{greatest_row, sum, switches_in};
use crate::left::objects_in;
use crate::statements::{joined, opened, row};
use ak_words::NoMemory;
use c_meaning::types::size_in;
use c_tree::typed::{Func, GlobalVar, Layout, Local, Stmt, Typed};
use lower_expressions::frame::Frame;
use lower_expressions::nodes::{after, put, sets_int};
use lower_expressions::types::small_align;
use std::alloc::Global;
use struct_ir::copying::copy_literals;
use struct_ir::{Ir, IrFunc, IrGlobal, Node, NodeKind, StackObject};

/// The structured code of a typed program: just the nodes that each form of the tree is lowered
/// to. A local without a block is kept in the register of its own number, and each other local is
/// a stack object. The code is valid, without Looks, safepoints, slots and lists, and bounded by
/// the size of the tree.
///
/// # Errors
///
/// Only want of memory.
pub fn lower(alloc: Global, typed: &Typed) -> Result<Ir, NoMemory>
    requires { IsWellFormed (typed_view typed.now) }
    ensures lowered { IfOk result (λ x. ir_view x ≡ lowered (typed_view typed.now)) }
    ensures valid { IfOk result (λ x. is_valid (ir_view x) ≡ true) }
    ensures bare { IfOk result (λ x. ir_erased (ir_view x) ≡ ir_view x) }
    ensures bounded { IfOk result (λ x. AllBounded (typed_view typed.now) (ir_view x)) }
{
    let globals = lower_globals(alloc, &typed.structs, &typed.globals)?;
    let literals = copy_literals(alloc, &typed.literals)?;
    let funcs = lower_funcs(alloc, &typed.structs, typed.main, &typed.funcs)?;
    Ok(Ir {
        globals,
        literals,
        funcs,
        main: typed.main,
    })
}

fn lower_globals(
    alloc: Global,
    structs: &[Layout],
    globals: &[GlobalVar],
) -> Result<Vec<IrGlobal>, NoMemory>
    ensures { IfOk result (λ v. map ir_global_view v.items ≡ globals_lowered (map layout_view structs.now) (map global_view globals.now)) }
{
    let mut all = Vec::new(alloc);
    for g in globals {
        all.push(lower_global(structs, g)?)?;
    }
    Ok(all)
}

fn lower_global(structs: &[Layout], g: &GlobalVar) -> Result<IrGlobal, NoMemory>
    ensures { IfOk result (λ x. ir_global_view x ≡ global_lowered (map layout_view structs.now) (global_view g.now)) }
{
    Ok(IrGlobal {
        size: size_in(&g.ty, structs)?,
        align: small_align(&g.ty, structs)?,
        init: g.init,
    })
}

// A function has no more parameters than locals.
fn lower_funcs(
    alloc: Global,
    structs: &[Layout],
    main: u32,
    funcs: &[Func],
) -> Result<Vec<IrFunc>, NoMemory>
    requires { AllByRecursion HasParams (map tree_func_view funcs.now) }
    ensures { IfOk result (λ v. map func_view v.items ≡ funcs_lowered (map layout_view structs.now) main 0 (map tree_func_view funcs.now)) }
{
    let mut all = Vec::new(alloc);
    for (i, f) in funcs.iter().enumerate() {
        all.push(lower_func(alloc, structs, i == main as usize, f)?)?;
    }
    Ok(all)
}

fn lower_func(
    alloc: Global,
    structs: &[Layout],
    is_main: bool,
    f: &Func,
) -> Result<IrFunc, NoMemory>
    requires { HasParams (tree_func_view f.now) }
    ensures { IfOk result (λ x. func_view x ≡ func_lowered (map layout_view structs.now) is_main (tree_func_view f.now)) }
{
    let homes = homes(alloc, &f.locals)?;
    let frame = frame(structs, &homes, &f.locals)?;
    let temps = registers(&f.locals, &f.body)?;
    let mut nodes = Vec::new(alloc);
    body(alloc, &f.body, &frame, &mut nodes)?;
    last(&mut nodes, is_main, temps)?;
    Ok(IrFunc {
        params: f.params,
        temps,
        slots: 0,
        objects: objects(alloc, structs, &f.locals)?,
        nodes,
    })
}

// The body of a function, which is the outermost block; its objects end with the call.
fn body(alloc: Global, all: &[Stmt], f: &Frame, out: &mut Vec<Node>) -> Result<(), NoMemory>
    ensures { OnOk result ((rest : Nodes) → followed out.new.items rest ≡ followed out.old.items (row_nodes (opened (frame_view f.now) (objects_in (frame_view f.now) (stmts_of (map stmt_view all.now)))) (stmts_of (map stmt_view all.now)) [] rest)) }
{
    let own = objects_in(alloc, f, all)?;
    let around = joined(alloc, &own, f.around)?;
    row(alloc, all, &opened(f, &around), &[], out)
}

// Main that reaches its end gives 0.
fn last(out: &mut Vec<Node>, is_main: bool, temps: u32) -> Result<(), NoMemory>
    ensures { IfOk result (λ x. nodes_view out.new.items ≡ followed out.old.items (last_nodes is_main temps)) }
{
    if is_main && temps > 0 {
        sets_int(out, 0, 0, 0)?;
        put(out, 0, NodeKind::Ret(Some(0)))?;
    }
    Ok(())
}

// A count that a register's number can be.
fn small(n: usize) -> Result<u32, NoMemory>
    ensures { IfOk result (λ m. m ≡ n) }
{
    match u32::try_from(n) {
        Ok(m) => Ok(m),
        Err(_) => Err(NoMemory),
    }
}

// What stays the same in a function of these locals, which have these homes.
fn frame<'a>(
    structs: &'a [Layout],
    homes: &'a [Option<u32>],
    locals: &[Local],
) -> Result<Frame<'a, 'static, 'static>, NoMemory>
    requires { homes.now ≡ homes_from 0 (map local_view locals.now) }
    ensures { IfOk result (λ f. frame_view f ≡ record { structs = map layout_view structs.now; homes = homes_from 0 (map local_view locals.now); first = length (map local_view locals.now); flag = None; around = []; outer = [] }) }
{
    Ok(Frame {
        structs,
        homes,
        first_temp: small(locals.len())?,
        flag: None,
        around: &[],
        outer: &[],
    })
}

// How many registers a function of these locals has.
fn registers(locals: &[Local], body: &[Stmt]) -> Result<u32, NoMemory>
    ensures { IfOk result (λ n. n ≡ length (map local_view locals.now) + (greatest_row (stmts_of (map stmt_view body.now)) + 2 * switches_in (stmts_of (map stmt_view body.now)))) }
{
    let greatest = greatest_row(body)?;
    let switches = switches_in(body)?;
    let few = sum(switches, switches)?;
    sum(small(locals.len())?, sum(greatest, few)?)
}

// The stack objects of locals.
fn homes(alloc: Global, locals: &[Local]) -> Result<Vec<Option<u32>>, NoMemory>
    ensures { IfOk result (λ v. v.items ≡ homes_from 0 (map local_view locals.now)) }
{
    let mut homes = Vec::new(alloc);
    let mut next = 0;
    for l in locals {
        if l.in_memory {
            homes.push(Some(next))?;
            next = after(next)?;
        } else {
            homes.push(None)?;
        }
    }
    Ok(homes)
}

// The sizes and alignments of the locals in memory.
fn objects(
    alloc: Global,
    structs: &[Layout],
    locals: &[Local],
) -> Result<Vec<StackObject>, NoMemory>
    ensures { IfOk result (λ v. map object_view v.items ≡ objects_of (map layout_view structs.now) (map local_view locals.now)) }
{
    let mut all = Vec::new(alloc);
    for l in locals {
        if l.in_memory {
            all.push(object(structs, l)?)?;
        }
    }
    Ok(all)
}

fn object(structs: &[Layout], l: &Local) -> Result<StackObject, NoMemory>
    ensures { IfOk result (λ o. object_view o ≡ object_of (map layout_view structs.now) (local_view l.now)) }
{
    Ok(StackObject {
        size: size_in(&l.ty, structs)?,
        align: small_align(&l.ty, structs)?,
    })
}
