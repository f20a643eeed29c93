//! Code of what a file spells: each call gets the list of the safepoint directly before it.

ghost use Rattle.std.specs.Prelude.{◌≡◌, ◌&&◌, None, true, IfOk, map, option_map, slice_get};
ghost use Rattle.std.specs.List.{list_all};
ghost use Rattle.c_tree.specs.TypedViews.{init_view, literal_view};
ghost use Rattle.struct_ir.specs.Nodes.{call};
ghost use Rattle.struct_ir.specs.Valid.{last_list};
ghost use Rattle.struct_ir.specs.Views.{call_view, node_view, nodes_view, global_view, func_view};
ghost use Rattle.struct_ir.specs.Whole.{takes_nothing, is_init_in};
ghost use Rattle.struct_ir.specs.WholeViews.{ir_view};
ghost use Rattle.code_file.specs.RawViews.{raw_func_view, raw_view};
ghost use Rattle.code_file.specs.Calls.{act_with, slots_in, node_filled, filled, func_filled, ir_filled};
ghost use Rattle.code_file.specs.Conditions.{has_parameters, is_lawful};
ghost use Rattle.code_load.specs.inner.Fills.{Fills, is_whole};

use crate::aligned::is_aligned;
use crate::plain::fits;
use crate::refusal::Refusal;
use ak_words::NoMemory;
use c_tree::typed::{Init, Literal};
use code_file::{RawCode, RawFunc};
use pin_flow::copies::{branches, node, rounds};
use std::alloc::Global;
use struct_ir::placed::list_at;
use struct_ir::{CallNode, Ir, IrFunc, IrGlobal, Node, NodeKind, is_valid};

// The list of a safepoint directly behind the nodes.
fn list_behind(nodes: &[Node]) -> Option<&[u32]>
    ensures { option_map (λ s. s.now) result ≡ last_list None (nodes_view nodes.now) }
{
    match nodes.last() {
        Some(n) => list_at(n),
        None => None,
    }
}

// The call with this list, or an empty one.
fn fill_call(alloc: Global, before: Option<&[u32]>, c: CallNode) -> Result<CallNode, NoMemory>
    ensures { IfOk result (λ x. call (call_view x) ≡ act_with (slots_in (option_map (λ s. s.now) before.entry)) (call (call_view c))) }
{
    let slots = match before {
        Some(list) => list.to_vec(alloc)?,
        None => Vec::new(alloc),
    };
    Ok(CallNode {
        to: c.to,
        function: c.function,
        temps: c.temps,
        slots,
    })
}

// The row, of which each call has the list of the safepoint directly before it.
#[cycle(fills)]
fn fill_row(alloc: Global, nodes: Vec<Node>) -> Result<Vec<Node>, NoMemory>
    ensures { IfOk result (λ v. nodes_view v.items ≡ filled None (nodes_view nodes.items)) }
{
    let mut out = Vec::with_capacity(alloc, nodes.len())?;
    for n in nodes {
        let whole = fill_node(alloc, list_behind(&out), n)?;
        out.push(whole)?;
    }
    Ok(out)
}

#[cycle(fills)]
fn fill_node(alloc: Global, before: Option<&[u32]>, n: Node) -> Result<Node, NoMemory>
    ensures { IfOk result (λ x. node_view x ≡ node_filled (option_map (λ s. s.now) before.entry) (node_view n)) }
{
    let Node { place, kind } = n;
    match kind {
        NodeKind::If(temp, one, other) => {
            let yes = fill_row(alloc, one)?;
            let no = fill_row(alloc, other)?;
            Ok(branches(place, temp, yes, no))
        }
        NodeKind::Loop(body, latch) => {
            let first = fill_row(alloc, body)?;
            let second = fill_row(alloc, latch)?;
            Ok(rounds(place, first, second))
        }
        NodeKind::Call(c) => {
            let filled = fill_call(alloc, before, Box::into_inner(c))?;
            Ok(node(place, NodeKind::Call(Box::new(alloc, filled)?)))
        }
        leaf => Ok(node(place, leaf)),
    }
}

// The function, where it has a register for each parameter.
fn fill_func(alloc: Global, f: RawFunc) -> Result<IrFunc, Refusal>
    ensures { Fills (λ x. func_view x ≡ func_filled (raw_func_view f)) (has_parameters (raw_func_view f)) result }
{
    if f.params > f.temps {
        return Err(Refusal::Unmet);
    }
    let nodes = fill_row(alloc, f.nodes)?;
    Ok(IrFunc {
        params: f.params,
        temps: f.temps,
        slots: f.slots,
        objects: f.objects,
        nodes,
    })
}

fn fill_funcs(alloc: Global, funcs: Vec<RawFunc>) -> Result<Vec<IrFunc>, Refusal>
    ensures { Fills (λ v. map func_view v.items ≡ map func_filled (map raw_func_view funcs.items)) (list_all has_parameters (map raw_func_view funcs.items)) result }
{
    let mut out = Vec::with_capacity(alloc, funcs.len())?;
    for f in funcs {
        let whole = fill_func(alloc, f)?;
        out.push(whole)?;
    }
    Ok(out)
}

// The function of this number is there, and takes nothing.
fn takes_nothing(funcs: &[IrFunc], main: u32) -> bool
    ensures { result ≡ takes_nothing (slice_get (map func_view funcs.now) main) }
{
    match funcs.get(main as usize) {
        Some(f) => f.params == 0,
        None => false,
    }
}

fn is_init_in(literals: usize, init: &Init) -> bool
    ensures { result ≡ is_init_in literals (init_view init.now) }
{
    match init {
        Init::Literal(n) => (*n as usize) < literals,
        _ => true,
    }
}

fn literals_are_there(globals: &[IrGlobal], literals: usize) -> bool
    ensures { result ≡ list_all (λ g. is_init_in literals g.init) (map global_view globals.now) }
{
    for global in globals {
        if !is_init_in(literals, &global.init) {
            return false;
        }
    }
    true
}

// Whether code of these parts has what code has by its type.
fn is_whole(globals: &[IrGlobal], literals: &[Literal], funcs: &[IrFunc], main: u32) -> bool
    ensures { result ≡ is_whole (map global_view globals.now) (map literal_view literals.now) (map func_view funcs.now) main }
{
    takes_nothing(funcs, main)
        && (literals_are_there(globals, literals.len()) && fits(globals, literals))
}

// The code of what a file spells, where its parts are such as code has by its type.
fn fill_code(alloc: Global, raw: RawCode) -> Result<Ir, Refusal>
    ensures { Fills (λ x. ir_view x ≡ ir_filled (raw_view raw)) (is_lawful (ir_filled (raw_view raw))) result }
{
    let funcs = fill_funcs(alloc, raw.funcs)?;
    if !is_whole(&raw.globals, &raw.literals, &funcs, raw.main) {
        return Err(Refusal::Unmet);
    }
    Ok(Ir {
        globals: raw.globals,
        literals: raw.literals,
        funcs,
        main: raw.main,
    })
}

/// Whether the code meets the conditions of code of a file; by its type it meets the others.
fn is_lawful(ir: &Ir) -> bool
    ensures { result ≡ is_lawful (ir_view ir.now) }
{
    is_valid(ir) && is_aligned(ir)
}

/// The code of what a file spells, where it meets the conditions.
pub fn code_of(alloc: Global, raw: RawCode) -> Result<Ir, Refusal>
    ensures { Fills (λ x. (ir_view x ≡ ir_filled (raw_view raw)) × (is_lawful (ir_view x) ≡ true)) (is_lawful (ir_filled (raw_view raw))) result }
{
    let ir = fill_code(alloc, raw)?;
    if !is_lawful(&ir) {
        return Err(Refusal::Unmet);
    }
    Ok(ir)
}
