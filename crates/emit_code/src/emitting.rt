//! Linear code from structured code. Each function is written from its end, so that where a jump
//! leads is known when it is written; only the end of a round waits for its loop's start.

ghost use Rattle.std.specs.Prelude.{◌≡◌, ◌≤◌, ◌+◌, ◌++◌, IfOk, IsTrue, None, reverse, map, true};
ghost use Rattle.struct_ir.specs.InstrViews.{instr_view};
ghost use Rattle.struct_ir.specs.LinearViews.{linear_func_view, code_view};
ghost use Rattle.struct_ir.specs.Nodes.{if_, loop as loop_};
ghost use Rattle.struct_ir.specs.Valid.{are_placed, is_valid};
ghost use Rattle.struct_ir.specs.Views.{node_view, nodes_view, func_view};
ghost use Rattle.struct_ir.specs.WholeViews.{ir_view};
ghost use Rattle.std.specs.List.{AllByRecursion, list_all};
ghost use Rattle.emit_code.specs.inner.Scoped.{IsScoped};
ghost use Rattle.emit_code.specs.inner.Layout.{long, node_long, emit, emit_node, instrs_for, func_linear, linear_of};
ghost use Rattle.struct_ir.specs.Emitted.{IsEmitted};
ghost use Rattle.struct_ir.specs.Placed.{all_placed};

use crate::lengths::long_of;
use crate::puts::{put, put_before};
use ak_words::NoMemory;
use std::alloc::Global;
use struct_ir::copying::{copy_call, copy_literals, copy_step};
use struct_ir::linear::Code;
use struct_ir::{CodeFunc, Instr, InstrKind, Ir, IrFunc, Node, NodeKind};

/// The linear code of a valid program in which each call stands between safepoints and each loop's
/// step ends in one.
///
/// # Errors
///
/// Only want of memory.
pub fn emit_code(alloc: Global, ir: &Ir) -> Result<Code, NoMemory>
    requires placed { IsTrue (all_placed (ir_view ir.now)) }
    requires valid { is_valid (ir_view ir.now) ≡ true }
    ensures { IfOk result (λ code. IsEmitted (ir_view ir.now) (code_view code)) }
{
    let code = emit_program(alloc, ir)?;
    Ok(code)
}

fn emit_program(alloc: Global, ir: &Ir) -> Result<Code, NoMemory>
    requires placed { IsTrue (all_placed (ir_view ir.now)) }
    requires valid { is_valid (ir_view ir.now) ≡ true }
    ensures { IfOk result (λ code. code_view code ≡ linear_of (ir_view ir.now)) }
{
    let globals = ir.globals.to_vec(alloc)?;
    let literals = copy_literals(alloc, &ir.literals)?;
    let funcs = emit_funcs(alloc, &ir.funcs)?;
    Ok(Code {
        globals,
        literals,
        funcs,
        main: ir.main,
    })
}

fn emit_funcs(alloc: Global, funcs: &[IrFunc]) -> Result<Vec<CodeFunc>, NoMemory>
    requires placed { IsTrue (list_all (λ f. are_placed None f.nodes) (map func_view funcs.now)) }
    requires scoped { AllByRecursion IsScoped (map func_view funcs.now) }
    ensures { IfOk result (λ v. map linear_func_view v.items ≡ map func_linear (map func_view funcs.now)) }
{
    let mut out = Vec::with_capacity(alloc, funcs.len())?;
    for f in funcs {
        out.push(emit_func(alloc, f)?)?;
    }
    Ok(out)
}

fn emit_func(alloc: Global, f: &IrFunc) -> Result<CodeFunc, NoMemory>
    requires placed { IsTrue (are_placed None (func_view f.now).nodes) }
    requires scoped { IsScoped (func_view f.now) }
    ensures { IfOk result (λ x. linear_func_view x ≡ func_linear (func_view f.now)) }
{
    let instrs = emit_nodes(alloc, &f.nodes)?;
    Ok(CodeFunc {
        params: f.params,
        temps: f.temps,
        slots: f.slots,
        objects: f.objects.to_vec(alloc)?,
        instrs,
    })
}

// The instructions of a function.
fn emit_nodes(alloc: Global, nodes: &[Node]) -> Result<Vec<Instr>, NoMemory>
    ensures { IfOk result (λ code. map instr_view code.items ≡ instrs_for (nodes_view nodes.now)) }
{
    match long_of(nodes) {
        None => Err(NoMemory),
        Some(end) => {
            let mut code = Vec::with_capacity(alloc, end.saturating_add(1))?;
            put(&mut code, 0, InstrKind::Leave(None))?;
            emit_row(alloc, &mut code, end, end, end, nodes)?;
            code.reverse();
            Ok(code)
        }
    }
}

// The instructions of nodes, the last one first, of which the last stands right before the index
// `end`; and the index of the first.
#[cycle(emits)]
fn emit_row(
    alloc: Global,
    code: &mut Vec<Instr>,
    end: usize,
    out: usize,
    next: usize,
    nodes: &[Node],
) -> Result<usize, NoMemory>
    requires { long (nodes_view nodes.now) ≤ end }
    ensures index { IfOk result (λ at. at + long (nodes_view nodes.now) ≡ end) }
    ensures code { IfOk result (λ at. map instr_view code.new.items ≡ map instr_view code.old.items ++ reverse (emit at out next (nodes_view nodes.now))) }
{
    let mut left = nodes;
    let mut at = end;
    'row: while let [front @ .., node] = left {
        at = emit_one(alloc, code, at, out, next, node)?;
        left = front;
    }
    Ok(at)
}

#[cycle(emits)]
fn emit_one(
    alloc: Global,
    code: &mut Vec<Instr>,
    end: usize,
    out: usize,
    next: usize,
    node: &Node,
) -> Result<usize, NoMemory>
    requires { node_long (node_view node.now) ≤ end }
    ensures index { IfOk result (λ at. at + node_long (node_view node.now) ≡ end) }
    ensures code { IfOk result (λ at. map instr_view code.new.items ≡ map instr_view code.old.items ++ reverse (emit_node at out next (node_view node.now))) }
{
    let place = node.place;
    match &node.kind {
        NodeKind::If(temp, one, other) => {
            emit_if(alloc, code, end, out, next, place, *temp, one, other)
        }
        NodeKind::Loop(body, step) => emit_loop(alloc, code, end, place, body, step),
        NodeKind::Begin(_) => Ok(end),
        NodeKind::End(_) => Ok(end),
        NodeKind::Set(to, calc) => put_before(code, end, place, InstrKind::Set(*to, *calc)),
        NodeKind::Break => put_before(code, end, place, InstrKind::Jump(out)),
        NodeKind::Next => put_before(code, end, place, InstrKind::Jump(next)),
        NodeKind::Call(c) => put_before(
            code,
            end,
            place,
            InstrKind::Enter(Box::new(alloc, copy_call(alloc, c)?)?),
        ),
        NodeKind::Ret(temp) => put_before(code, end, place, InstrKind::Leave(*temp)),
        NodeKind::Step(s) => put_before(
            code,
            end,
            place,
            InstrKind::Step(Box::new(alloc, copy_step(alloc, s)?)?),
        ),
        NodeKind::Look(slot, base) => put_before(code, end, place, InstrKind::Look(*slot, *base)),
        NodeKind::Safepoint(slots) => put_before(
            code,
            end,
            place,
            InstrKind::Safe(slots.to_vec(alloc)?),
        ),
    }
}

#[cycle(emits)]
fn emit_if(
    alloc: Global,
    code: &mut Vec<Instr>,
    end: usize,
    out: usize,
    next: usize,
    place: u32,
    temp: u32,
    one: &[Node],
    other: &[Node],
) -> Result<usize, NoMemory>
    requires { node_long (if_ place temp (nodes_view one.now) (nodes_view other.now)) ≤ end }
    ensures index { IfOk result (λ at. at + node_long (if_ place temp (nodes_view one.now) (nodes_view other.now)) ≡ end) }
    ensures code { IfOk result (λ at. map instr_view code.new.items ≡ map instr_view code.old.items ++ reverse (emit_node at out next (if_ place temp (nodes_view one.now) (nodes_view other.now)))) }
{
    let other_at = emit_row(alloc, code, end, out, next, other)?;
    put(code, place, InstrKind::Jump(end))?;
    let one_at = emit_row(alloc, code, other_at - 1, out, next, one)?;
    put(code, place, InstrKind::Unless(temp, other_at))?;
    Ok(one_at - 1)
}

// The end of the round stands behind the step, and is written once its loop's start is known.
#[cycle(emits)]
fn emit_loop(
    alloc: Global,
    code: &mut Vec<Instr>,
    end: usize,
    place: u32,
    body: &[Node],
    step: &[Node],
) -> Result<usize, NoMemory>
    requires { node_long (loop_ place (nodes_view body.now) (nodes_view step.now)) ≤ end }
    ensures index { IfOk result (λ at. at + node_long (loop_ place (nodes_view body.now) (nodes_view step.now)) ≡ end) }
    ensures code { IfOk result (λ at. map instr_view code.new.items ≡ map instr_view code.old.items ++ reverse (emit_node at 0 0 (loop_ place (nodes_view body.now) (nodes_view step.now)))) }
{
    let round = code.len();
    put(code, place, InstrKind::Round(0))?;
    let step_at = emit_row(alloc, code, end - 1, end, end - 1, step)?;
    let at = emit_row(alloc, code, step_at, end, step_at, body)?;
    code[round] = Instr {
        place,
        kind: InstrKind::Round(at),
    };
    Ok(at)
}
