ghost use Rattle.std.specs.Prelude.{◌≡◌, map, IfOk, OnOk};
ghost use Rattle.struct_ir.specs.Nodes.{Nodes, if_, loop, more_nodes};
ghost use Rattle.struct_ir.specs.Erased.{stays, put, node_erased, erased, func_erased, ir_erased};
ghost use Rattle.struct_ir.specs.Views.{node_view, nodes_view, func_view, followed};
ghost use Rattle.struct_ir.specs.WholeViews.{ir_view};

use crate::code::{IrFunc, Node, NodeKind};
use crate::copies::{bare_call, bare_step, copy_literals};
use crate::ir::Ir;
use ak_words::NoMemory;
use std::alloc::Global;

/// The code without its Looks and safepoints, and without its slots and lists.
///
/// # Errors
///
/// Only want of memory.
pub fn erase(alloc: Global, ir: &Ir) -> Result<Ir, NoMemory>
    ensures { IfOk result (λ x. ir_view x ≡ ir_erased (ir_view ir.now)) }
{
    let literals = copy_literals(alloc, &ir.literals)?;
    let funcs = erase_funcs(alloc, &ir.funcs)?;
    Ok(Ir {
        globals: ir.globals.to_vec(alloc)?,
        literals,
        funcs,
        main: ir.main,
    })
}

fn erase_funcs(alloc: Global, funcs: &[IrFunc]) -> Result<Vec<IrFunc>, NoMemory>
    ensures { IfOk result (λ v. map func_view v.items ≡ map func_erased (map func_view funcs.now)) }
{
    let mut out = Vec::new(alloc);
    for f in funcs {
        out.push(erase_func(alloc, f)?)?;
    }
    Ok(out)
}

fn erase_func(alloc: Global, f: &IrFunc) -> Result<IrFunc, NoMemory>
    ensures { IfOk result (λ x. func_view x ≡ func_erased (func_view f.now)) }
{
    let nodes = erase_row(alloc, &f.nodes)?;
    Ok(IrFunc {
        params: f.params,
        temps: f.temps,
        slots: 0,
        objects: f.objects.to_vec(alloc)?,
        nodes,
    })
}

#[cycle(erases)]
fn erase_row(alloc: Global, nodes: &[Node]) -> Result<Vec<Node>, NoMemory>
    ensures { IfOk result (λ v. nodes_view v.items ≡ erased (nodes_view nodes.now)) }
{
    let mut out = Vec::new(alloc);
    for n in nodes {
        erase_into(alloc, n, &mut out)?;
    }
    Ok(out)
}

#[cycle(erases)]
fn erase_into(alloc: Global, n: &Node, out: &mut Vec<Node>) -> Result<(), NoMemory>
    ensures { OnOk result ((rest : Nodes) → followed out.new.items rest ≡ followed out.old.items (put (stays (node_view n.now)) (node_erased (node_view n.now)) rest)) }
{
    if !stays(n) {
        return Ok(());
    }
    let kept = erase_node(alloc, n)?;
    add(out, kept)
}

#[cycle(erases)]
fn erase_node(alloc: Global, n: &Node) -> Result<Node, NoMemory>
    ensures { IfOk result (λ x. node_view x ≡ node_erased (node_view n.now)) }
{
    match &n.kind {
        NodeKind::Set(to, calc) => Ok(node(n.place, NodeKind::Set(*to, *calc))),
        NodeKind::If(temp, one, other) => {
            let yes = erase_row(alloc, one)?;
            let no = erase_row(alloc, other)?;
            Ok(branches(n.place, *temp, yes, no))
        }
        NodeKind::Loop(body, step) => {
            let first = erase_row(alloc, body)?;
            let second = erase_row(alloc, step)?;
            Ok(rounds(n.place, first, second))
        }
        NodeKind::Break => Ok(node(n.place, NodeKind::Break)),
        NodeKind::Next => Ok(node(n.place, NodeKind::Next)),
        NodeKind::Call(c) => Ok(node(
            n.place,
            NodeKind::Call(Box::new(alloc, bare_call(alloc, c)?)?),
        )),
        NodeKind::Ret(temp) => Ok(node(n.place, NodeKind::Ret(*temp))),
        NodeKind::Step(s) => Ok(node(
            n.place,
            NodeKind::Step(Box::new(alloc, bare_step(alloc, s)?)?),
        )),
        NodeKind::Look(slot, base) => Ok(node(n.place, NodeKind::Look(*slot, *base))),
        NodeKind::Safepoint(slots) => {
            Ok(node(n.place, NodeKind::Safepoint(slots.to_vec(alloc)?)))
        }
        NodeKind::Begin(i) => Ok(node(n.place, NodeKind::Begin(*i))),
        NodeKind::End(i) => Ok(node(n.place, NodeKind::End(*i))),
    }
}

fn stays(n: &Node) -> bool
    ensures { result ≡ stays (node_view n.now) }
{
    match &n.kind {
        NodeKind::Look(..) | NodeKind::Safepoint(_) => false,
        _ => true,
    }
}

fn node(place: u32, kind: NodeKind) -> Node
    ensures { result ≡ record { place = place; kind = kind } }
{
    Node { place, kind }
}

#[tactic(auto, using(crate::proofs::Views::put_view))]
fn add(out: &mut Vec<Node>, n: Node) -> Result<(), NoMemory>
    ensures { OnOk result ((rest : Nodes) → followed out.new.items rest ≡ followed out.old.items (more_nodes (node_view n) rest)) }
{
    out.push(n)?;
    Ok(())
}

fn branches(place: u32, temp: u32, yes: Vec<Node>, no: Vec<Node>) -> Node
    ensures { node_view result ≡ if_ place temp (nodes_view yes.items) (nodes_view no.items) }
{
    Node {
        place,
        kind: NodeKind::If(temp, yes, no),
    }
}

fn rounds(place: u32, body: Vec<Node>, step: Vec<Node>) -> Node
    ensures { node_view result ≡ loop place (nodes_view body.items) (nodes_view step.items) }
{
    Node {
        place,
        kind: NodeKind::Loop(body, step),
    }
}
