//! Copies of rows.

ghost use Rattle.std.specs.Prelude.{◌≡◌, IfOk};
ghost use Rattle.struct_ir.specs.Views.{node_view, nodes_view};

use crate::copies::{add, branches, copy_call, copy_step, node, rounds};
use ak_words::NoMemory;
use std::alloc::Global;
use struct_ir::{Node, NodeKind};

/// A copy of a row, with all that it holds.
///
/// # Errors
///
/// Only want of memory.
#[cycle(copies)]
pub fn copy_row(alloc: Global, rows: &[Node]) -> Result<Vec<Node>, NoMemory>
    ensures { IfOk result (λ v. nodes_view v.items ≡ nodes_view rows.now) }
{
    let mut out = Vec::with_capacity(alloc, rows.len())?;
    for n in rows {
        add(&mut out, copy_node(alloc, n)?)?;
    }
    Ok(out)
}

#[cycle(copies)]
fn copy_node(alloc: Global, n: &Node) -> Result<Node, NoMemory>
    ensures { IfOk result (λ x. node_view x ≡ node_view n.now) }
{
    match &n.kind {
        NodeKind::Set(to, calc) => Ok(node(n.place, NodeKind::Set(*to, *calc))),
        NodeKind::If(temp, one, other) => {
            let yes = copy_row(alloc, one)?;
            let no = copy_row(alloc, other)?;
            Ok(branches(n.place, *temp, yes, no))
        }
        NodeKind::Loop(body, step) => {
            let first = copy_row(alloc, body)?;
            let second = copy_row(alloc, step)?;
            Ok(rounds(n.place, first, second))
        }
        NodeKind::Break => Ok(node(n.place, NodeKind::Break)),
        NodeKind::Next => Ok(node(n.place, NodeKind::Next)),
        NodeKind::Call(c) => Ok(node(
            n.place,
            NodeKind::Call(Box::new(alloc, copy_call(alloc, c)?)?),
        )),
        NodeKind::Ret(temp) => Ok(node(n.place, NodeKind::Ret(*temp))),
        NodeKind::Step(s) => Ok(node(
            n.place,
            NodeKind::Step(Box::new(alloc, copy_step(alloc, s)?)?),
        )),
        NodeKind::Look(s, base) => Ok(node(n.place, NodeKind::Look(*s, *base))),
        NodeKind::Safepoint(slots) => {
            Ok(node(n.place, NodeKind::Safepoint(slots.to_vec(alloc)?)))
        }
        NodeKind::Begin(i) => Ok(node(n.place, NodeKind::Begin(*i))),
        NodeKind::End(i) => Ok(node(n.place, NodeKind::End(*i))),
    }
}
