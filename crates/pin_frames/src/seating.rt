//! Empty lists, and safepoints where they have to stand.

ghost use Rattle.std.specs.Prelude.{◌≡◌, [], IfOk, OnOk};
ghost use Rattle.struct_ir.specs.Nodes.{Nodes, no_nodes};
ghost use Rattle.struct_ir.specs.Views.{call_view, step_view, node_view, nodes_view, followed};
ghost use Rattle.pin_frames.specs.inner.Place.{step_listing, stop, seats, seated, seated_in, cleared, cleared_in};

use ak_words::NoMemory;
use pin_flow::copies::{add, branches, node, rounds};
use smallvec::SmallVec;
use std::alloc::Global;
use struct_ir::{CallNode, Node, NodeKind, StepNode};

// A step with an empty list.
#[tactic(auto, using(crate::proofs::Seated::step_cleared))]
fn clear_step(alloc: Global, s: StepNode) -> StepNode
    ensures { step_view result ≡ step_listing (step_view s) [] }
{
    StepNode {
        action: s.action,
        places: s.places,
        to: s.to,
        temps: s.temps,
        slots: SmallVec::new(alloc),
    }
}

// A call with an empty list.
fn clear_call(alloc: Global, c: CallNode) -> CallNode
    ensures { call_view result ≡ record { to = (call_view c).to; function = (call_view c).function; temps = (call_view c).temps; slots = [] } }
{
    CallNode {
        to: c.to,
        function: c.function,
        temps: c.temps,
        slots: Vec::new(alloc),
    }
}

fn add_stop(alloc: Global, place: u32, out: &mut Vec<Node>) -> Result<(), NoMemory>
    ensures { OnOk result ((rest : Nodes) → followed out.new.items rest ≡ followed out.old.items (Rattle.struct_ir.specs.Nodes.more_nodes (stop place) rest)) }
{
    add(out, node(place, NodeKind::Safepoint(Vec::new(alloc))))
}

fn add_call(
    alloc: Global,
    place: u32,
    c: Box<CallNode>,
    out: &mut Vec<Node>,
) -> Result<(), NoMemory>
    ensures { OnOk result ((rest : Nodes) → followed out.new.items rest ≡ followed out.old.items (seats (cleared_in (Rattle.struct_ir.specs.Nodes.plain place (Rattle.struct_ir.specs.Nodes.call (call_view c.value)))) rest)) }
{
    let bare = Box::new(alloc, clear_call(alloc, Box::into_inner(c)))?;
    add_stop(alloc, place, out)?;
    add(out, node(place, NodeKind::Call(bare)))?;
    add_stop(alloc, place, out)
}

fn add_step(
    alloc: Global,
    place: u32,
    s: Box<StepNode>,
    out: &mut Vec<Node>,
) -> Result<(), NoMemory>
    ensures { OnOk result ((rest : Nodes) → followed out.new.items rest ≡ followed out.old.items (seats (cleared_in (Rattle.struct_ir.specs.Nodes.plain place (Rattle.struct_ir.specs.Nodes.step (step_view s.value)))) rest)) }
{
    let bare = Box::new(alloc, clear_step(alloc, Box::into_inner(s)))?;
    add(out, node(place, NodeKind::Step(bare)))
}

/// The row with empty lists and its safepoints.
///
/// # Errors
///
/// Only want of memory.
#[cycle(sits)]
pub fn seat_row(alloc: Global, rows: Vec<Node>) -> Result<Vec<Node>, NoMemory>
    ensures { IfOk result (λ v. (tail : Nodes) → followed v.items tail ≡ seated (cleared (nodes_view rows.items)) tail) }
{
    let mut out = Vec::with_capacity(alloc, rows.len())?;
    for n in rows {
        seat_node(alloc, n, &mut out)?;
    }
    Ok(out)
}

#[cycle(sits)]
fn seat_latch(alloc: Global, place: u32, rows: Vec<Node>) -> Result<Vec<Node>, NoMemory>
    ensures { IfOk result (λ v. nodes_view v.items ≡ seated (cleared (nodes_view rows.items)) (Rattle.struct_ir.specs.Nodes.more_nodes (stop place) no_nodes)) }
{
    let mut out = seat_row(alloc, rows)?;
    add_stop(alloc, place, &mut out)?;
    Ok(out)
}

#[cycle(sits)]
fn seat_node(alloc: Global, n: Node, out: &mut Vec<Node>) -> Result<(), NoMemory>
    ensures { OnOk result ((rest : Nodes) → followed out.new.items rest ≡ followed out.old.items (seats (seated_in (cleared_in (node_view n))) rest)) }
{
    let Node { place, kind } = n;
    match kind {
        NodeKind::If(temp, one, other) => {
            let yes = seat_row(alloc, one)?;
            let no = seat_row(alloc, other)?;
            add(out, branches(place, temp, yes, no))
        }
        NodeKind::Loop(body, step) => {
            let first = seat_row(alloc, body)?;
            let second = seat_latch(alloc, place, step)?;
            add(out, rounds(place, first, second))
        }
        NodeKind::Call(c) => add_call(alloc, place, c, out),
        NodeKind::Step(s) => add_step(alloc, place, s, out),
        NodeKind::Safepoint(_) => Ok(()),
        leaf => add(out, node(place, leaf)),
    }
}
