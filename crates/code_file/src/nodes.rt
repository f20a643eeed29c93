//! Reading nodes. A call reads one level, of which there are at most as many as the depth says.

ghost use Rattle.std.specs.Prelude.{◌≡◌, ◌<◌};
ghost use Rattle.struct_ir.specs.Nodes.{if_, loop};
ghost use Rattle.struct_ir.specs.Views.{node_view, nodes_view, call_view};
ghost use Rattle.formats.specs.Formats.{at_number, behind_tag};
ghost use Rattle.code_file.specs.inner.Gives.{Gives};
ghost use Rattle.code_file.specs.Files as files;
ghost use Rattle.code_file.specs.Files.{call, other_nodes, node_fields, make_node, node, nodes};

use crate::actions::{numbers_at, step_at};
use crate::calcs::calc_at;
use crate::fault::Fault;
use crate::numbers::{exactly_at, option_at, tag_at, u32_at, zeros};
use std::alloc::Global;
use struct_ir::code::{CallNode, Node, NodeKind};

/// A node.
fn node(place: u32, kind: NodeKind) -> Node
    ensures { result ≡ record { place = place; kind = kind } }
{
    Node { place, kind }
}

/// An If.
fn branches(place: u32, temp: u32, one: Vec<Node>, other: Vec<Node>) -> Node
    ensures { node_view result ≡ if_ place temp (nodes_view one.items) (nodes_view other.items) }
{
    Node {
        place,
        kind: NodeKind::If(temp, one, other),
    }
}

/// A Loop.
fn rounds(place: u32, body: Vec<Node>, latch: Vec<Node>) -> Node
    ensures { node_view result ≡ loop place (nodes_view body.items) (nodes_view latch.items) }
{
    Node {
        place,
        kind: NodeKind::Loop(body, latch),
    }
}

/// A call, without its list.
#[tactic(auto, unfolding(crate::specs::Files::call))]
fn call_at(alloc: Global, bytes: &[u8]) -> Result<(CallNode, &[u8]), Fault>
    ensures { Gives (λ x. (call_view x.0, x.1.now)) result (call.read bytes.now) }
{
    let (to, rest) = option_at(bytes)?;
    let (function, rest) = u32_at(rest)?;
    let (temps, rest) = numbers_at(alloc, rest)?;
    let call = CallNode {
        to,
        function,
        temps,
        slots: Vec::new(alloc),
    };
    Ok((call, rest))
}

/// A Set.
fn set_at(place: u32, bytes: &[u8]) -> Result<(Node, &[u8]), Fault>
    ensures { Gives (λ x. (node_view x.0, x.1.now)) result (behind_tag (node_fields (nodes 0)) (make_node place) files.set bytes.now) }
{
    let (to, rest) = u32_at(bytes)?;
    let (calc, rest) = calc_at(rest)?;
    Ok((node(place, NodeKind::Set(to, calc)), rest))
}

/// A Call.
fn call_node_at(alloc: Global, place: u32, bytes: &[u8]) -> Result<(Node, &[u8]), Fault>
    ensures { Gives (λ x. (node_view x.0, x.1.now)) result (behind_tag (node_fields (nodes 0)) (make_node place) files.call_node bytes.now) }
{
    let (call, rest) = call_at(alloc, bytes)?;
    Ok((node(place, NodeKind::Call(Box::new(alloc, call)?)), rest))
}

/// A Ret.
fn ret_at(place: u32, bytes: &[u8]) -> Result<(Node, &[u8]), Fault>
    ensures { Gives (λ x. (node_view x.0, x.1.now)) result (behind_tag (node_fields (nodes 0)) (make_node place) files.ret bytes.now) }
{
    let (temp, rest) = option_at(bytes)?;
    Ok((node(place, NodeKind::Ret(temp)), rest))
}

/// A Step.
fn step_node_at(alloc: Global, place: u32, bytes: &[u8]) -> Result<(Node, &[u8]), Fault>
    ensures { Gives (λ x. (node_view x.0, x.1.now)) result (behind_tag (node_fields (nodes 0)) (make_node place) files.step_node bytes.now) }
{
    let (step, rest) = step_at(alloc, bytes)?;
    Ok((node(place, NodeKind::Step(Box::new(alloc, step)?)), rest))
}

/// A Look.
fn look_at(place: u32, bytes: &[u8]) -> Result<(Node, &[u8]), Fault>
    ensures { Gives (λ x. (node_view x.0, x.1.now)) result (behind_tag (node_fields (nodes 0)) (make_node place) files.look bytes.now) }
{
    let (slot, rest) = u32_at(bytes)?;
    let (base, rest) = u32_at(rest)?;
    Ok((node(place, NodeKind::Look(slot, base)), rest))
}

/// A Safepoint.
fn safepoint_at(alloc: Global, place: u32, bytes: &[u8]) -> Result<(Node, &[u8]), Fault>
    ensures { Gives (λ x. (node_view x.0, x.1.now)) result (behind_tag (node_fields (nodes 0)) (make_node place) files.safepoint bytes.now) }
{
    let (slots, rest) = numbers_at(alloc, bytes)?;
    Ok((node(place, NodeKind::Safepoint(slots)), rest))
}

/// A Begin.
fn begin_at(place: u32, bytes: &[u8]) -> Result<(Node, &[u8]), Fault>
    ensures { Gives (λ x. (node_view x.0, x.1.now)) result (behind_tag (node_fields (nodes 0)) (make_node place) files.begin_object bytes.now) }
{
    let (object, rest) = u32_at(bytes)?;
    Ok((node(place, NodeKind::Begin(object)), rest))
}

/// An End.
fn end_at(place: u32, bytes: &[u8]) -> Result<(Node, &[u8]), Fault>
    ensures { Gives (λ x. (node_view x.0, x.1.now)) result (behind_tag (node_fields (nodes 0)) (make_node place) files.end_object bytes.now) }
{
    let (object, rest) = u32_at(bytes)?;
    Ok((node(place, NodeKind::End(object)), rest))
}

/// No nodes, at the deepest level.
#[tactic(auto, unfolding(crate::specs::Files::nodes))]
fn no_nodes_at(alloc: Global, bytes: &[u8]) -> Result<(Vec<Node>, &[u8]), Fault>
    ensures { Gives (λ x. (nodes_view x.0.items, x.1.now)) result ((nodes 0).read bytes.now) }
{
    let rest = exactly_at(zeros(4), bytes)?;
    Ok((Vec::new(alloc), rest))
}

/// Nodes, nested at most so deep.
#[cycle(reads)]
pub fn nodes_at(alloc: Global, depth: u32, bytes: &[u8]) -> Result<(Vec<Node>, &[u8]), Fault>
    ensures { Gives (λ x. (nodes_view x.0.items, x.1.now)) result ((nodes depth).read bytes.now) }
{
    if depth == 0 {
        return no_nodes_at(alloc, bytes);
    }
    let (count, begin) = u32_at(bytes)?;
    let mut out = Vec::new(alloc);
    let mut rest = begin;
    for _ in 0..count {
        let (one, after) = node_at(alloc, depth - 1, rest)?;
        out.push(one)?;
        rest = after;
    }
    Ok((out, rest))
}

#[cycle(reads)]
fn node_at(alloc: Global, depth: u32, bytes: &[u8]) -> Result<(Node, &[u8]), Fault>
    ensures { Gives (λ x. (node_view x.0, x.1.now)) result ((node (nodes depth)).read bytes.now) }
{
    let (place, rest) = u32_at(bytes)?;
    let (tag, rest) = tag_at(12, rest)?;
    kind_at(alloc, depth, place, tag, rest)
}

#[cycle(reads)]
fn kind_at(
    alloc: Global,
    depth: u32,
    place: u32,
    tag: u8,
    bytes: &[u8],
) -> Result<(Node, &[u8]), Fault>
    requires { tag < 12 }
    ensures { Gives (λ x. (node_view x.0, x.1.now)) result (behind_tag (node_fields (nodes depth)) (make_node place) (at_number files.set other_nodes tag) bytes.now) }
{
    match tag {
        0 => set_at(place, bytes),
        1 => if_at(alloc, depth, place, bytes),
        2 => loop_at(alloc, depth, place, bytes),
        3 => Ok((node(place, NodeKind::Break), bytes)),
        4 => Ok((node(place, NodeKind::Next), bytes)),
        5 => call_node_at(alloc, place, bytes),
        6 => ret_at(place, bytes),
        7 => step_node_at(alloc, place, bytes),
        8 => look_at(place, bytes),
        9 => safepoint_at(alloc, place, bytes),
        10 => begin_at(place, bytes),
        _ => end_at(place, bytes),
    }
}

#[cycle(reads)]
fn if_at(alloc: Global, depth: u32, place: u32, bytes: &[u8]) -> Result<(Node, &[u8]), Fault>
    ensures { Gives (λ x. (node_view x.0, x.1.now)) result (behind_tag (node_fields (nodes depth)) (make_node place) files.if_ bytes.now) }
{
    let (temp, rest) = u32_at(bytes)?;
    let (one, rest) = nodes_at(alloc, depth, rest)?;
    let (other, rest) = nodes_at(alloc, depth, rest)?;
    Ok((branches(place, temp, one, other), rest))
}

#[cycle(reads)]
fn loop_at(alloc: Global, depth: u32, place: u32, bytes: &[u8]) -> Result<(Node, &[u8]), Fault>
    ensures { Gives (λ x. (node_view x.0, x.1.now)) result (behind_tag (node_fields (nodes depth)) (make_node place) files.loop bytes.now) }
{
    let (body, rest) = nodes_at(alloc, depth, bytes)?;
    let (latch, rest) = nodes_at(alloc, depth, rest)?;
    Ok((rounds(place, body, latch), rest))
}
