//! Copies of what nodes hold, and the makers of nodes that hold others.

ghost use Rattle.std.specs.Prelude.{◌≡◌, OnOk};
ghost use Rattle.struct_ir.specs.Nodes.{Nodes, if_, loop, more_nodes};
ghost use Rattle.struct_ir.specs.Views.{node_view, nodes_view, followed};

use ak_words::NoMemory;
use std::alloc::Global;
pub use struct_ir::copying::{copy_action, copy_call, copy_literals, copy_step};
use struct_ir::{Node, NodeKind};

/// A node.
pub fn node(place: u32, kind: NodeKind) -> Node
    ensures { result ≡ record { place = place; kind = kind } }
{
    Node { place, kind }
}

/// Puts a node at the end of a row.
///
/// # Errors
///
/// Only want of memory.
#[tactic(auto, using(struct_ir::proofs::Views::put_view))]
pub fn add(out: &mut Vec<Node>, n: Node) -> Result<(), NoMemory>
    ensures { OnOk result ((rest : Nodes) → followed out.new.items rest ≡ followed out.old.items (more_nodes (node_view n) rest)) }
{
    out.push(n)?;
    Ok(())
}

/// An If.
pub fn branches(place: u32, temp: u32, one: Vec<Node>, other: Vec<Node>) -> Node
    ensures { node_view result ≡ if_ place temp (nodes_view one.items) (nodes_view other.items) }
{
    Node {
        place,
        kind: NodeKind::If(temp, one, other),
    }
}

/// A loop.
pub fn rounds(place: u32, body: Vec<Node>, step: Vec<Node>) -> Node
    ensures { node_view result ≡ loop place (nodes_view body.items) (nodes_view step.items) }
{
    Node {
        place,
        kind: NodeKind::Loop(body, step),
    }
}
