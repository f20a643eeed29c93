//! How deep nodes are nested.

ghost use Rattle.std.specs.Prelude.{◌≡◌, ◌&&◌, nat_le};
ghost use Rattle.struct_ir.specs.Views.{node_view, nodes_view};
ghost use Rattle.struct_ir.specs.WholeViews.{ir_view};
ghost use Rattle.code_save.specs.Saves.{node_depth, depth, deepest};

use struct_ir::Ir;
use struct_ir::code::{Node, NodeKind};

/// Whether no function's nodes are nested deeper.
pub fn is_within(levels: u32, ir: &Ir) -> bool
    ensures { result ≡ nat_le (deepest (ir_view ir.now)) levels }
{
    for f in &ir.funcs {
        if !are_within(levels, &f.nodes) {
            return false;
        }
    }
    true
}

#[cycle(within)]
fn are_within(levels: u32, nodes: &[Node]) -> bool
    ensures { result ≡ nat_le (depth (nodes_view nodes.now)) levels }
{
    if levels == 0 {
        return nodes.is_empty();
    }
    for n in nodes {
        if !node_is_within(levels - 1, n) {
            return false;
        }
    }
    true
}

#[cycle(within)]
fn node_is_within(levels: u32, n: &Node) -> bool
    ensures { result ≡ nat_le (node_depth (node_view n.now)) levels }
{
    match &n.kind {
        NodeKind::If(_, one, other) => both_within(levels, one, other),
        NodeKind::Loop(body, latch) => both_within(levels, body, latch),
        _ => true,
    }
}

#[cycle(within)]
fn both_within(levels: u32, one: &[Node], other: &[Node]) -> bool
    ensures { result ≡ (nat_le (depth (nodes_view one.now)) levels && nat_le (depth (nodes_view other.now)) levels) }
{
    if !are_within(levels, one) {
        return false;
    }
    are_within(levels, other)
}
