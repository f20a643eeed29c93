//! Where safepoints stand.

ghost use Rattle.std.specs.Prelude.{◌≡◌, ◌&&◌, is_some, None, option_map};
ghost use Rattle.struct_ir.specs.Placed.{all_placed};
ghost use Rattle.struct_ir.specs.Valid.{list_at, first_list, last_list, same_slots, is_the_list, node_is_placed, are_placed};
ghost use Rattle.struct_ir.specs.Views.{call_view, node_view, nodes_view};
ghost use Rattle.struct_ir.specs.WholeViews.{ir_view};

use crate::code::{CallNode, Node, NodeKind};
use crate::ir::Ir;

/// Whether each call stands directly behind a safepoint, whose list it carries, and directly before
/// another, and each loop's step ends in a safepoint.
pub fn is_placed(ir: &Ir) -> bool
    ensures { result ≡ all_placed (ir_view ir.now) }
{
    for f in &ir.funcs {
        if !are_placed(&f.nodes) {
            return false;
        }
    }
    true
}

#[cycle(placed)]
fn are_placed(nodes: &[Node]) -> bool
    ensures { result ≡ are_placed None (nodes_view nodes.now) }
{
    let mut before: Option<&[u32]> = None;
    for (i, n) in nodes.iter().enumerate() {
        if !node_is_placed(before, n, &nodes[i + 1..]) {
            return false;
        }
        before = list_at(n);
    }
    true
}

#[cycle(placed)]
fn node_is_placed(before: Option<&[u32]>, n: &Node, rest: &[Node]) -> bool
    ensures { result ≡ node_is_placed (option_map (λ s. s.now) before.entry) (node_view n.now) (nodes_view rest.now) }
{
    match &n.kind {
        NodeKind::If(_, one, other) => {
            let first = are_placed(one);
            both(first, are_placed(other))
        }
        NodeKind::Loop(body, step) => {
            let first = are_placed(body);
            let second = are_placed(step);
            both(first, both(second, ends_in_safepoint(step)))
        }
        NodeKind::Call(c) => call_is_placed(before, c, rest),
        _ => true,
    }
}

fn both(a: bool, b: bool) -> bool
    ensures { result ≡ (a && b) }
{
    a && b
}

/// The list of a node that is a safepoint.
pub fn list_at(n: &Node) -> Option<&[u32]>
    ensures { option_map (λ s. s.now) result ≡ list_at (node_view n.now) }
{
    match &n.kind {
        NodeKind::Safepoint(slots) => Some(slots),
        _ => None,
    }
}

/// Whether a call carries the list of the safepoint directly before it, and a safepoint stands
/// directly behind it.
pub fn call_is_placed(before: Option<&[u32]>, c: &CallNode, rest: &[Node]) -> bool
    ensures { result ≡ (is_the_list (option_map (λ s. s.now) before.entry) (call_view c.now).slots && is_some (first_list (nodes_view rest.now))) }
{
    match before {
        Some(list) => same_slots(list, &c.slots) && begins_with_safepoint(rest),
        None => false,
    }
}

fn begins_with_safepoint(nodes: &[Node]) -> bool
    ensures { result ≡ is_some (first_list (nodes_view nodes.now)) }
{
    match nodes.first() {
        Some(n) => list_at(n).is_some(),
        None => false,
    }
}

/// Whether the last of the nodes is a safepoint.
pub fn ends_in_safepoint(nodes: &[Node]) -> bool
    ensures { result ≡ is_some (last_list None (nodes_view nodes.now)) }
{
    match nodes.last() {
        Some(n) => list_at(n).is_some(),
        None => false,
    }
}

// The same slots in the same order.
fn same_slots(xs: &[u32], ys: &[u32]) -> bool
    ensures { result ≡ same_slots xs.now ys.now }
{
    if xs.len() != ys.len() {
        return false;
    }
    for (i, x) in xs.iter().enumerate() {
        if *x != ys[i] {
            return false;
        }
    }
    true
}
