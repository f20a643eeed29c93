//! Whether an access of a slot comes later, before the next Look into it.

ghost use Rattle.std.specs.Prelude.{◌≡◌, ◌||◌, ◌&&◌, not};
ghost use Rattle.struct_ir.specs.Views.{node_view, nodes_view};
ghost use Rattle.pin_flow.specs.Live.{live, live_node, head_live, lives};
ghost use Rattle.pin_flow.specs.Live as lively;
ghost use Rattle.pin_flow.specs.Views.{act_is, looks_slot};
ghost use Rattle.pin_frames.specs.Views.{lives_view};

use pin_flow::mark::looks_into;
use pin_flow::seen::uses;
use struct_ir::{Node, NodeKind};

/// Whether one comes later behind a row, behind the loop around it, and at the end of the body or
/// step around it.
#[derive(Clone, Copy, Debug, PartialEq, Eq)]
pub struct Lives {
    /// Behind the row.
    pub on: bool,
    /// Behind the loop around it.
    pub out: bool,
    /// At the end of the body or step around it.
    pub end: bool,
}

/// By its three parts.
pub fn lives_of(on: bool, out: bool, end: bool) -> Lives
    ensures { lives_view result ≡ lives on out end }
{
    Lives { on, out, end }
}

fn either(a: bool, b: bool) -> bool
    ensures { result ≡ (a || b) }
{
    a || b
}

/// Whether one comes at or behind the act.
pub(crate) fn act_live(slot: u32, b: u32, n: &Node, later: bool) -> bool
    ensures { result ≡ (act_is (lively.uses slot b) (node_view n.now) || (not (looks_slot slot (node_view n.now)) && later)) }
{
    uses(slot, b, n) || (!looks_into(slot, n) && later)
}

/// Whether one comes at or behind the start of the row.
#[cycle(lives)]
pub fn live_row(slot: u32, b: u32, rows: &[Node], after: Lives) -> bool
    ensures { result ≡ live slot b (nodes_view rows.now) (lives_view after) }
{
    let mut left = rows;
    let mut on = after.on;
    'row: while let [front @ .., n] = left {
        on = live_node(slot, b, n, lives_of(on, after.out, after.end));
        left = front;
    }
    on
}

/// Whether one comes at or behind the start of the node.
#[cycle(lives)]
pub fn live_node(slot: u32, b: u32, n: &Node, after: Lives) -> bool
    ensures { result ≡ live_node slot b (node_view n.now) (lives_view after) }
{
    match &n.kind {
        NodeKind::If(_, one, other) => {
            let first = live_row(slot, b, one, after);
            either(first, live_row(slot, b, other, after))
        }
        NodeKind::Loop(body, step) => {
            let end = live_row(slot, b, step, lives_of(false, after.on, false));
            live_row(slot, b, body, lives_of(end, after.on, end))
        }
        NodeKind::Set(..) | NodeKind::Call(_) | NodeKind::Step(_) | NodeKind::Look(..) => {
            act_live(slot, b, n, after.on)
        }
        NodeKind::Safepoint(_) | NodeKind::Begin(_) | NodeKind::End(_) => {
            act_live(slot, b, n, after.on)
        }
        NodeKind::Break => after.out,
        NodeKind::Next => after.end,
        NodeKind::Ret(_) => false,
    }
}

/// At the start of each round of a loop, and so at the end of each step.
#[tactic(auto, unfolding(pin_flow::specs::Live::head_live))]
pub fn head_live(slot: u32, b: u32, body: &[Node], step: &[Node], on: bool) -> bool
    ensures { result ≡ head_live slot b (nodes_view body.now) (nodes_view step.now) on }
{
    let end = live_row(slot, b, step, lives_of(false, on, false));
    live_row(slot, b, body, lives_of(end, on, end))
}
