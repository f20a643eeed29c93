//! Rows whose lists don't want a slot.

ghost use Rattle.std.specs.Prelude.{◌≡◌, ◌&&◌, ◌||◌, not, true, IfSome};
ghost use Rattle.struct_ir.specs.Views.{node_view, nodes_view};
ghost use Rattle.pin_flow.specs.Live.{live, live_node};
ghost use Rattle.pin_flow.specs.Live as lively;
ghost use Rattle.pin_flow.specs.Marks.{AllPaths};
ghost use Rattle.pin_flow.specs.Views.{act_is, looks_slot};
ghost use Rattle.pin_frames.specs.Views.{lives_view};
ghost use Rattle.pin_frames.specs.inner.Place.{has_list, listed_one, listed_one_in};

use crate::lives::{Lives, act_live, head_live, lives_of};
use struct_ir::{Node, NodeKind};

fn has_list(n: &Node) -> bool
    ensures { result ≡ act_is has_list (node_view n.now) }
{
    match &n.kind {
        NodeKind::Call(_) => true,
        NodeKind::Step(s) => s.action.may_wait(),
        NodeKind::Safepoint(_) => true,
        _ => false,
    }
}

fn either(a: bool, b: bool) -> bool
    ensures { result ≡ (a || b) }
{
    a || b
}

// Whether an access comes at or behind a node that holds no others; none where it has a list and
// one comes.
fn free_alone(slot: u32, b: u32, n: &Node, later: bool) -> Option<bool>
    ensures live { IfSome result (λ on. on ≡ (act_is (lively.uses slot b) (node_view n.now) || (not (looks_slot slot (node_view n.now)) && later))) }
    ensures free { IfSome result (λ on. (not (act_is has_list (node_view n.now)) || not on) ≡ true) }
{
    let live = act_live(slot, b, n, later);
    if has_list(n) && live {
        None
    } else {
        Some(live)
    }
}

/// Whether an access of the slot comes at or behind the start of the row, where the slot is used at
/// or behind none of the row's lists, and so none wants it; else none.
#[cycle(frees)]
pub(crate) fn free_row(slot: u32, b: u32, rows: &[Node], after: Lives) -> Option<bool>
    ensures live { IfSome result (λ on. on ≡ live slot b (nodes_view rows.now) (lives_view after)) }
    ensures free { IfSome result (λ on. (t : AllPaths) → listed_one slot b (nodes_view rows.now) t (lives_view after) ≡ nodes_view rows.now) }
{
    let mut left = rows;
    let mut on = after.on;
    'row: while let [front @ .., n] = left {
        on = free_node(slot, b, n, lives_of(on, after.out, after.end))?;
        left = front;
    }
    Some(on)
}

#[cycle(frees)]
fn free_node(slot: u32, b: u32, n: &Node, after: Lives) -> Option<bool>
    ensures live { IfSome result (λ on. on ≡ live_node slot b (node_view n.now) (lives_view after)) }
    ensures free { IfSome result (λ on. (t : AllPaths) → listed_one_in slot b (node_view n.now) t (lives_view after) ≡ node_view n.now) }
{
    match &n.kind {
        NodeKind::If(_, one, other) => {
            let first = free_row(slot, b, one, after)?;
            let second = free_row(slot, b, other, after)?;
            Some(either(first, second))
        }
        NodeKind::Loop(body, step) => {
            let top = head_live(slot, b, body, step, after.on);
            let latch = lives_of(top, after.on, top);
            let end = free_row(slot, b, step, latch)?;
            free_row(slot, b, body, lives_of(end, after.on, end))?;
            Some(top)
        }
        NodeKind::Set(..) | NodeKind::Call(_) | NodeKind::Step(_) | NodeKind::Look(..) => {
            free_alone(slot, b, n, after.on)
        }
        NodeKind::Safepoint(_) | NodeKind::Begin(_) | NodeKind::End(_) => {
            free_alone(slot, b, n, after.on)
        }
        NodeKind::Break => Some(after.out),
        NodeKind::Next => Some(after.end),
        NodeKind::Ret(_) => Some(false),
    }
}
