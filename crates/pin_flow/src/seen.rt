//! What stands anywhere in a row of nodes.

ghost use Rattle.std.specs.Prelude.{◌≡◌, ◌==◌, ◌&&◌, ◌||◌, map};
ghost use Rattle.struct_ir.specs.Nodes.{Place};
ghost use Rattle.struct_ir.specs.Views.{place_view, node_view, nodes_view};
ghost use Rattle.pin_flow.specs.Looks.{some_act, some_in};
ghost use Rattle.pin_flow.specs.Live.{is_slot, has};
ghost use Rattle.pin_flow.specs.Views.{test_view, act_is};

use crate::mark::{assigns, looks_at};
use struct_ir::{Node, NodeKind, Place};

/// What an act may be asked for.
#[derive(Clone, Copy, Debug, PartialEq, Eq)]
pub enum Test {
    /// A Look of the register.
    Looks(u32),
    /// An assignment of the register.
    Assigns(u32),
    /// An access through the slot with this base.
    Uses(u32, u32),
}

fn is_slot(slot: u32, at: Option<u32>) -> bool
    ensures { result ≡ is_slot slot at }
{
    match at {
        Some(s) => s == slot,
        None => false,
    }
}

fn has_use(slot: u32, b: u32, places: &[Place]) -> bool
    ensures { result ≡ has slot b (map place_view places.now) }
{
    for a in places {
        if a.base == b && is_slot(slot, a.slot) {
            return true;
        }
    }
    false
}

/// An access through the slot, with this base.
pub fn uses(slot: u32, b: u32, n: &Node) -> bool
    ensures { result ≡ act_is (Rattle.pin_flow.specs.Live.uses slot b) (node_view n.now) }
{
    match &n.kind {
        NodeKind::Step(s) => has_use(slot, b, &s.places),
        _ => false,
    }
}

impl Test {
    /// Whether the node itself is one.
    pub fn holds(self, n: &Node) -> bool
        ensures { result ≡ act_is (test_view self) (node_view n.now) }
    {
        match self {
            Test::Looks(b) => looks_at(b, n),
            Test::Assigns(b) => assigns(b, n),
            Test::Uses(slot, b) => uses(slot, b, n),
        }
    }
}

/// Whether some node of the row, however deep in it, is one.
#[cycle(somes)]
pub fn some(test: Test, rows: &[Node]) -> bool
    ensures { result ≡ some_act (test_view test) (nodes_view rows.now) }
{
    for n in rows {
        if some_in(test, n) {
            return true;
        }
    }
    false
}

#[cycle(somes)]
fn some_in(test: Test, n: &Node) -> bool
    ensures { result ≡ some_in (test_view test) (node_view n.now) }
{
    match &n.kind {
        NodeKind::If(_, one, other) => {
            let first = some(test, one);
            either(first, some(test, other))
        }
        NodeKind::Loop(body, step) => {
            let first = some(test, body);
            either(first, some(test, step))
        }
        NodeKind::Set(..) | NodeKind::Call(_) | NodeKind::Step(_) | NodeKind::Look(..) => {
            test.holds(n)
        }
        NodeKind::Safepoint(_) | NodeKind::Begin(_) | NodeKind::End(_) => test.holds(n),
        NodeKind::Break | NodeKind::Next | NodeKind::Ret(_) => false,
    }
}

fn either(a: bool, b: bool) -> bool
    ensures { result ≡ (a || b) }
{
    a || b
}
