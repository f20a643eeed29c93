//! The marks of Looks.

ghost use Rattle.std.specs.Prelude.{◌≡◌, ◌==◌, Bool};
ghost use Rattle.std.specs.List.{list_any};
ghost use Rattle.struct_ir.specs.Nodes.{own_list};
ghost use Rattle.struct_ir.specs.Pins.{lacks, lacks_if};
ghost use Rattle.struct_ir.specs.Views.{step_view, node_view};
ghost use Rattle.pin_flow.specs.Looks.{is_to};
ghost use Rattle.pin_flow.specs.Marks.{after};
ghost use Rattle.pin_flow.specs.Views.{mark_view, state_view, node_marked, looks_at, looks_slot, assigns_at, lacks_at};

use crate::state::State;
use struct_ir::{Node, NodeKind, StepNode};

/// What a path says of a register, or of a pin slot.
#[derive(Clone, Copy, Debug, PartialEq, Eq)]
pub enum Mark {
    /// The register was looked up and not assigned since.
    Held(u32),
    /// A Look into the slot came.
    Filled(u32),
    /// The last Look into the slot was of the register.
    FilledFor(u32, u32),
    /// So it was, and the register was not assigned since.
    Fresh(u32, u32),
    /// So it was, and each list since has the slot.
    Pinned(u32, u32),
}

/// A Look of the register.
pub fn looks_at(b: u32, n: &Node) -> bool
    ensures { result ≡ looks_at b (node_view n.now) }
{
    match &n.kind {
        NodeKind::Look(_, base) => *base == b,
        _ => false,
    }
}

/// A Look into the slot.
pub fn looks_into(slot: u32, n: &Node) -> bool
    ensures { result ≡ looks_slot slot (node_view n.now) }
{
    match &n.kind {
        NodeKind::Look(s, _) => *s == slot,
        _ => false,
    }
}

fn sets(b: u32, to: Option<u32>) -> bool
    ensures { result ≡ is_to b to }
{
    match to {
        Some(t) => b == t,
        None => false,
    }
}

/// An assignment of the register.
pub fn assigns(b: u32, n: &Node) -> bool
    ensures { result ≡ assigns_at b (node_view n.now) }
{
    match &n.kind {
        NodeKind::Set(to, _) => b == *to,
        NodeKind::Call(c) => sets(b, c.to),
        NodeKind::Step(s) => sets(b, s.to),
        _ => false,
    }
}

fn is_among(slot: u32, slots: &[u32]) -> bool
    ensures { result ≡ list_any (λ s. s == slot) slots.now }
{
    slots.iter().any(|s| *s == slot)
}

fn is_without(slot: u32, slots: &[u32]) -> bool
    ensures { result ≡ lacks slot slots.now }
{
    !is_among(slot, slots)
}

fn step_lacks(slot: u32, s: &StepNode) -> bool
    ensures { result ≡ lacks_if slot (own_list (step_view s.now)) }
{
    s.action.may_wait() && is_without(slot, &s.slots)
}

/// It has a list, which lacks the slot.
pub fn lacks(slot: u32, n: &Node) -> bool
    ensures { result ≡ lacks_at slot (node_view n.now) }
{
    match &n.kind {
        NodeKind::Call(c) => is_without(slot, &c.slots),
        NodeKind::Step(s) => step_lacks(slot, s),
        NodeKind::Safepoint(slots) => is_without(slot, slots),
        _ => false,
    }
}

impl Mark {
    /// The answer behind the node, from the answer before it.
    #[tactic(auto, using(crate::proofs::Marked::held_at, crate::proofs::Marked::filled_at, crate::proofs::Marked::filled_for_at, crate::proofs::Marked::fresh_at, crate::proofs::Marked::pinned_at))]
    pub fn answer(self, n: &Node, before: bool) -> bool
        ensures { result ≡ node_marked (mark_view self) (node_view n.now) before }
    {
        match self {
            Mark::Held(b) => looks_at(b, n) || (before && !assigns(b, n)),
            Mark::Filled(slot) => looks_into(slot, n) || before,
            Mark::FilledFor(slot, b) => {
                if looks_into(slot, n) {
                    looks_at(b, n)
                } else {
                    before
                }
            }
            Mark::Fresh(slot, b) => {
                if looks_into(slot, n) {
                    looks_at(b, n)
                } else {
                    before && !assigns(b, n)
                }
            }
            Mark::Pinned(slot, b) => {
                if looks_into(slot, n) {
                    looks_at(b, n)
                } else {
                    before && (!assigns(b, n) && !lacks(slot, n))
                }
            }
        }
    }

    /// The state behind the node, from the state before it.
    pub fn state(self, n: &Node, before: State) -> State
        ensures { state_view result ≡ after (λ (v : Bool). node_marked (mark_view self) (node_view n.now) v) (state_view before) }
    {
        match before {
            State::Unreached => State::Unreached,
            State::Good => of_answer(self.answer(n, true)),
            State::Bad => of_answer(self.answer(n, false)),
        }
    }
}

fn of_answer(yes: bool) -> State
    ensures { state_view result ≡ Rattle.pin_flow.specs.Marks.state_of yes }
{
    if yes { State::Good } else { State::Bad }
}
