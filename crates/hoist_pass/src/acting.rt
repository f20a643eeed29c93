//! What nodes that hold no others make of sets of registers: which are held, which have a Look, which are assigned.

ghost use Rattle.std.specs.Prelude.{◌≡◌, ◌==◌, ◌||◌, not, ℕ, Bool, Some, IfOk, OnOk};
ghost use Rattle.struct_ir.specs.Views.{node_view};
ghost use Rattle.pin_flow.specs.Held.{held};
ghost use Rattle.pin_flow.specs.Looks.{is_to};
ghost use Rattle.pin_flow.specs.Marks.{unreached, ways, at, after, in_turn};
ghost use Rattle.pin_flow.specs.Views.{leaf, node_marked, looks_at, assigns_at};
ghost use Rattle.mark_sets.specs.Sets.{state_at, ways_at};
ghost use Rattle.mark_sets.specs.Views.{sets_view, ways_view, HaveOwnBits};
ghost use Rattle.mark_sets.specs.Words.{has};
ghost use Rattle.hoist_pass.specs.inner.Sets.{bit, states, ways_by, TellsMore};

use ak_words::NoMemory;
use mark_sets::marks::Marks;
use mark_sets::sets::{SetWays, Sets, joined};
use mark_sets::words::{insert, united};
use std::alloc::Global;
use std::mem;
use struct_ir::{Node, NodeKind};

/// The registers that have a Look, and those that are assigned.
#[derive(Drop)]
pub struct Seen {
    /// Those that have a Look.
    pub looks: Vec<u64>,
    /// Those that are assigned.
    pub assigns: Vec<u64>,
}

fn changed(marks: &Marks, n: &Node, t: Sets) -> Result<Sets, NoMemory>
    requires { HaveOwnBits marks.now }
    ensures { IfOk result (λ u. (b : ℕ) → states marks.now (sets_view u) b ≡ after (λ (w : Bool). node_marked (held b) (node_view n.now) w) (states marks.now (sets_view t) b)) }
{
    match t {
        Sets::Nowhere => Ok(Sets::Nowhere),
        Sets::Bads(bads) => {
            let mut set = bads;
            marks.change(n, &mut set)?;
            Ok(Sets::Bads(set))
        }
    }
}

fn acted(marks: &Marks, n: &Node, ahead: SetWays) -> Result<SetWays, NoMemory>
    requires { HaveOwnBits marks.now }
    ensures { IfOk result (λ o. (b : ℕ) → ways_by (bit marks.now b) (ways_view o) ≡ in_turn (ways_by (bit marks.now b) (ways_view ahead)) (at (after (λ (w : Bool). node_marked (held b) (node_view n.now) w) (states marks.now (sets_view ahead.on) b)))) }
{
    let SetWays { on, broken, next } = ahead;
    let behind = changed(marks, n, on)?;
    Ok(SetWays {
        on: behind,
        broken,
        next,
    })
}

// Control goes no further.
fn nowhere(a: SetWays) -> SetWays
    ensures { (i : ℕ) → ways_at i (ways_view result) ≡ in_turn (ways_at i (ways_view a)) (at unreached) }
{
    SetWays {
        on: Sets::Nowhere,
        broken: a.broken,
        next: a.next,
    }
}

// Control goes on by a Break.
fn by_break(a: SetWays) -> SetWays
    ensures { (i : ℕ) → ways_at i (ways_view result) ≡ in_turn (ways_at i (ways_view a)) (ways unreached (state_at i (sets_view a.on)) unreached) }
{
    SetWays {
        on: Sets::Nowhere,
        broken: joined(a.broken, a.on),
        next: a.next,
    }
}

// Control goes on by a Next.
fn by_next(a: SetWays) -> SetWays
    ensures { (i : ℕ) → ways_at i (ways_view result) ≡ in_turn (ways_at i (ways_view a)) (ways unreached unreached (state_at i (sets_view a.on))) }
{
    SetWays {
        on: Sets::Nowhere,
        broken: a.broken,
        next: joined(a.next, a.on),
    }
}

/// A node that holds no others, behind a row that control leaves so.
///
/// # Errors
///
/// Only want of memory.
pub fn leaf(marks: &Marks, n: &Node, ahead: SetWays) -> Result<SetWays, NoMemory>
    requires { HaveOwnBits marks.now }
    ensures { IfOk result (λ o. (b : ℕ) → ways_by (bit marks.now b) (ways_view o) ≡ in_turn (ways_by (bit marks.now b) (ways_view ahead)) (leaf (held b) (node_view n.now) (states marks.now (sets_view ahead.on) b))) }
{
    match &n.kind {
        NodeKind::If(..) => Ok(nowhere(ahead)),
        NodeKind::Loop(..) => Ok(nowhere(ahead)),
        NodeKind::Ret(_) => Ok(nowhere(ahead)),
        NodeKind::Break => Ok(by_break(ahead)),
        NodeKind::Next => Ok(by_next(ahead)),
        NodeKind::Set(..) | NodeKind::Call(_) | NodeKind::Step(_) | NodeKind::Look(..) => {
            acted(marks, n, ahead)
        }
        NodeKind::Safepoint(_) | NodeKind::Begin(_) | NodeKind::End(_) => acted(marks, n, ahead),
    }
}

// Puts the register into the set, if it has a bit.
fn put(marks: &Marks, b: u32, set: &mut Vec<u64>) -> Result<(), NoMemory>
    requires { HaveOwnBits marks.now }
    ensures { OnOk result ((c i : ℕ) → bit marks.now c ≡ Some i → has set.new.items i ≡ ((c == b) || has set.old.items i)) }
{
    match marks.bit(b) {
        Some(j) => insert(set, j),
        None => Ok(()),
    }
}

fn put_if(marks: &Marks, to: Option<u32>, set: &mut Vec<u64>) -> Result<(), NoMemory>
    requires { HaveOwnBits marks.now }
    ensures { OnOk result ((c i : ℕ) → bit marks.now c ≡ Some i → has set.new.items i ≡ (is_to c to || has set.old.items i)) }
{
    match to {
        Some(b) => put(marks, b, set),
        None => Ok(()),
    }
}

/// Sees a node that holds no others.
///
/// # Errors
///
/// Only want of memory.
pub fn see_leaf(marks: &Marks, n: &Node, seen: &mut Seen) -> Result<(), NoMemory>
    requires { HaveOwnBits marks.now }
    ensures looks { OnOk result (TellsMore marks.now seen.old.looks.items seen.new.looks.items (λ b. looks_at b (node_view n.now))) }
    ensures assigns { OnOk result (TellsMore marks.now seen.old.assigns.items seen.new.assigns.items (λ b. assigns_at b (node_view n.now))) }
{
    match &n.kind {
        NodeKind::Look(_, b) => put(marks, *b, &mut seen.looks),
        NodeKind::Set(to, _) => put(marks, *to, &mut seen.assigns),
        NodeKind::Call(c) => put_if(marks, c.to, &mut seen.assigns),
        NodeKind::Step(s) => put_if(marks, s.to, &mut seen.assigns),
        _ => Ok(()),
    }
}

/// Sees also what was seen there.
pub fn see(alloc: Global, seen: &mut Seen, other: Seen)
    ensures looks { (i : ℕ) → has seen.new.looks.items i ≡ (has seen.old.looks.items i || has other.looks.items i) }
    ensures assigns { (i : ℕ) → has seen.new.assigns.items i ≡ (has seen.old.assigns.items i || has other.assigns.items i) }
{
    let looks = mem::replace(&mut seen.looks, Vec::new(alloc));
    seen.looks = united(looks, other.looks);
    let assigns = mem::replace(&mut seen.assigns, Vec::new(alloc));
    seen.assigns = united(assigns, other.assigns);
}
