//! A Look before each loop that has one and doesn't assign its register, for all registers in one walk.

ghost use Rattle.std.specs.Prelude.{◌≡◌, ◌<◌, ◌^◌, ◌||◌, ◌&&◌, not, ℕ, length, true, IfOk, OnOk};
ghost use Rattle.struct_ir.specs.Nodes.{Nodes, plain, look, more_nodes};
ghost use Rattle.struct_ir.specs.Erased.{put};
ghost use Rattle.struct_ir.specs.Views.{node_view, nodes_view, followed};
ghost use Rattle.pin_flow.specs.Looks.{act_looks, act_assigns, some_act, some_in};
ghost use Rattle.pin_flow.specs.Slots.{slot_in};
ghost use Rattle.mark_sets.specs.Words.{has};
ghost use Rattle.hoist_pass.specs.inner.Hoist.{looks_for, lifted_all, lifted_all_in};
ghost use Rattle.hoist_pass.specs.inner.Sets.{HaveBits, Tells, TellsMore, looks_from, is_leaf};

use crate::acting::{Seen, see, see_leaf};
use ak_words::NoMemory;
use mark_sets::marks::Marks;
use mark_sets::words::contains;
use pin_flow::copies::{add, branches, node, rounds};
use std::alloc::Global;
use struct_ir::{Node, NodeKind};

/// A row with its Looks, and what was seen in it.
#[derive(Drop)]
pub struct Lifted {
    /// The row.
    pub rows: Vec<Node>,
    /// What was seen in it.
    pub seen: Seen,
}

// Whether the mark of this bit has a Look and isn't assigned.
fn is_wanted(seen: &Seen, i: usize) -> bool
    ensures { result ≡ (has seen.now.looks.items i && not (has seen.now.assigns.items i)) }
{
    contains(&seen.looks, i) && !contains(&seen.assigns, i)
}

fn add_look(
    wanted: bool,
    place: u32,
    slot: u32,
    b: u32,
    out: &mut Vec<Node>,
) -> Result<(), NoMemory>
    ensures { OnOk result ((rest : Nodes) → followed out.new.items rest ≡ followed out.old.items (put wanted (plain place (look slot b)) rest)) }
{
    if wanted {
        add(out, node(place, NodeKind::Look(slot, b)))
    } else {
        Ok(())
    }
}

// A Look of each register that has one and isn't assigned, in the order of the registers.
fn add_looks(bases: &[u32], place: u32, seen: &Seen, out: &mut Vec<Node>) -> Result<(), NoMemory>
    requires { length bases.now < 2 ^ 32 }
    ensures { OnOk result ((rest : Nodes) → followed out.new.items rest ≡ followed out.old.items (looks_from (λ i. has seen.now.looks.items i && not (has seen.now.assigns.items i)) place 0 bases.now rest)) }
{
    'bases: for i in 0..bases.len() {
        add_look(is_wanted(seen, i), place, i as u32, bases[i], out)?;
    }
    Ok(())
}

// What is seen of two rows, one behind the other.
fn seen_in_both(alloc: Global, a: Seen, b: Seen) -> Seen
    ensures looks { (i : ℕ) → has result.looks.items i ≡ (has a.looks.items i || has b.looks.items i) }
    ensures assigns { (i : ℕ) → has result.assigns.items i ≡ (has a.assigns.items i || has b.assigns.items i) }
{
    let mut seen = a;
    see(alloc, &mut seen, b);
    seen
}

// A node that holds no others.
fn lift_leaf(
    bases: &[u32],
    marks: &Marks,
    n: Node,
    seen: &mut Seen,
    out: &mut Vec<Node>,
) -> Result<(), NoMemory>
    requires bits { HaveBits marks.now bases.now }
    requires leaf { is_leaf (node_view n) ≡ true }
    ensures rows { OnOk result ((rest : Nodes) → followed out.new.items rest ≡ followed out.old.items (looks_for (slot_in bases.now) bases.now (node_view n) (more_nodes (lifted_all_in (slot_in bases.now) bases.now (node_view n)) rest))) }
    ensures looks { OnOk result (TellsMore marks.now seen.old.looks.items seen.new.looks.items (λ b. some_in (act_looks b) (node_view n))) }
    ensures assigns { OnOk result (TellsMore marks.now seen.old.assigns.items seen.new.assigns.items (λ b. some_in (act_assigns b) (node_view n))) }
{
    see_leaf(marks, &n, seen)?;
    add(out, n)
}

/// The row with a Look before each loop that has one and doesn't assign its register.
///
/// # Errors
///
/// Only want of memory.
#[cycle(lifts)]
pub fn lift_row(
    alloc: Global,
    bases: &[u32],
    marks: &Marks,
    rows: Vec<Node>,
) -> Result<Lifted, NoMemory>
    requires { HaveBits marks.now bases.now }
    ensures rows { IfOk result (λ l. nodes_view l.rows.items ≡ lifted_all (slot_in bases.now) bases.now (nodes_view rows.items)) }
    ensures looks { IfOk result (λ l. Tells marks.now l.seen.looks.items (λ b. some_act (act_looks b) (nodes_view rows.items))) }
    ensures assigns { IfOk result (λ l. Tells marks.now l.seen.assigns.items (λ b. some_act (act_assigns b) (nodes_view rows.items))) }
{
    let mut out = Vec::with_capacity(alloc, rows.len())?;
    let mut seen = Seen {
        looks: Vec::new(alloc),
        assigns: Vec::new(alloc),
    };
    for n in rows {
        lift_node(alloc, bases, marks, n, &mut seen, &mut out)?;
    }
    Ok(Lifted { rows: out, seen })
}

// The same of a node, which is put behind the others.
#[cycle(lifts)]
fn lift_node(
    alloc: Global,
    bases: &[u32],
    marks: &Marks,
    n: Node,
    seen: &mut Seen,
    out: &mut Vec<Node>,
) -> Result<(), NoMemory>
    requires { HaveBits marks.now bases.now }
    ensures rows { OnOk result ((rest : Nodes) → followed out.new.items rest ≡ followed out.old.items (looks_for (slot_in bases.now) bases.now (node_view n) (more_nodes (lifted_all_in (slot_in bases.now) bases.now (node_view n)) rest))) }
    ensures looks { OnOk result (TellsMore marks.now seen.old.looks.items seen.new.looks.items (λ b. some_in (act_looks b) (node_view n))) }
    ensures assigns { OnOk result (TellsMore marks.now seen.old.assigns.items seen.new.assigns.items (λ b. some_in (act_assigns b) (node_view n))) }
{
    let Node { place, kind } = n;
    match kind {
        NodeKind::If(temp, one, other) => {
            let first = lift_row(alloc, bases, marks, one)?;
            let second = lift_row(alloc, bases, marks, other)?;
            see(alloc, seen, seen_in_both(alloc, first.seen, second.seen));
            add(out, branches(place, temp, first.rows, second.rows))
        }
        NodeKind::Loop(body, step) => {
            let first = lift_row(alloc, bases, marks, body)?;
            let second = lift_row(alloc, bases, marks, step)?;
            let inside = seen_in_both(alloc, first.seen, second.seen);
            add_looks(bases, place, &inside, out)?;
            see(alloc, seen, inside);
            add(out, rounds(place, first.rows, second.rows))
        }
        other => lift_leaf(bases, marks, node(place, other), seen, out),
    }
}
