//! The slots that are used later, of all registers at once: sets of slots, which are gone through with the code from behind.

ghost use Rattle.std.specs.Prelude.{◌≡◌, ◌≢◌, ◌==◌, ◌||◌, ◌&&◌, ℕ, Some, map, not, IfOk, OnOk};
ghost use Rattle.struct_ir.specs.Views.{place_view, node_view, nodes_view};
ghost use Rattle.pin_flow.specs.Live.{is_slot, has as has_use, uses, live, live_node, head_live};
ghost use Rattle.pin_flow.specs.Views.{act_is, looks_slot};
ghost use Rattle.mark_sets.specs.Words.{has};
ghost use Rattle.mark_sets.specs.Homes.{Tells, lives_in};

use crate::homes::{Homes, is_home};
use crate::words::{insert, remove, united};
use ak_words::NoMemory;
use std::alloc::Global;
use struct_ir::{Node, NodeKind, Place};

fn insert_if(set: &mut Vec<u64>, more: bool, slot: u32) -> Result<(), NoMemory>
    ensures there { OnOk result (has set.new.items slot ≡ (more || has set.old.items slot)) }
    ensures others { OnOk result ((j : ℕ) → j ≢ slot → has set.new.items j ≡ has set.old.items j) }
{
    if more {
        insert(set, slot as usize)?;
    }
    Ok(())
}

// With the slot of the access, if it is through its register's.
fn use_place(homes: &Homes, a: &Place, set: &mut Vec<u64>) -> Result<(), NoMemory>
    ensures { OnOk result (Tells homes.now.bases.items set.new.items (λ i b. ((place_view a.now).base == b && is_slot i (place_view a.now).slot) || has set.old.items i)) }
{
    match a.slot {
        Some(slot) => {
            let own = is_home(homes, slot, a.base);
            insert_if(set, own, slot)
        }
        None => Ok(()),
    }
}

fn use_places(homes: &Homes, places: &[Place], set: &mut Vec<u64>) -> Result<(), NoMemory>
    ensures { OnOk result (Tells homes.now.bases.items set.new.items (λ i b. has_use i b (map place_view places.now) || has set.old.items i)) }
{
    for a in places {
        use_place(homes, a, set)?;
    }
    Ok(())
}

/// The set before an act, from the set behind it.
///
/// # Errors
///
/// Only want of memory.
pub fn used_act(homes: &Homes, n: &Node, on: Vec<u64>) -> Result<Vec<u64>, NoMemory>
    ensures { IfOk result (λ s. Tells homes.now.bases.items s.items (λ i b. act_is (uses i b) (node_view n.now) || (not (looks_slot i (node_view n.now)) && has on.items i))) }
{
    let mut set = on;
    match &n.kind {
        NodeKind::Look(slot, _) => remove(&mut set, *slot as usize),
        NodeKind::Step(s) => use_places(homes, &s.places, &mut set)?,
        _ => {}
    }
    Ok(set)
}

/// The set before a row, from the sets behind it, behind the loop around it, and at the end of the
/// body or step around it.
#[cycle(uses)]
fn used_row(
    alloc: Global,
    homes: &Homes,
    rows: &[Node],
    on: Vec<u64>,
    out: &[u64],
    end: &[u64],
) -> Result<Vec<u64>, NoMemory>
    ensures { IfOk result (λ s. Tells homes.now.bases.items s.items (λ i b. live i b (nodes_view rows.now) (lives_in on.items out.now end.now i))) }
{
    let mut left = rows;
    let mut set = on;
    'row: while let [front @ .., n] = left {
        set = used_node(alloc, homes, n, set, out, end)?;
        left = front;
    }
    Ok(set)
}

#[cycle(uses)]
fn used_node(
    alloc: Global,
    homes: &Homes,
    n: &Node,
    on: Vec<u64>,
    out: &[u64],
    end: &[u64],
) -> Result<Vec<u64>, NoMemory>
    ensures { IfOk result (λ s. Tells homes.now.bases.items s.items (λ i b. live_node i b (node_view n.now) (lives_in on.items out.now end.now i))) }
{
    match &n.kind {
        NodeKind::If(_, one, other) => {
            let start = on.to_vec(alloc)?;
            let first = used_row(alloc, homes, one, start, out, end)?;
            let second = used_row(alloc, homes, other, on, out, end)?;
            Ok(united(first, second))
        }
        NodeKind::Loop(body, step) => head_used(alloc, homes, body, step, &on),
        NodeKind::Set(..) | NodeKind::Call(_) | NodeKind::Step(_) | NodeKind::Look(..) => {
            used_act(homes, n, on)
        }
        NodeKind::Safepoint(_) | NodeKind::Begin(_) | NodeKind::End(_) => used_act(homes, n, on),
        NodeKind::Break => Ok(out.to_vec(alloc)?),
        NodeKind::Next => Ok(end.to_vec(alloc)?),
        NodeKind::Ret(_) => Ok(Vec::new(alloc)),
    }
}

/// The set at the start of each round of a loop, and so at the end of each step, from the set behind
/// the loop.
///
/// # Errors
///
/// Only want of memory.
#[cycle(uses)]
pub fn head_used(
    alloc: Global,
    homes: &Homes,
    body: &[Node],
    step: &[Node],
    on: &[u64],
) -> Result<Vec<u64>, NoMemory>
    ensures { IfOk result (λ s. Tells homes.now.bases.items s.items (λ i b. head_live i b (nodes_view body.now) (nodes_view step.now) (has on.now i))) }
{
    let none = Vec::new(alloc);
    let latch = used_row(alloc, homes, step, Vec::new(alloc), on, &none)?;
    let start = latch.to_vec(alloc)?;
    used_row(alloc, homes, body, start, on, &latch)
}
