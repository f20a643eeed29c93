//! Whether each act keeps the pairs of which an access comes later: two walks from behind for all pairs.

ghost use Rattle.std.specs.Prelude.{◌≡◌, ◌≤◌, ◌+◌, ◌||◌, ◌&&◌, ℕ, suc, length, Some, true, false, not, IfOk, OnOk};
ghost use Rattle.struct_ir.specs.Nodes.{own_list};
ghost use Rattle.struct_ir.specs.Pins.{lacks, lacks_if};
ghost use Rattle.struct_ir.specs.Views.{step_view, node_view, nodes_view};
ghost use Rattle.pin_flow.specs.Live.{uses, live, live_node, head_live};
ghost use Rattle.pin_flow.specs.Slots.{slot_if};
ghost use Rattle.pin_flow.specs.Views.{act_is, looks_slot, lacks_at};
ghost use Rattle.mark_sets.specs.Words.{has};
ghost use Rattle.mark_sets.specs.Added.{loops, loops_in};
ghost use Rattle.mark_sets.specs.Heads.{AreHeads, AreHeadsIn, AreHeadsWithin};
ghost use Rattle.mark_sets.specs.Homes.{AreHomes, Tells, lives_in};
ghost use Rattle.pin_checker.specs.declared.pair.Pair.{Pair as CodePair};
ghost use Rattle.pin_checker.specs.inner.Reports.{has_pair};
ghost use Rattle.pin_checker.specs.inner.Uses.{NodeKeeps, AreKept, AreKeptIn, AreKeptLoop, HasHome, IsKept};

use crate::pair::Pair;
use ak_words::NoMemory;
use mark_sets::from_behind::{Walked, both, both_walked, led_to};
use mark_sets::heads::{Outline, next_head, outline_of};
use mark_sets::homes::{Homes, homes_of, keeps};
use mark_sets::used::used_act;
use mark_sets::words::{is_empty, remove};
use pin_flow::slots::bases_of;
use std::alloc::Global;
use struct_ir::{IrFunc, Node, NodeKind, StepNode};

// The numbers of the set that aren't in the list.
fn without(alloc: Global, set: &[u64], list: &[u32]) -> Result<Vec<u64>, NoMemory>
    ensures { IfOk result (λ v. (i : ℕ) → has v.items i ≡ (has set.now i && lacks i list.now)) }
{
    let mut left = set.to_vec(alloc)?;
    for slot in list {
        remove(&mut left, *slot as usize);
    }
    Ok(left)
}

// Whether the list has each number of the set.
fn is_listed(alloc: Global, set: &[u64], list: &[u32]) -> Result<bool, NoMemory>
    ensures { IfOk result (λ y. y ≡ true → (i : ℕ) → has set.now i ≡ true → lacks i list.now ≡ false) }
{
    let left = without(alloc, set, list)?;
    Ok(is_empty(&left))
}

fn step_lists(alloc: Global, set: &[u64], s: &StepNode) -> Result<bool, NoMemory>
    ensures { IfOk result (λ y. y ≡ true → (i : ℕ) → has set.now i ≡ true → lacks_if i (own_list (step_view s.now)) ≡ false) }
{
    if s.action.may_wait() {
        is_listed(alloc, set, &s.slots)
    } else {
        Ok(true)
    }
}

// Whether the node's list, if it has one, has each slot of the set.
fn lists(alloc: Global, set: &[u64], n: &Node) -> Result<bool, NoMemory>
    ensures { IfOk result (λ y. y ≡ true → (i : ℕ) → has set.now i ≡ true → lacks_at i (node_view n.now) ≡ false) }
{
    match &n.kind {
        NodeKind::Call(c) => is_listed(alloc, set, &c.slots),
        NodeKind::Step(s) => step_lists(alloc, set, s),
        NodeKind::Safepoint(slots) => is_listed(alloc, set, slots),
        _ => Ok(true),
    }
}

fn kept_act(alloc: Global, homes: &Homes, n: &Node, on: Vec<u64>) -> Result<Walked, NoMemory>
    requires { AreHomes homes.now }
    ensures used { IfOk result (λ w. Tells homes.now.bases.items w.on.items (λ i b. act_is (uses i b) (node_view n.now) || (not (looks_slot i (node_view n.now)) && has on.items i))) }
    ensures kept { IfOk result (λ w. w.kept ≡ true → (b i : ℕ) → slot_if homes.now.bases.items b ≡ Some i → NodeKeeps i b (node_view n.now) (has on.items i)) }
{
    let held = keeps(homes, n, &on);
    let set = used_act(homes, n, on)?;
    let listed = lists(alloc, &set, n)?;
    Ok(Walked {
        on: set,
        kept: both(held, listed),
    })
}

// What is used at or behind the start of the row, from what is used behind it, behind the loop around
// it, and at the end of the body or step around it; and whether each act keeps what is used behind it.
// The heads from the next one on are those of the row's loops.
#[cycle(keeps)]
fn kept_row(
    alloc: Global,
    outline: &Outline,
    next: &mut usize,
    rows: &[Node],
    on: Vec<u64>,
    out: &[u64],
    end: &[u64],
) -> Result<Walked, NoMemory>
    requires homes { AreHomes outline.now.homes }
    requires within { next.old + loops (nodes_view rows.now) ≤ length outline.now.heads.items }
    requires heads { AreHeads outline.now.homes.bases.items outline.now.heads.items next.old (nodes_view rows.now) }
    ensures next { OnOk result (next.new ≡ next.old + loops (nodes_view rows.now)) }
    ensures used { IfOk result (λ w. Tells outline.now.homes.bases.items w.on.items (λ i b. live i b (nodes_view rows.now) (lives_in on.items out.now end.now i))) }
    ensures kept { IfOk result (λ w. w.kept ≡ true → AreKept outline.now.homes.bases.items (nodes_view rows.now) on.items out.now end.now) }
{
    let mut set = on;
    let mut kept = true;
    let mut left = rows;
    'row: while let [front @ .., n] = left {
        let node = kept_node(alloc, outline, next, n, set, out, end)?;
        kept = both(node.kept, kept);
        set = node.on;
        left = front;
    }
    Ok(Walked { on: set, kept })
}

#[cycle(keeps)]
fn kept_node(
    alloc: Global,
    outline: &Outline,
    next: &mut usize,
    n: &Node,
    on: Vec<u64>,
    out: &[u64],
    end: &[u64],
) -> Result<Walked, NoMemory>
    requires homes { AreHomes outline.now.homes }
    requires within { next.old + loops_in (node_view n.now) ≤ length outline.now.heads.items }
    requires heads { AreHeadsIn outline.now.homes.bases.items outline.now.heads.items next.old (node_view n.now) }
    ensures next { OnOk result (next.new ≡ next.old + loops_in (node_view n.now)) }
    ensures used { IfOk result (λ w. Tells outline.now.homes.bases.items w.on.items (λ i b. live_node i b (node_view n.now) (lives_in on.items out.now end.now i))) }
    ensures kept { IfOk result (λ w. w.kept ≡ true → AreKeptIn outline.now.homes.bases.items (node_view n.now) on.items out.now end.now) }
{
    match &n.kind {
        NodeKind::If(_, one, other) => {
            let start = on.to_vec(alloc)?;
            let first = kept_row(alloc, outline, next, one, start, out, end)?;
            let second = kept_row(alloc, outline, next, other, on, out, end)?;
            Ok(both_walked(first, second))
        }
        NodeKind::Loop(body, step) => kept_loop(alloc, outline, next, body, step, &on),
        NodeKind::Set(..) | NodeKind::Call(_) | NodeKind::Step(_) | NodeKind::Look(..) => {
            kept_act(alloc, &outline.homes, n, on)
        }
        NodeKind::Safepoint(_) | NodeKind::Begin(_) | NodeKind::End(_) => {
            kept_act(alloc, &outline.homes, n, on)
        }
        NodeKind::Break => led_to(alloc, out),
        NodeKind::Next => led_to(alloc, end),
        NodeKind::Ret(_) => Ok(Walked {
            on: Vec::new(alloc),
            kept: true,
        }),
    }
}

#[cycle(keeps)]
fn kept_loop(
    alloc: Global,
    outline: &Outline,
    next: &mut usize,
    body: &[Node],
    step: &[Node],
    on: &[u64],
) -> Result<Walked, NoMemory>
    requires homes { AreHomes outline.now.homes }
    requires within { next.old + suc (loops (nodes_view body.now) + loops (nodes_view step.now)) ≤ length outline.now.heads.items }
    requires heads { AreHeadsWithin outline.now.homes.bases.items outline.now.heads.items next.old (nodes_view body.now) (nodes_view step.now) }
    ensures next { OnOk result (next.new ≡ next.old + suc (loops (nodes_view body.now) + loops (nodes_view step.now))) }
    ensures used { IfOk result (λ w. Tells outline.now.homes.bases.items w.on.items (λ i b. head_live i b (nodes_view body.now) (nodes_view step.now) (has on.now i))) }
    ensures kept { IfOk result (λ w. w.kept ≡ true → AreKeptLoop outline.now.homes.bases.items (nodes_view body.now) (nodes_view step.now) on.now) }
{
    let head = next_head(alloc, outline, next, on)?;
    let top = head.to_vec(alloc)?;
    let latch = kept_row(alloc, outline, next, step, top, on, &head)?;
    let last = latch.on.to_vec(alloc)?;
    let first = kept_row(alloc, outline, next, body, last, on, &latch.on)?;
    Ok(Walked {
        on: head,
        kept: both(first.kept, latch.kept),
    })
}

fn has_home(homes: &Homes, q: Pair) -> bool
    requires { AreHomes homes.now }
    ensures { result ≡ true → HasHome homes.now.bases.items q }
{
    match homes.marks.bit(q.base) {
        Some(i) => i == q.slot as usize,
        None => false,
    }
}

// Whether each pair's slot is its register's.
fn have_homes(homes: &Homes, pairs: &[Pair]) -> bool
    requires { AreHomes homes.now }
    ensures { result ≡ true → (q : CodePair) → has_pair q pairs.now ≡ true → HasHome homes.now.bases.items q }
{
    for q in pairs {
        if !has_home(homes, *q) {
            return false;
        }
    }
    true
}

/// Whether each pair is kept, which two walks tell. A pair that isn't kept may still be at no fault,
/// where control doesn't come.
///
/// # Errors
///
/// Only want of memory.
pub fn are_kept(alloc: Global, f: &IrFunc, pairs: &[Pair]) -> Result<bool, NoMemory>
    ensures { IfOk result (λ y. y ≡ true → (q : CodePair) → has_pair q pairs.now ≡ true → IsKept (nodes_view f.now.nodes.items) q) }
{
    // (there are no more bases than registers)
    let _temps = f.temps;
    let bases = bases_of(alloc, f)?;
    let homes = homes_of(alloc, bases)?;
    let outline = outline_of(alloc, homes, &f.nodes)?;
    let none = Vec::new(alloc);
    let mut next = 0;
    let walked = kept_row(
        alloc,
        &outline,
        &mut next,
        &f.nodes,
        Vec::new(alloc),
        &none,
        &none,
    )?;
    if walked.kept && is_empty(&walked.on) {
        Ok(have_homes(&outline.homes, pairs))
    } else {
        Ok(false)
    }
}
