//! The lists of all registers at once, by what is used later.

ghost use Rattle.std.specs.Prelude.{◌≡◌, ◌==◌, ◌<◌, ◌≤◌, ◌+◌, ◌^◌, ◌||◌, ◌&&◌, ℕ, suc, Some, true, false, length, not, IfOk, OnOk};
ghost use Rattle.struct_ir.specs.Views.{step_view, node_view, nodes_view};
ghost use Rattle.pin_flow.specs.Live.{uses, live, live_node, head_live, body_lives, latch_lives};
ghost use Rattle.pin_flow.specs.Looks.{is_to};
ghost use Rattle.pin_flow.specs.Slots.{slot_if, slot_in};
ghost use Rattle.pin_flow.specs.Views.{act_is, looks_slot};
ghost use Rattle.mark_sets.specs.Words.{has};
ghost use Rattle.pin_frames.specs.inner.Place.{step_listing};
ghost use Rattle.mark_sets.specs.Added.{loops, loops_in};
ghost use Rattle.mark_sets.specs.Heads.{AreHeads, AreHeadsIn, AreHeadsWithin};
ghost use Rattle.mark_sets.specs.Homes.{AreHomes, Tells, lives_in, node_keeps};
ghost use Rattle.pin_frames.specs.inner.Together.{numbers, slots_for, used_listed, used_listed_in, node_listing, AreKept, AreKeptIn, AreKeptLoop};

use ak_words::NoMemory;
use mark_sets::from_behind::{Walked, both, both_walked, led_to};
use mark_sets::heads::{Outline, next_head};
use mark_sets::homes::{Homes, keeps};
use mark_sets::used::used_act;
use mark_sets::words::{contains, word};
use smallvec::SmallVec;
use std::alloc::Global;
use struct_ir::{Node, NodeKind, StepNode};

// The number, or where no bit of its word is set from it on, the first number of the next word.
fn next_from(set: &[u64], i: usize) -> usize
    requires { i ≤ 2 ^ 32 }
    ensures on { i ≤ result }
    ensures none { (j : ℕ) → i ≤ j → j < result → has set.now j ≡ false }
{
    if word(set, i / 64) >> (i % 64) == 0 {
        (i / 64 + 1) * 64
    } else {
        i
    }
}

// Those of the numbers below `count` that are in the set.
fn numbers_in(alloc: Global, set: &[u64], count: usize) -> Result<Vec<u32>, NoMemory>
    requires { count < 2 ^ 32 }
    ensures { IfOk result (λ v. v.items ≡ numbers (has set.now) 0 count) }
{
    let mut out = Vec::new(alloc);
    let mut i = 0;
    'numbers: while i < count {
        if contains(set, i) {
            out.push(i as u32)?;
        }
        i = next_from(set, i + 1);
    }
    Ok(out)
}

fn list_step(alloc: Global, set: &[u64], count: usize, s: &mut StepNode) -> Result<(), NoMemory>
    requires { count < 2 ^ 32 }
    ensures { OnOk result (step_view s.new ≡ step_listing (step_view s.old) (numbers (has set.now) 0 count)) }
{
    s.slots = if s.action.may_wait() {
        let slots = numbers_in(alloc, set, count)?;
        SmallVec::from_slice(alloc, &slots)?
    } else {
        SmallVec::new(alloc)
    };
    Ok(())
}

// Makes the numbers of the set the node's own list, if it has one.
fn list_own(alloc: Global, set: &[u64], count: usize, n: &mut Node) -> Result<(), NoMemory>
    requires { count < 2 ^ 32 }
    ensures { OnOk result (node_view n.new ≡ node_listing (node_view n.old) (numbers (has set.now) 0 count)) }
{
    match &mut n.kind {
        NodeKind::Call(c) => c.slots = numbers_in(alloc, set, count)?,
        NodeKind::Step(s) => list_step(alloc, set, count, s)?,
        NodeKind::Safepoint(old) => *old = numbers_in(alloc, set, count)?,
        _ => {}
    }
    Ok(())
}

fn list_act(alloc: Global, homes: &Homes, n: &mut Node, on: Vec<u64>) -> Result<Walked, NoMemory>
    requires { AreHomes homes.now }
    ensures used { IfOk result (λ w. Tells homes.now.bases.items w.on.items (λ i b. act_is (uses i b) (node_view n.old) || (not (looks_slot i (node_view n.old)) && has on.items i))) }
    ensures kept { IfOk result (λ w. w.kept ≡ true → (b i : ℕ) → slot_if homes.now.bases.items b ≡ Some i → has on.items i ≡ true → node_keeps i b (node_view n.old) ≡ true) }
    ensures node { OnOk result (node_view n.new ≡ node_listing (node_view n.old) (slots_for (slot_in homes.now.bases.items) homes.now.bases.items (λ b. act_is (uses (slot_in homes.now.bases.items b) b) (node_view n.old) || (not (looks_slot (slot_in homes.now.bases.items b) (node_view n.old)) && has on.items (slot_in homes.now.bases.items b))))) }
{
    let kept = keeps(homes, n, &on);
    let set = used_act(homes, n, on)?;
    list_own(alloc, &set, homes.bases.len(), n)?;
    Ok(Walked { on: set, kept })
}

/// Makes the lists of the row: each has the slots that are used at its act or later. The heads from
/// the next one on are those of the row's loops.
///
/// # Errors
///
/// Only want of memory.
#[cycle(lists)]
pub(crate) fn list_row(
    alloc: Global,
    outline: &Outline,
    next: &mut usize,
    rows: &mut [Node],
    on: Vec<u64>,
    out: &[u64],
    end: &[u64],
) -> Result<Walked, NoMemory>
    requires homes { AreHomes outline.now.homes }
    requires within { next.old + loops (nodes_view rows.old) ≤ length outline.now.heads.items }
    requires heads { AreHeads outline.now.homes.bases.items outline.now.heads.items next.old (nodes_view rows.old) }
    ensures next { OnOk result (next.new ≡ next.old + loops (nodes_view rows.old)) }
    ensures used { IfOk result (λ w. Tells outline.now.homes.bases.items w.on.items (λ i b. live i b (nodes_view rows.old) (lives_in on.items out.now end.now i))) }
    ensures kept { IfOk result (λ w. w.kept ≡ true → AreKept outline.now.homes.bases.items (nodes_view rows.old) on.items out.now end.now) }
    ensures row { OnOk result (nodes_view rows.new ≡ used_listed (slot_in outline.now.homes.bases.items) outline.now.homes.bases.items (nodes_view rows.old) (λ b. lives_in on.items out.now end.now (slot_in outline.now.homes.bases.items b))) }
{
    let mut set = on;
    let mut kept = true;
    let mut left = rows.len();
    'row: while left > 0 {
        left -= 1;
        let node = list_node(alloc, outline, next, &mut rows[left], set, out, end)?;
        kept = both(node.kept, kept);
        set = node.on;
    }
    Ok(Walked { on: set, kept })
}

// The same of a node.
#[cycle(lists)]
fn list_node(
    alloc: Global,
    outline: &Outline,
    next: &mut usize,
    n: &mut Node,
    on: Vec<u64>,
    out: &[u64],
    end: &[u64],
) -> Result<Walked, NoMemory>
    requires homes { AreHomes outline.now.homes }
    requires within { next.old + loops_in (node_view n.old) ≤ length outline.now.heads.items }
    requires heads { AreHeadsIn outline.now.homes.bases.items outline.now.heads.items next.old (node_view n.old) }
    ensures next { OnOk result (next.new ≡ next.old + loops_in (node_view n.old)) }
    ensures used { IfOk result (λ w. Tells outline.now.homes.bases.items w.on.items (λ i b. live_node i b (node_view n.old) (lives_in on.items out.now end.now i))) }
    ensures kept { IfOk result (λ w. w.kept ≡ true → AreKeptIn outline.now.homes.bases.items (node_view n.old) on.items out.now end.now) }
    ensures node { OnOk result (node_view n.new ≡ used_listed_in (slot_in outline.now.homes.bases.items) outline.now.homes.bases.items (node_view n.old) (λ b. lives_in on.items out.now end.now (slot_in outline.now.homes.bases.items b))) }
{
    match &mut n.kind {
        NodeKind::If(_, one, other) => {
            let start = on.to_vec(alloc)?;
            let first = list_row(alloc, outline, next, one, start, out, end)?;
            let second = list_row(alloc, outline, next, other, on, out, end)?;
            Ok(both_walked(first, second))
        }
        NodeKind::Loop(body, step) => list_loop(alloc, outline, next, body, step, &on),
        NodeKind::Set(..) | NodeKind::Call(_) | NodeKind::Step(_) | NodeKind::Look(..) => {
            list_act(alloc, &outline.homes, n, on)
        }
        NodeKind::Safepoint(_) | NodeKind::Begin(_) | NodeKind::End(_) => {
            list_act(alloc, &outline.homes, n, on)
        }
        NodeKind::Break => led_to(alloc, out),
        NodeKind::Next => led_to(alloc, end),
        NodeKind::Ret(_) => Ok(Walked {
            on: Vec::new(alloc),
            kept: true,
        }),
    }
}

// Makes the lists of a loop's body and step, from what is used behind the loop. Tells what is used
// at the start of each round.
#[cycle(lists)]
fn list_loop(
    alloc: Global,
    outline: &Outline,
    next: &mut usize,
    body: &mut [Node],
    step: &mut [Node],
    on: &[u64],
) -> Result<Walked, NoMemory>
    requires homes { AreHomes outline.now.homes }
    requires within { next.old + suc (loops (nodes_view body.old) + loops (nodes_view step.old)) ≤ length outline.now.heads.items }
    requires heads { AreHeadsWithin outline.now.homes.bases.items outline.now.heads.items next.old (nodes_view body.old) (nodes_view step.old) }
    ensures next { OnOk result (next.new ≡ next.old + suc (loops (nodes_view body.old) + loops (nodes_view step.old))) }
    ensures used { IfOk result (λ w. Tells outline.now.homes.bases.items w.on.items (λ i b. head_live i b (nodes_view body.old) (nodes_view step.old) (has on.now i))) }
    ensures kept { IfOk result (λ w. w.kept ≡ true → AreKeptLoop outline.now.homes.bases.items (nodes_view body.old) (nodes_view step.old) on.now) }
    ensures body { OnOk result (nodes_view body.new ≡ used_listed (slot_in outline.now.homes.bases.items) outline.now.homes.bases.items (nodes_view body.old) (λ b. body_lives (slot_in outline.now.homes.bases.items b) b (nodes_view body.old) (nodes_view step.old) (has on.now (slot_in outline.now.homes.bases.items b)))) }
    ensures step { OnOk result (nodes_view step.new ≡ used_listed (slot_in outline.now.homes.bases.items) outline.now.homes.bases.items (nodes_view step.old) (λ b. latch_lives (slot_in outline.now.homes.bases.items b) b (nodes_view body.old) (nodes_view step.old) (has on.now (slot_in outline.now.homes.bases.items b)))) }
{
    let head = next_head(alloc, outline, next, on)?;
    let top = head.to_vec(alloc)?;
    let latch = list_row(alloc, outline, next, step, top, on, &head)?;
    let last = latch.on.to_vec(alloc)?;
    let first = list_row(alloc, outline, next, body, last, on, &latch.on)?;
    Ok(Walked {
        on: head,
        kept: both(first.kept, latch.kept),
    })
}
