//! One slot more in each list that wants it.

ghost use Rattle.std.specs.Prelude.{◌≡◌, ◌&&◌, IfOk, OnOk};
ghost use Rattle.struct_ir.specs.Nodes.{may_wait};
ghost use Rattle.struct_ir.specs.Views.{step_view, node_view, nodes_view};
ghost use Rattle.pin_flow.specs.Marks.{in_turn, flow, flow_node};
ghost use Rattle.pin_flow.specs.Held.{held};
ghost use Rattle.pin_flow.specs.Views.{state_view, ways_view};
ghost use Rattle.pin_frames.specs.Views.{lives_view};
ghost use Rattle.pin_frames.specs.inner.Place.{added, node_wants, listed_own, listed_one, listed_one_in, behind, last_in};

use crate::lives::{Lives, act_live, head_live, live_node, live_row, lives_of};
use ak_words::NoMemory;
use pin_flow::flow::{behind, head_from};
use pin_flow::mark::Mark;
use pin_flow::seen::uses;
use pin_flow::state::{State, Ways, all_on, around, both_ways, end_of, one_behind};
use std::alloc::Global;
use struct_ir::{Node, NodeKind, Numbers, StepNode};

fn is_wanted(slot: u32, b: u32, n: &Node, before: State, later: bool) -> bool
    ensures { result ≡ node_wants slot b (node_view n.now) (state_view before) later }
{
    (before != State::Bad && act_live(slot, b, n, later)) || uses(slot, b, n)
}

// Puts one slot more at the end of a list, or leaves it.
fn with_slot(slot: u32, more: bool, slots: &mut Vec<u32>) -> Result<(), NoMemory>
    ensures { OnOk result (slots.new.items ≡ added slot more slots.old.items) }
{
    if more {
        slots.push(slot)?;
    }
    Ok(())
}

fn both(a: bool, b: bool) -> bool
    ensures { result ≡ (a && b) }
{
    a && b
}

fn with_number(slot: u32, more: bool, slots: &mut Numbers) -> Result<(), NoMemory>
    ensures { OnOk result (slots.new.items ≡ added slot more slots.old.items) }
{
    if more {
        slots.push(slot)?;
    }
    Ok(())
}

fn list_step(slot: u32, more: bool, s: &mut StepNode) -> Result<(), NoMemory>
    ensures { OnOk result (step_view s.new ≡ record { action = (step_view s.old).action; places = (step_view s.old).places; to = (step_view s.old).to; temps = (step_view s.old).temps; slots = added slot (more && may_wait (step_view s.old).action) (step_view s.old).slots }) }
{
    let listed = both(more, s.action.may_wait());
    with_number(slot, listed, &mut s.slots)
}

// Whether an access comes later behind each node of the row, the last node first.
fn lives_behind(
    alloc: Global,
    slot: u32,
    b: u32,
    rows: &[Node],
    after: Lives,
) -> Result<Vec<bool>, NoMemory>
    ensures { IfOk result (λ v. v.items ≡ behind slot b (nodes_view rows.now) (lives_view after)) }
{
    let mut out = Vec::new(alloc);
    out.push(after.on)?;
    let mut on = after.on;
    let mut left = rows;
    'row: while let [front @ .., n] = left {
        on = live_node(slot, b, n, lives_of(on, after.out, after.end));
        out.push(on)?;
        left = front;
    }
    Ok(out)
}

fn last_of(lives: &[bool]) -> bool
    ensures { result ≡ last_in lives.now }
{
    match lives {
        [.., last] => *last,
        [] => false,
    }
}

// Puts the slot in the node's own list, if it has one.
fn list_own(slot: u32, more: bool, n: &mut Node) -> Result<(), NoMemory>
    ensures { OnOk result (node_view n.new ≡ listed_own slot more (node_view n.old)) }
{
    match &mut n.kind {
        NodeKind::Call(c) => with_slot(slot, more, &mut c.slots),
        NodeKind::Step(s) => list_step(slot, more, s),
        NodeKind::Safepoint(slots) => with_slot(slot, more, slots),
        _ => Ok(()),
    }
}

/// Puts the slot in each list of the row that wants it. Tells where control leaves the row, for
/// the register being held.
///
/// # Errors
///
/// Only want of memory.
#[cycle(lists)]
pub fn list_row(
    alloc: Global,
    slot: u32,
    b: u32,
    rows: &mut [Node],
    before: State,
    after: Lives,
) -> Result<Ways, NoMemory>
    ensures ways { IfOk result (λ o. ways_view o ≡ flow (held b) (nodes_view rows.old) (state_view before)) }
    ensures row { OnOk result (nodes_view rows.new ≡ listed_one slot b (nodes_view rows.old) (state_view before) (lives_view after)) }
{
    let mut lives = lives_behind(alloc, slot, b, rows, after)?;
    let mut ahead = all_on(before);
    for n in rows.iter_mut() {
        lives.pop();
        let later = lives_of(last_of(&lives), after.out, after.end);
        ahead = list_node(alloc, slot, b, n, ahead, later)?;
    }
    Ok(ahead)
}

// In a node behind a row that control leaves so; where it leaves the two.
#[cycle(lists)]
fn list_node(
    alloc: Global,
    slot: u32,
    b: u32,
    n: &mut Node,
    ahead: Ways,
    after: Lives,
) -> Result<Ways, NoMemory>
    ensures ways { IfOk result (λ o. ways_view o ≡ in_turn (ways_view ahead) (flow_node (held b) (node_view n.old) (ways_view ahead).on)) }
    ensures node { OnOk result (node_view n.new ≡ listed_one_in slot b (node_view n.old) (ways_view ahead).on (lives_view after)) }
{
    match &mut n.kind {
        NodeKind::If(_, one, other) => {
            let first = list_row(alloc, slot, b, one, ahead.on, after)?;
            let second = list_row(alloc, slot, b, other, ahead.on, after)?;
            Ok(one_behind(ahead, both_ways(first, second)))
        }
        NodeKind::Loop(body, step) => {
            let head = head_from(Mark::Held(b), body, step, ahead.on);
            let top = head_live(slot, b, body, step, after.on);
            let latch = lives_of(top, after.on, top);
            let end = live_row(slot, b, step, latch);
            let first = list_row(alloc, slot, b, body, head, lives_of(end, after.on, end))?;
            let second = list_row(alloc, slot, b, step, end_of(first), latch)?;
            Ok(one_behind(ahead, all_on(around(first, second).broken)))
        }
        _ => {
            let more = is_wanted(slot, b, n, ahead.on, after.on);
            let ways = behind(Mark::Held(b), n, ahead);
            list_own(slot, more, n)?;
            Ok(ways)
        }
    }
}
