//! States behind rows of nodes. A node in a loop is gone through for both states in which a path may come to it, since only the whole round tells
//! in which one it starts; so however deep loops stand in each other, each node is gone through once for each state.

ghost use Rattle.std.specs.Prelude.{◌≡◌};
ghost use Rattle.struct_ir.specs.Views.{node_view, nodes_view};
ghost use Rattle.pin_flow.specs.Marks.{at, in_turn, flow, flow_node, round_of, head_of};
ghost use Rattle.pin_flow.specs.Views.{mark_view, state_view, ways_view, leaf};
ghost use Rattle.pin_flow.specs.inner.Both.{both_of, from, both_view};

use crate::mark::Mark;
use crate::state::{State, Ways, all_on, around, both_ways, end_of, joined, on_to, one_behind};
use struct_ir::{Node, NodeKind};

fn leaf_at(mark: Mark, n: &Node, before: State) -> Ways
    ensures { ways_view result ≡ leaf (mark_view mark) (node_view n.now) (state_view before) }
{
    match &n.kind {
        NodeKind::If(..) => all_on(State::Unreached),
        NodeKind::Loop(..) => all_on(State::Unreached),
        NodeKind::Ret(_) => all_on(State::Unreached),
        NodeKind::Break => Ways {
            on: State::Unreached,
            broken: before,
            next: State::Unreached,
        },
        NodeKind::Next => Ways {
            on: State::Unreached,
            broken: State::Unreached,
            next: before,
        },
        _ => all_on(mark.state(n, before)),
    }
}

// Where control leaves some nodes: where each path to them says yes, and where some path says no.
#[derive(Clone, Copy)]
struct Both {
    good: Ways,
    bad: Ways,
}

// From this state.
fn from(both: Both, before: State) -> Ways
    ensures { ways_view result ≡ from (both_view both) (state_view before) }
{
    match before {
        State::Unreached => all_on(State::Unreached),
        State::Good => both.good,
        State::Bad => both.bad,
    }
}

// A loop's round that starts in this state.
fn round_from(body: Both, step: Both, head: State) -> Ways
    ensures { ways_view result ≡ round_of (from (both_view body)) (from (both_view step)) (state_view head) }
{
    let one = from(body, head);
    around(one, from(step, end_of(one)))
}

// A loop, by its body and its step.
fn looped(body: Both, step: Both, before: State) -> Ways
    ensures { ways_view result ≡ at (round_of (from (both_view body)) (from (both_view step)) (head_of (from (both_view body)) (from (both_view step)) (state_view before))).broken }
{
    let once = round_from(body, step, before);
    let head = joined(before, once.on);
    all_on(round_from(body, step, head).broken)
}

// Where control leaves a node that holds no others, from either state.
fn alone(mark: Mark, n: &Node) -> Both
    ensures { both_view result ≡ both_of (leaf (mark_view mark) (node_view n.now)) }
{
    Both {
        good: leaf_at(mark, n, State::Good),
        bad: leaf_at(mark, n, State::Bad),
    }
}

// Where control leaves the row, from either state.
#[cycle(boths)]
fn both_in(mark: Mark, rows: &[Node]) -> Both
    ensures { both_view result ≡ both_of (flow (mark_view mark) (nodes_view rows.now)) }
{
    let mut both = Both {
        good: all_on(State::Good),
        bad: all_on(State::Bad),
    };
    for n in rows {
        let next = both_at(mark, n);
        both = Both {
            good: one_behind(both.good, from(next, both.good.on)),
            bad: one_behind(both.bad, from(next, both.bad.on)),
        };
    }
    both
}

#[cycle(boths)]
fn both_at(mark: Mark, n: &Node) -> Both
    ensures { both_view result ≡ both_of (flow_node (mark_view mark) (node_view n.now)) }
{
    match &n.kind {
        NodeKind::If(_, one, other) => {
            let first = both_in(mark, one);
            let second = both_in(mark, other);
            Both {
                good: both_ways(first.good, second.good),
                bad: both_ways(first.bad, second.bad),
            }
        }
        NodeKind::Loop(body, step) => {
            let first = both_in(mark, body);
            let second = both_in(mark, step);
            Both {
                good: looped(first, second, State::Good),
                bad: looped(first, second, State::Bad),
            }
        }
        NodeKind::Set(..) | NodeKind::Call(_) | NodeKind::Step(_) | NodeKind::Look(..) => {
            alone(mark, n)
        }
        NodeKind::Safepoint(_) | NodeKind::Begin(_) | NodeKind::End(_) => alone(mark, n),
        NodeKind::Break | NodeKind::Next | NodeKind::Ret(_) => alone(mark, n),
    }
}

/// Where control leaves the row, from the state before it.
#[cycle(flows)]
pub fn ways_of(mark: Mark, rows: &[Node], before: State) -> Ways
    ensures { ways_view result ≡ flow (mark_view mark) (nodes_view rows.now) (state_view before) }
{
    let mut ahead = all_on(before);
    for n in rows {
        ahead = behind(mark, n, ahead);
    }
    ahead
}

/// Where control leaves a row with this node behind it, from where it leaves the row. An act
/// changes no more than where control goes on.
#[cycle(flows)]
pub fn behind(mark: Mark, n: &Node, ahead: Ways) -> Ways
    ensures { ways_view result ≡ in_turn (ways_view ahead) (flow_node (mark_view mark) (node_view n.now) (ways_view ahead).on) }
{
    match &n.kind {
        NodeKind::Set(..) | NodeKind::Call(_) | NodeKind::Step(_) | NodeKind::Look(..) => {
            on_to(ahead, mark.state(n, ahead.on))
        }
        NodeKind::Safepoint(_) | NodeKind::Begin(_) | NodeKind::End(_) => {
            on_to(ahead, mark.state(n, ahead.on))
        }
        _ => one_behind(ahead, ways_of_node(mark, n, ahead.on)),
    }
}

/// Where control leaves the node, from the state before it.
#[cycle(flows)]
pub fn ways_of_node(mark: Mark, n: &Node, before: State) -> Ways
    ensures { ways_view result ≡ flow_node (mark_view mark) (node_view n.now) (state_view before) }
{
    match &n.kind {
        NodeKind::If(_, one, other) => {
            let first = ways_of(mark, one, before);
            both_ways(first, ways_of(mark, other, before))
        }
        NodeKind::Loop(..) => from(both_at(mark, n), before),
        NodeKind::Set(..) | NodeKind::Call(_) | NodeKind::Step(_) | NodeKind::Look(..) => {
            leaf_at(mark, n, before)
        }
        NodeKind::Safepoint(_) | NodeKind::Begin(_) | NodeKind::End(_) => leaf_at(mark, n, before),
        NodeKind::Break | NodeKind::Next | NodeKind::Ret(_) => leaf_at(mark, n, before),
    }
}

/// The start of each round of a loop.
pub fn head_from(mark: Mark, body: &[Node], step: &[Node], before: State) -> State
    ensures { state_view result ≡ head_of (flow (mark_view mark) (nodes_view body.now)) (flow (mark_view mark) (nodes_view step.now)) (state_view before) }
{
    match before {
        State::Bad => State::Bad,
        _ => {
            let one = ways_of(mark, body, before);
            joined(before, around(one, ways_of(mark, step, end_of(one))).on)
        }
    }
}
