//! What a search finds in code. Each node is gone through once: in a loop for both states in which a path may come to it, since only the whole
//! round tells in which one it starts, and elsewhere for the one that is known.

ghost use Rattle.std.specs.Prelude.{◌≡◌, true, None};
ghost use Rattle.struct_ir.specs.Views.{node_view, nodes_view};
ghost use Rattle.pin_flow.specs.Marks.{at};
ghost use Rattle.pin_flow.specs.Views.{state_view};
ghost use Rattle.pin_checker.specs.inner.SearchViews.{search_view};
ghost use Rattle.pin_checker.specs.inner.Found.{is_leaf, both_of, found_in, found_at, from, behind, one_of, round_from, looped, found_view, both_view};

use crate::fault::{Fault, earlier_of, noted};
use crate::search::Search;
use pin_flow::flow::ways_of_node;
use pin_flow::state::{State, Ways, all_on, around, both_ways, end_of, joined, one_behind};
use struct_ir::{Node, NodeKind};

/// Where control leaves some nodes, and the first fault in them.
#[derive(Clone, Copy, Debug, PartialEq, Eq)]
pub struct Found {
    /// Where control leaves them.
    pub ways: Ways,
    /// The fault, if there is one.
    pub first: Option<Fault>,
}

/// What is found in some nodes, by what the paths to them say.
#[derive(Clone, Copy, Debug, PartialEq, Eq)]
pub struct Both {
    /// Where each path says yes.
    pub good: Found,
    /// Where some path says no.
    pub bad: Found,
}

// No nodes.
fn nothing(before: State) -> Found
    ensures { found_view result ≡ record { ways = at (state_view before); first = None } }
{
    Found {
        ways: all_on(before),
        first: None,
    }
}

// What is found from this state.
fn from(both: Both, before: State) -> Found
    ensures { found_view result ≡ from (both_view both) (state_view before) }
{
    match before {
        State::Unreached => nothing(State::Unreached),
        State::Good => both.good,
        State::Bad => both.bad,
    }
}

// A node behind others.
fn behind(a: Found, n: Found) -> Found
    ensures { found_view result ≡ behind (found_view a) (found_view n) }
{
    Found {
        ways: one_behind(a.ways, n.ways),
        first: earlier_of(a.first, n.first),
    }
}

// Either of two branches.
fn one_of(a: Found, b: Found) -> Found
    ensures { found_view result ≡ one_of (found_view a) (found_view b) }
{
    Found {
        ways: both_ways(a.ways, b.ways),
        first: earlier_of(a.first, b.first),
    }
}

// A loop's round that starts in this state.
fn round_from(body: Both, step: Both, head: State) -> Found
    ensures { found_view result ≡ round_from (both_view body) (both_view step) (state_view head) }
{
    let one = from(body, head);
    let two = from(step, end_of(one.ways));
    Found {
        ways: around(one.ways, two.ways),
        first: earlier_of(one.first, two.first),
    }
}

// A loop, by its body and its step.
fn looped(body: Both, step: Both, before: State) -> Found
    ensures { found_view result ≡ looped (both_view body) (both_view step) (state_view before) }
{
    let once = round_from(body, step, before);
    let each = round_from(body, step, joined(before, once.ways.on));
    Found {
        ways: all_on(each.ways.broken),
        first: each.first,
    }
}

// A node that holds no others, from this state.
fn itself(search: Search, n: &Node, before: State) -> Found
    ensures { is_leaf (node_view n.now) ≡ true → found_view result ≡ found_at (search_view search) (node_view n.now) (state_view before) }
{
    Found {
        ways: ways_of_node(search.mark(), n, before),
        first: noted(search.blames(n, before), n.place, search.why(), None),
    }
}

// A node that holds no others, from either state.
fn alone(search: Search, n: &Node) -> Both
    ensures { is_leaf (node_view n.now) ≡ true → both_view result ≡ both_of (found_at (search_view search) (node_view n.now)) }
{
    Both {
        good: itself(search, n, State::Good),
        bad: itself(search, n, State::Bad),
    }
}

// What is found in the row, from either state.
#[cycle(boths)]
fn both_in(search: Search, rows: &[Node]) -> Both
    ensures { both_view result ≡ both_of (found_in (search_view search) (nodes_view rows.now)) }
{
    let mut both = Both {
        good: nothing(State::Good),
        bad: nothing(State::Bad),
    };
    for n in rows {
        let next = both_at(search, n);
        both = Both {
            good: behind(both.good, from(next, both.good.ways.on)),
            bad: behind(both.bad, from(next, both.bad.ways.on)),
        };
    }
    both
}

#[cycle(boths)]
fn both_at(search: Search, n: &Node) -> Both
    ensures { both_view result ≡ both_of (found_at (search_view search) (node_view n.now)) }
{
    match &n.kind {
        NodeKind::If(_, one, other) => {
            let first = both_in(search, one);
            let second = both_in(search, other);
            Both {
                good: one_of(first.good, second.good),
                bad: one_of(first.bad, second.bad),
            }
        }
        NodeKind::Loop(body, step) => {
            let first = both_in(search, body);
            let second = both_in(search, step);
            Both {
                good: looped(first, second, State::Good),
                bad: looped(first, second, State::Bad),
            }
        }
        NodeKind::Set(..) | NodeKind::Call(_) | NodeKind::Step(_) | NodeKind::Look(..) => {
            alone(search, n)
        }
        NodeKind::Safepoint(_) | NodeKind::Begin(_) | NodeKind::End(_) => alone(search, n),
        NodeKind::Break | NodeKind::Next | NodeKind::Ret(_) => alone(search, n),
    }
}

/// What is found in the row from this state.
#[cycle(founds)]
pub fn found_in(search: Search, rows: &[Node], before: State) -> Found
    ensures { found_view result ≡ found_in (search_view search) (nodes_view rows.now) (state_view before) }
{
    let mut all = nothing(before);
    for n in rows {
        let next = found_at(search, n, all.ways.on);
        all = behind(all, next);
    }
    all
}

#[cycle(founds)]
fn found_at(search: Search, n: &Node, before: State) -> Found
    ensures { found_view result ≡ found_at (search_view search) (node_view n.now) (state_view before) }
{
    match &n.kind {
        NodeKind::If(_, one, other) => {
            let first = found_in(search, one, before);
            let second = found_in(search, other, before);
            one_of(first, second)
        }
        NodeKind::Loop(..) => from(both_at(search, n), before),
        NodeKind::Set(..) | NodeKind::Call(_) | NodeKind::Step(_) | NodeKind::Look(..) => {
            itself(search, n, before)
        }
        NodeKind::Safepoint(_) | NodeKind::Begin(_) | NodeKind::End(_) => itself(search, n, before),
        NodeKind::Break | NodeKind::Next | NodeKind::Ret(_) => itself(search, n, before),
    }
}
