//! The first walk: what the rounds of loops add. It goes through each node once.

ghost use Rattle.std.specs.Prelude.{◌≡◌, not, ℕ, [], Bool, Some, IfOk, OnOk};
ghost use Rattle.struct_ir.specs.Views.{node_view, nodes_view};
ghost use Rattle.pin_flow.specs.declared.mark.Mark.{Mark as CodeMark};
ghost use Rattle.pin_flow.specs.Marks.{join, after, at, end_state, flow_node};
ghost use Rattle.pin_flow.specs.Views.{mark_view, node_marked, leaf};
ghost use Rattle.mark_sets.specs.Sets.{state_at, ways_at};
ghost use Rattle.mark_sets.specs.Views.{pairs_view, pair_ways_view, bit_of, pair_has, HaveOwnBits, with_bad, led_by, FlowsFrom, GoesOn};
ghost use Rattle.mark_sets.specs.Words.{has};
ghost use Rattle.mark_sets.specs.Added.{AreAdded, Gathers, GathersIn};

use crate::marks::Marks;
use crate::pairs::{
    Pair, PairWays, Pairs, added, begun, both_ways, by_break, by_next, copied, joined, on_to,
    one_behind, through, with_added,
};
use ak_words::NoMemory;
use std::alloc::Global;
use struct_ir::{Node, NodeKind};

// A round of a loop, by what its paths begin with: where it ends, and where it leaves the loop.
#[derive(Drop)]
struct Round {
    on: Pairs,
    broken: Pairs,
}

fn changed_pair(marks: &Marks, n: &Node, bads: Pair) -> Result<Pair, NoMemory>
    requires { HaveOwnBits marks.now }
    ensures { IfOk result (λ p. (k : CodeMark) (i : ℕ) (v : Bool) → bit_of marks.now k ≡ Some i → pair_has p (i, v) ≡ not (node_marked (mark_view k) (node_view n.now) (not (pair_has bads (i, v))))) }
{
    let mut yes = bads.yes;
    let mut no = bads.no;
    marks.change(n, &mut yes)?;
    marks.change(n, &mut no)?;
    Ok(Pair { yes, no })
}

#[tactic(auto, using(crate::proofs::Bits::changed_state))]
fn changed(marks: &Marks, n: &Node, t: Pairs) -> Result<Pairs, NoMemory>
    requires { HaveOwnBits marks.now }
    ensures { IfOk result (λ u. (k : CodeMark) (i : ℕ) (v : Bool) → bit_of marks.now k ≡ Some i → state_at (i, v) (pairs_view u) ≡ after (λ (w : Bool). node_marked (mark_view k) (node_view n.now) w) (state_at (i, v) (pairs_view t))) }
{
    match t {
        Pairs::Nowhere => Ok(Pairs::Nowhere),
        Pairs::Bads(bads) => {
            let behind = changed_pair(marks, n, bads)?;
            Ok(Pairs::Bads(behind))
        }
    }
}

fn acted(marks: &Marks, n: &Node, ahead: PairWays) -> Result<PairWays, NoMemory>
    requires { HaveOwnBits marks.now }
    ensures { IfOk result (λ o. GoesOn marks.now (pair_ways_view ahead) (λ m t. at (after (λ (w : Bool). node_marked m (node_view n.now) w) t)) (pair_ways_view o)) }
{
    let PairWays { on, broken, next } = ahead;
    let behind = changed(marks, n, on)?;
    Ok(PairWays {
        on: behind,
        broken,
        next,
    })
}

// A node that holds no others, behind a row that control leaves so.
fn leaf(marks: &Marks, n: &Node, ahead: PairWays) -> Result<PairWays, NoMemory>
    requires { HaveOwnBits marks.now }
    ensures { IfOk result (λ o. GoesOn marks.now (pair_ways_view ahead) (λ m t. leaf m (node_view n.now) t) (pair_ways_view o)) }
{
    match &n.kind {
        NodeKind::If(..) => Ok(on_to(ahead, Pairs::Nowhere)),
        NodeKind::Loop(..) => Ok(on_to(ahead, Pairs::Nowhere)),
        NodeKind::Ret(_) => Ok(on_to(ahead, Pairs::Nowhere)),
        NodeKind::Break => Ok(by_break(ahead)),
        NodeKind::Next => Ok(by_next(ahead)),
        NodeKind::Set(..) | NodeKind::Call(_) | NodeKind::Step(_) | NodeKind::Look(..) => {
            acted(marks, n, ahead)
        }
        NodeKind::Safepoint(_) | NodeKind::Begin(_) | NodeKind::End(_) => acted(marks, n, ahead),
    }
}

// A round, by what the body and the step make of their starts.
fn rounded(alloc: Global, body: PairWays, step: PairWays) -> Result<Round, NoMemory>
    ensures on { IfOk result (λ r. (i : ℕ) (v : Bool) → state_at (i, v) (pairs_view r.on) ≡ join (led_by (pairs_view step.on) i (end_state (ways_at (i, v) (pair_ways_view body)))) (led_by (pairs_view step.next) i (end_state (ways_at (i, v) (pair_ways_view body))))) }
    ensures broken { IfOk result (λ r. (i : ℕ) (v : Bool) → state_at (i, v) (pairs_view r.broken) ≡ join (state_at (i, v) (pairs_view body.broken)) (led_by (pairs_view step.broken) i (end_state (ways_at (i, v) (pair_ways_view body))))) }
{
    let end = joined(body.on, body.next);
    let on = through(alloc, &step.on, &end)?;
    let next = through(alloc, &step.next, &end)?;
    let broken = through(alloc, &step.broken, &end)?;
    Ok(Round {
        on: joined(on, next),
        broken: joined(body.broken, broken),
    })
}

// What is behind a loop, from what is before it, what a round adds, and where rounds leave it.
fn looped(alloc: Global, t: &Pairs, adds: &[u64], broken: &Pairs) -> Result<Pairs, NoMemory>
    ensures { IfOk result (λ u. (i : ℕ) (v : Bool) → state_at (i, v) (pairs_view u) ≡ led_by (pairs_view broken.now) i (with_bad (has adds.now i) (state_at (i, v) (pairs_view t.now)))) }
{
    let head = with_added(alloc, t, adds)?;
    through(alloc, broken, &head)
}

/// What the rounds of the row's loops add, in the order in which the loops begin: a set for each.
///
/// # Errors
///
/// Only want of memory.
pub fn gather_each(alloc: Global, marks: &Marks, rows: &[Node]) -> Result<Vec<Vec<u64>>, NoMemory>
    requires { HaveOwnBits marks.now }
    ensures { IfOk result (λ sets. Gathers marks.now [] sets.items (nodes_view rows.now)) }
{
    let mut sets = Vec::new(alloc);
    let start = begun(alloc, marks.count)?;
    gather_row(alloc, marks, rows, start, &mut sets)?;
    Ok(sets)
}

/// What the rounds of the row's loops add, in the order in which the loops begin.
///
/// # Errors
///
/// Only want of memory.
pub fn gather(alloc: Global, marks: &Marks, rows: &[Node]) -> Result<Vec<Vec<u64>>, NoMemory>
    requires { HaveOwnBits marks.now }
    ensures { IfOk result (λ sets. AreAdded marks.now sets.items 0 (nodes_view rows.now)) }
{
    let mut sets = Vec::new(alloc);
    let start = begun(alloc, marks.count)?;
    gather_row(alloc, marks, rows, start, &mut sets)?;
    Ok(sets)
}

// Where control leaves the row; and puts what the rounds of its loops add behind the sets.
#[cycle(gathers)]
fn gather_row(
    alloc: Global,
    marks: &Marks,
    rows: &[Node],
    before: Pairs,
    sets: &mut Vec<Vec<u64>>,
) -> Result<PairWays, NoMemory>
    requires { HaveOwnBits marks.now }
    ensures ways { IfOk result (λ o. FlowsFrom marks.now (pairs_view before) (nodes_view rows.now) (pair_ways_view o)) }
    ensures sets { OnOk result (Gathers marks.now sets.old.items sets.new.items (nodes_view rows.now)) }
{
    let mut ahead = PairWays {
        on: before,
        broken: Pairs::Nowhere,
        next: Pairs::Nowhere,
    };
    for n in rows {
        ahead = gather_node(alloc, marks, n, ahead, sets)?;
    }
    Ok(ahead)
}

// The same with a node behind a row that control leaves so.
#[cycle(gathers)]
fn gather_node(
    alloc: Global,
    marks: &Marks,
    n: &Node,
    ahead: PairWays,
    sets: &mut Vec<Vec<u64>>,
) -> Result<PairWays, NoMemory>
    requires { HaveOwnBits marks.now }
    ensures ways { IfOk result (λ o. GoesOn marks.now (pair_ways_view ahead) (λ m t. flow_node m (node_view n.now) t) (pair_ways_view o)) }
    ensures sets { OnOk result (GathersIn marks.now sets.old.items sets.new.items (node_view n.now)) }
{
    match &n.kind {
        NodeKind::If(_, one, other) => {
            let start = copied(alloc, &ahead.on)?;
            let first = gather_row(alloc, marks, one, start, sets)?;
            let again = copied(alloc, &ahead.on)?;
            let second = gather_row(alloc, marks, other, again, sets)?;
            Ok(one_behind(ahead, both_ways(first, second)))
        }
        NodeKind::Loop(body, step) => {
            let place = sets.len();
            sets.push(Vec::new(alloc))?;
            let start = begun(alloc, marks.count)?;
            let first = gather_row(alloc, marks, body, start, sets)?;
            let again = begun(alloc, marks.count)?;
            let second = gather_row(alloc, marks, step, again, sets)?;
            let round = rounded(alloc, first, second)?;
            let adds = added(alloc, round.on);
            let behind = looped(alloc, &ahead.on, &adds, &round.broken)?;
            sets[place] = adds;
            Ok(on_to(ahead, behind))
        }
        NodeKind::Set(..) | NodeKind::Call(_) | NodeKind::Step(_) | NodeKind::Look(..) => {
            leaf(marks, n, ahead)
        }
        NodeKind::Safepoint(_) | NodeKind::Begin(_) | NodeKind::End(_) => leaf(marks, n, ahead),
        NodeKind::Break | NodeKind::Next | NodeKind::Ret(_) => leaf(marks, n, ahead),
    }
}
