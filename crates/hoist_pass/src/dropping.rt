//! No Look where its register is held, for all registers in one walk.

ghost use Rattle.std.specs.Prelude.{◌≡◌, ◌≤◌, ◌+◌, ℕ, length, true, IfOk, OnOk};
ghost use Rattle.struct_ir.specs.Nodes.{Nodes};
ghost use Rattle.struct_ir.specs.Erased.{put};
ghost use Rattle.struct_ir.specs.Views.{node_view, nodes_view, followed};
ghost use Rattle.pin_flow.specs.Held.{held};
ghost use Rattle.pin_flow.specs.Marks.{flow};
ghost use Rattle.mark_sets.specs.Sets.{state_at};
ghost use Rattle.mark_sets.specs.Views.{sets_view, ways_view, HaveOwnBits};
ghost use Rattle.mark_sets.specs.Added.{loops, loops_in, AreAdded, AreAddedIn};
ghost use Rattle.hoist_pass.specs.inner.Hoist.{is_bad, node_stays, dropped_all, dropped_all_in};
ghost use Rattle.hoist_pass.specs.inner.Sets.{bit, has_bit, states, ways_by, GoesThrough, is_leaf};

use crate::acting::leaf;
use ak_words::NoMemory;
use mark_sets::marks::Marks;
use mark_sets::sets::{SetWays, Sets, all_on, both_ways, copied, joined, one_behind, with_added};
use mark_sets::words::contains;
use pin_flow::copies::{add, branches, node, rounds};
use std::alloc::Global;
use struct_ir::{Node, NodeKind};

/// A row without the Looks that aren't needed, and where control leaves it.
#[derive(Drop)]
pub struct Dropped {
    /// The row.
    pub rows: Vec<Node>,
    /// Where control leaves it.
    pub ways: SetWays,
}

// The same of a node, behind the row before it.
#[derive(Drop)]
struct Passed {
    node: Node,
    ways: SetWays,
}

// Whether a Look of this bit is needed: some path comes that doesn't hold its register.
fn is_due(i: usize, before: &Sets) -> bool
    ensures { result ≡ is_bad (state_at i (sets_view before.now)) }
{
    match before {
        Sets::Nowhere => false,
        Sets::Bads(bads) => contains(bads, i),
    }
}

// Whether the node stays: it is no Look of a register with a bit, or it is needed.
fn stays(marks: &Marks, n: &Node, before: &Sets) -> bool
    ensures { result ≡ node_stays (has_bit marks.now) (node_view n.now) (states marks.now (sets_view before.now)) }
{
    match &n.kind {
        NodeKind::Look(_, b) => match marks.bit(*b) {
            Some(i) => is_due(i, before),
            None => true,
        },
        _ => true,
    }
}

// Puts the node there, if it stays.
fn add_if(kept: bool, out: &mut Vec<Node>, n: Node) -> Result<(), NoMemory>
    ensures { OnOk result ((rest : Nodes) → followed out.new.items rest ≡ followed out.old.items (put kept (node_view n) rest)) }
{
    if kept { add(out, n) } else { Ok(()) }
}

// A node that holds no others.
fn drop_leaf(marks: &Marks, n: Node, ahead: SetWays) -> Result<Passed, NoMemory>
    requires own { HaveOwnBits marks.now }
    requires leaf { is_leaf (node_view n) ≡ true }
    ensures none { IfOk result (λ p. loops_in (node_view n) ≡ 0) }
    ensures ways { IfOk result (λ p. GoesThrough marks.now (ways_view ahead) (node_view n) (ways_view p.ways)) }
    ensures node { IfOk result (λ p. node_view p.node ≡ dropped_all_in (has_bit marks.now) (node_view n) (states marks.now (sets_view ahead.on))) }
{
    let ways = leaf(marks, &n, ahead)?;
    Ok(Passed { node: n, ways })
}

/// Takes from the row the Looks that stand where their register is held, or where no path comes.
/// The sets from this number on say what the rounds of its loops add.
///
/// # Errors
///
/// Only want of memory.
#[cycle(drops)]
pub fn drop_row(
    alloc: Global,
    marks: &Marks,
    sets: &[Vec<u64>],
    next: &mut usize,
    rows: Vec<Node>,
    before: Sets,
) -> Result<Dropped, NoMemory>
    requires own { HaveOwnBits marks.now }
    requires within { next.old + loops (nodes_view rows.items) ≤ length sets.now }
    requires added { AreAdded marks.now sets.now next.old (nodes_view rows.items) }
    ensures next { OnOk result (next.new ≡ next.old + loops (nodes_view rows.items)) }
    ensures ways { IfOk result (λ d. (b : ℕ) → ways_by (bit marks.now b) (ways_view d.ways) ≡ flow (held b) (nodes_view rows.items) (states marks.now (sets_view before) b)) }
    ensures rows { IfOk result (λ d. nodes_view d.rows.items ≡ dropped_all (has_bit marks.now) (nodes_view rows.items) (states marks.now (sets_view before))) }
{
    let mut out = Vec::with_capacity(alloc, rows.len())?;
    let mut ahead = all_on(before);
    for n in rows {
        let kept = stays(marks, &n, &ahead.on);
        let passed = drop_node(alloc, marks, sets, next, n, ahead)?;
        add_if(kept, &mut out, passed.node)?;
        ahead = passed.ways;
    }
    Ok(Dropped {
        rows: out,
        ways: ahead,
    })
}

// The same within a node behind a row that control leaves so.
#[cycle(drops)]
fn drop_node(
    alloc: Global,
    marks: &Marks,
    sets: &[Vec<u64>],
    next: &mut usize,
    n: Node,
    ahead: SetWays,
) -> Result<Passed, NoMemory>
    requires own { HaveOwnBits marks.now }
    requires within { next.old + loops_in (node_view n) ≤ length sets.now }
    requires added { AreAddedIn marks.now sets.now next.old (node_view n) }
    ensures next { OnOk result (next.new ≡ next.old + loops_in (node_view n)) }
    ensures ways { IfOk result (λ p. GoesThrough marks.now (ways_view ahead) (node_view n) (ways_view p.ways)) }
    ensures node { IfOk result (λ p. node_view p.node ≡ dropped_all_in (has_bit marks.now) (node_view n) (states marks.now (sets_view ahead.on))) }
{
    let Node { place, kind } = n;
    match kind {
        NodeKind::If(temp, one, other) => {
            let start = copied(alloc, &ahead.on)?;
            let first = drop_row(alloc, marks, sets, next, one, start)?;
            let again = copied(alloc, &ahead.on)?;
            let second = drop_row(alloc, marks, sets, next, other, again)?;
            let node = branches(place, temp, first.rows, second.rows);
            let ways = one_behind(ahead, both_ways(first.ways, second.ways));
            Ok(Passed { node, ways })
        }
        NodeKind::Loop(body, step) => {
            let start = copied(alloc, &ahead.on)?;
            let head = with_added(alloc, start, &sets[*next])?;
            *next += 1;
            let Dropped { rows: first, ways } = drop_row(alloc, marks, sets, next, body, head)?;
            let SetWays {
                on,
                broken,
                next: to_step,
            } = ways;
            let end = joined(on, to_step);
            let Dropped { rows: second, ways } = drop_row(alloc, marks, sets, next, step, end)?;
            let behind = all_on(joined(broken, ways.broken));
            let node = rounds(place, first, second);
            let ways = one_behind(ahead, behind);
            Ok(Passed { node, ways })
        }
        other => drop_leaf(marks, node(place, other), ahead),
    }
}
