//! What is used at the start of each round, of all loops of a row. Each node is gone through once, from behind.

ghost use Rattle.std.specs.Prelude.{◌≡◌, ◌<◌, ◌+◌, ◌||◌, ◌&&◌, ℕ, length, Bool, not, false, IfOk, OnOk};
ghost use Rattle.struct_ir.specs.Views.{node_view, nodes_view};
ghost use Rattle.pin_flow.specs.Live.{uses, live, live_node, head_live};
ghost use Rattle.pin_flow.specs.Views.{act_is, looks_slot};
ghost use Rattle.mark_sets.specs.Added.{loops};
ghost use Rattle.mark_sets.specs.Words.{has};
ghost use Rattle.mark_sets.specs.Heads.{later_in, head_at, TellsBy, lives_by, AreHeads, HasHeads, HasHeadsIn, HasHeadsWithin};

use crate::homes::Homes;
use crate::used::used_act;
use crate::words::{chosen, full, united};
use ak_words::NoMemory;
use std::alloc::Global;
use struct_ir::{Node, NodeKind};

/// The slots that are used later, by what is used behind the loop around.
#[derive(Drop)]
pub struct Later {
    /// Where none is used there.
    pub none: Vec<u64>,
    /// Where each is used there.
    pub all: Vec<u64>,
}

/// The registers of some code, and what is used at the start of the rounds of its loops.
#[derive(Drop)]
pub struct Outline {
    /// The registers.
    pub homes: Homes,
    /// Of each loop, in the order in which a walk from behind comes to them.
    pub heads: Vec<Later>,
}

fn nothing(alloc: Global) -> Later
    ensures { (all : Bool) (i : ℕ) → later_in result all i ≡ false }
{
    Later {
        none: Vec::new(alloc),
        all: Vec::new(alloc),
    }
}

// What is used behind a loop, by just that.
fn behind(alloc: Global, count: usize) -> Result<Later, NoMemory>
    ensures { IfOk result (λ l. (all : Bool) (i : ℕ) → i < count → later_in l all i ≡ all) }
{
    let none = Vec::new(alloc);
    let all = full(alloc, count)?;
    Ok(Later { none, all })
}

fn copied(alloc: Global, l: &Later) -> Result<Later, NoMemory>
    ensures { IfOk result (λ c. (all : Bool) (i : ℕ) → later_in c all i ≡ later_in l.now all i) }
{
    let none = l.none.to_vec(alloc)?;
    let all = l.all.to_vec(alloc)?;
    Ok(Later { none, all })
}

// What one or the other says.
fn either(a: Later, b: Later) -> Later
    ensures { (all : Bool) (i : ℕ) → later_in result all i ≡ (later_in a all i || later_in b all i) }
{
    Later {
        none: united(a.none, b.none),
        all: united(a.all, b.all),
    }
}

fn acted(homes: &Homes, n: &Node, on: Later) -> Result<Later, NoMemory>
    ensures { IfOk result (λ l. TellsBy homes.now.bases.items l (λ i b all. act_is (uses i b) (node_view n.now) || (not (looks_slot i (node_view n.now)) && later_in on all i))) }
{
    let none = used_act(homes, n, on.none)?;
    let all = used_act(homes, n, on.all)?;
    Ok(Later { none, all })
}

// What is used at the start of a loop's rounds, where this set is used behind the loop.
fn before_loop(alloc: Global, head: &Later, on: &[u64]) -> Result<Vec<u64>, NoMemory>
    ensures { IfOk result (λ s. (i : ℕ) → has s.items i ≡ later_in head.now (has on.now i) i) }
{
    chosen(alloc, on, &head.none, &head.all)
}

// The same where what is used behind the loop is known by what is used behind the loop around it.
fn before_inner(alloc: Global, head: &Later, on: &Later) -> Result<Later, NoMemory>
    ensures { IfOk result (λ l. (all : Bool) (i : ℕ) → later_in l all i ≡ later_in head.now (later_in on.now all i) i) }
{
    let none = before_loop(alloc, head, &on.none)?;
    let all = before_loop(alloc, head, &on.all)?;
    Ok(Later { none, all })
}

/// The registers, and what is used at the start of the rounds of each loop of the row, in the order in
/// which a walk from behind comes to the loops: to a loop before its step, and to its step before its
/// body.
///
/// # Errors
///
/// Only want of memory.
pub fn outline_of(alloc: Global, homes: Homes, rows: &[Node]) -> Result<Outline, NoMemory>
    ensures homes { IfOk result (λ o. o.homes ≡ homes) }
    ensures count { IfOk result (λ o. length o.heads.items ≡ loops (nodes_view rows.now)) }
    ensures heads { IfOk result (λ o. AreHeads homes.bases.items o.heads.items 0 (nodes_view rows.now)) }
{
    let mut heads = Vec::new(alloc);
    let out = nothing(alloc);
    let end = nothing(alloc);
    heads_row(alloc, &homes, rows, nothing(alloc), &out, &end, &mut heads)?;
    Ok(Outline { homes, heads })
}

/// What is used at the start of the next loop's rounds, where this set is used behind the loop.
///
/// # Errors
///
/// Only want of memory.
pub fn next_head(
    alloc: Global,
    outline: &Outline,
    next: &mut usize,
    on: &[u64],
) -> Result<Vec<u64>, NoMemory>
    requires { next.old < length outline.now.heads.items }
    ensures next { OnOk result (next.new ≡ next.old + 1) }
    ensures head { IfOk result (λ s. (i : ℕ) → has s.items i ≡ head_at outline.now.heads.items next.old (has on.now i) i) }
{
    let head = before_loop(alloc, &outline.heads[*next], on)?;
    *next += 1;
    Ok(head)
}

// What is used at the start of the row; and puts its loops' heads behind those that are there.
#[cycle(heads)]
fn heads_row(
    alloc: Global,
    homes: &Homes,
    rows: &[Node],
    on: Later,
    out: &Later,
    end: &Later,
    heads: &mut Vec<Later>,
) -> Result<Later, NoMemory>
    ensures used { IfOk result (λ l. TellsBy homes.now.bases.items l (λ i b all. live i b (nodes_view rows.now) (lives_by on out.now end.now i all))) }
    ensures heads { OnOk result (HasHeads homes.now.bases.items heads.old.items heads.new.items (nodes_view rows.now)) }
{
    let mut left = rows;
    let mut used = on;
    'row: while let [front @ .., n] = left {
        used = heads_node(alloc, homes, n, used, out, end, heads)?;
        left = front;
    }
    Ok(used)
}

// The same of a node.
#[cycle(heads)]
fn heads_node(
    alloc: Global,
    homes: &Homes,
    n: &Node,
    on: Later,
    out: &Later,
    end: &Later,
    heads: &mut Vec<Later>,
) -> Result<Later, NoMemory>
    ensures used { IfOk result (λ l. TellsBy homes.now.bases.items l (λ i b all. live_node i b (node_view n.now) (lives_by on out.now end.now i all))) }
    ensures heads { OnOk result (HasHeadsIn homes.now.bases.items heads.old.items heads.new.items (node_view n.now)) }
{
    match &n.kind {
        NodeKind::If(_, one, other) => {
            let start = copied(alloc, &on)?;
            let first = heads_row(alloc, homes, one, start, out, end, heads)?;
            let second = heads_row(alloc, homes, other, on, out, end, heads)?;
            Ok(either(first, second))
        }
        NodeKind::Loop(body, step) => {
            let place = heads.len();
            heads.push(nothing(alloc))?;
            let head = heads_loop(alloc, homes, body, step, heads)?;
            let before = before_inner(alloc, &head, &on)?;
            heads[place] = head;
            Ok(before)
        }
        NodeKind::Set(..) | NodeKind::Call(_) | NodeKind::Step(_) | NodeKind::Look(..) => {
            acted(homes, n, on)
        }
        NodeKind::Safepoint(_) | NodeKind::Begin(_) | NodeKind::End(_) => acted(homes, n, on),
        NodeKind::Break => copied(alloc, out),
        NodeKind::Next => copied(alloc, end),
        NodeKind::Ret(_) => Ok(nothing(alloc)),
    }
}

// What is used at the start of a loop's rounds; and puts the heads of the loops in it behind those
// that are there, the step's first.
#[cycle(heads)]
fn heads_loop(
    alloc: Global,
    homes: &Homes,
    body: &[Node],
    step: &[Node],
    heads: &mut Vec<Later>,
) -> Result<Later, NoMemory>
    ensures used { IfOk result (λ l. TellsBy homes.now.bases.items l (λ i b all. head_live i b (nodes_view body.now) (nodes_view step.now) all)) }
    ensures heads { OnOk result (HasHeadsWithin homes.now.bases.items heads.old.items heads.new.items (nodes_view body.now) (nodes_view step.now)) }
{
    let out = behind(alloc, homes.bases.len())?;
    let end = nothing(alloc);
    let latch = heads_row(alloc, homes, step, nothing(alloc), &out, &end, heads)?;
    let start = copied(alloc, &latch)?;
    heads_row(alloc, homes, body, start, &out, &latch, heads)
}
