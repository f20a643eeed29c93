//! The pairs of slot and base that accesses have.

ghost use Rattle.std.specs.Prelude.{◌≡◌, map, OnOk};
ghost use Rattle.struct_ir.specs.Views.{place_view, node_view, nodes_view};
ghost use Rattle.pin_checker.specs.inner.Reports.{is_pair, has_pair, with_pair, with_slot, with_places, pairs_of, pairs_in};

use ak_words::NoMemory;
use struct_ir::{Node, NodeKind, Place};

/// A pin slot, and the register that is looked up in it.
#[derive(Clone, Copy, Debug, PartialEq, Eq)]
pub struct Pair {
    pub slot: u32,
    pub base: u32,
}

fn is_pair(q: Pair, r: Pair) -> bool
    ensures { result ≡ is_pair q r }
{
    q.slot == r.slot && q.base == r.base
}

fn has_pair(q: Pair, list: &[Pair]) -> bool
    ensures { result ≡ has_pair q list.now }
{
    for r in list {
        if is_pair(*r, q) {
            return true;
        }
    }
    false
}

fn add_pair(q: Pair, list: &mut Vec<Pair>) -> Result<(), NoMemory>
    ensures { OnOk result (list.new.items ≡ with_pair q list.old.items) }
{
    if !has_pair(q, list) {
        list.push(q)?;
    }
    Ok(())
}

fn add_slot(base: u32, slot: Option<u32>, list: &mut Vec<Pair>) -> Result<(), NoMemory>
    ensures { OnOk result (list.new.items ≡ with_slot base slot list.old.items) }
{
    match slot {
        Some(slot) => add_pair(Pair { slot, base }, list),
        None => Ok(()),
    }
}

fn add_places(places: &[Place], list: &mut Vec<Pair>) -> Result<(), NoMemory>
    ensures { OnOk result (list.new.items ≡ with_places (map place_view places.now) list.old.items) }
{
    for a in places {
        add_slot(a.base, a.slot, list)?;
    }
    Ok(())
}

/// Adds the pairs of the nodes' accesses, each once.
#[cycle(pairs)]
#[tactic(auto, unfolding(crate::specs::inner::Reports::pairs_of))]
pub fn add_pairs(nodes: &[Node], list: &mut Vec<Pair>) -> Result<(), NoMemory>
    ensures { OnOk result (list.new.items ≡ pairs_of (nodes_view nodes.now) list.old.items) }
{
    for n in nodes {
        add_pairs_in(n, list)?;
    }
    Ok(())
}

#[cycle(pairs)]
#[tactic(auto, unfolding(crate::specs::inner::Reports::pairs_in))]
fn add_pairs_in(n: &Node, list: &mut Vec<Pair>) -> Result<(), NoMemory>
    ensures { OnOk result (list.new.items ≡ pairs_in (node_view n.now) list.old.items) }
{
    match &n.kind {
        NodeKind::If(_, one, other) => {
            add_pairs(one, list)?;
            add_pairs(other, list)?;
        }
        NodeKind::Loop(body, step) => {
            add_pairs(body, list)?;
            add_pairs(step, list)?;
        }
        NodeKind::Step(s) => add_places(&s.places, list)?,
        _ => {}
    }
    Ok(())
}
