//! One pin slot for each register that is the base of an access.

ghost use Rattle.std.specs.Prelude.{◌≡◌, ◌==◌, ◌<◌, ◌≤◌, ◌^◌, ℕ, length, map, IfOk};
ghost use Rattle.struct_ir.specs.Views.{place_view, node_view, nodes_view, func_view};
ghost use Rattle.pin_flow.specs.Looks.{some_act, some_in};
ghost use Rattle.pin_flow.specs.Slots.{has_base, accesses, bases_of, slot_if};
ghost use Rattle.pin_flow.specs.inner.Marked.{is_marked, IsMarked};

use ak_words::NoMemory;
use std::alloc::Global;
use struct_ir::{IrFunc, Node, NodeKind, Place};

// Marks a register, if there is one of this number.
fn mark_base(b: u32, seen: &mut Vec<bool>)
    ensures { IsMarked seen.old.items seen.new.items (λ c. b == c) }
{
    let at = b as usize;
    if at < seen.len() {
        seen[at] = true;
    }
}

fn mark_places(places: &[Place], seen: &mut Vec<bool>)
    ensures { IsMarked seen.old.items seen.new.items (λ b. has_base b (map place_view places.now)) }
{
    for a in places {
        mark_base(a.base, seen);
    }
}

// Marks the registers that are the base of an access in the row.
#[cycle(marks)]
fn mark_row(rows: &[Node], seen: &mut Vec<bool>)
    ensures { IsMarked seen.old.items seen.new.items (λ b. some_act (accesses b) (nodes_view rows.now)) }
{
    for n in rows {
        mark_node(n, seen);
    }
}

#[cycle(marks)]
fn mark_node(n: &Node, seen: &mut Vec<bool>)
    ensures { IsMarked seen.old.items seen.new.items (λ b. some_in (accesses b) (node_view n.now)) }
{
    match &n.kind {
        NodeKind::If(_, one, other) => {
            mark_row(one, seen);
            mark_row(other, seen);
        }
        NodeKind::Loop(body, step) => {
            mark_row(body, seen);
            mark_row(step, seen);
        }
        NodeKind::Step(s) => mark_places(&s.places, seen),
        NodeKind::Set(..) | NodeKind::Call(_) | NodeKind::Look(..) => {}
        NodeKind::Safepoint(_) | NodeKind::Begin(_) | NodeKind::End(_) => {}
        NodeKind::Break | NodeKind::Next | NodeKind::Ret(_) => {}
    }
}

// Which registers are the base of an access, by their numbers.
fn bases_seen(alloc: Global, f: &IrFunc) -> Result<Vec<bool>, NoMemory>
    ensures long { IfOk result (λ v. length v.items ≡ f.now.temps) }
    ensures each { IfOk result (λ v. (b : ℕ) → b < f.now.temps → is_marked v.items b ≡ some_act (accesses b) (nodes_view f.now.nodes.items)) }
{
    let mut seen = vec![in alloc; false; f.temps as usize]?;
    mark_row(&f.nodes, &mut seen);
    Ok(seen)
}

/// The registers of the function that are the base of an access, in order.
///
/// # Errors
///
/// Only want of memory.
pub fn bases_of(alloc: Global, f: &IrFunc) -> Result<Vec<u32>, NoMemory>
    ensures those { IfOk result (λ v. v.items ≡ bases_of (func_view f.now)) }
    ensures few { IfOk result (λ v. length v.items ≤ f.now.temps) }
{
    let seen = bases_seen(alloc, f)?;
    let mut bases = Vec::new(alloc);
    for b in 0..f.temps {
        if seen[b as usize] {
            bases.push(b)?;
        }
    }
    Ok(bases)
}

/// The slot of a register: its number among the bases. None exactly where it is none of them.
pub fn slot_of(bases: &[u32], b: u32) -> Option<u32>
    requires { length bases.now < 2 ^ 32 }
    ensures { result ≡ slot_if bases.now b }
{
    let mut slot = 0;
    for c in bases {
        if b == *c {
            return Some(slot);
        }
        slot += 1;
    }
    None
}
