//! Registers that have slots, and sets of their slots.

ghost use Rattle.std.specs.Prelude.{◌≡◌, ◌==◌, ◌<◌, ◌^◌, ℕ, Some, true, false, length, IfOk};
ghost use Rattle.struct_ir.specs.Views.{node_view};
ghost use Rattle.pin_flow.specs.Looks.{is_to};
ghost use Rattle.pin_flow.specs.Slots.{slot_if};
ghost use Rattle.mark_sets.specs.Words.{has};
ghost use Rattle.mark_sets.specs.Homes.{AreOnce, AreHomes, node_keeps};

use crate::marks::{Marks, held_marks};
use crate::words::contains;
use ak_words::NoMemory;
use std::alloc::Global;
use struct_ir::{Node, NodeKind};

/// The registers that have slots, in the order of their slots, and the slot of each by its number.
#[derive(Drop)]
pub struct Homes {
    /// The registers.
    pub bases: Vec<u32>,
    /// Which bit of a set, and so which slot, is whose.
    pub marks: Marks,
}

/// The registers with their slots: each one's slot is its place among them.
///
/// # Errors
///
/// Only want of memory.
pub fn homes_of(alloc: Global, bases: Vec<u32>) -> Result<Homes, NoMemory>
    requires few { length bases.items < 2 ^ 32 }
    requires once { AreOnce bases.items }
    ensures those { IfOk result (λ x. x.bases.items ≡ bases.items) }
    ensures homes { IfOk result AreHomes }
{
    let marks = held_marks(alloc, &bases)?;
    Ok(Homes { bases, marks })
}

/// Whether the slot is the register's.
pub fn is_home(homes: &Homes, slot: u32, b: u32) -> bool
    ensures { (c : ℕ) → slot_if homes.now.bases.items c ≡ Some slot → result ≡ (b == c) }
{
    let at = slot as usize;
    if at < homes.bases.len() {
        b == homes.bases[at]
    } else {
        false
    }
}

// Whether the register's slot is not in the set.
fn is_unused(homes: &Homes, b: u32, set: &[u64]) -> bool
    requires { AreHomes homes.now }
    ensures { result ≡ true → (c i : ℕ) → slot_if homes.now.bases.items c ≡ Some i → has set.now i ≡ true → (c == b) ≡ false }
{
    match homes.marks.bit(b) {
        Some(i) => !contains(set, i),
        None => true,
    }
}

fn is_unused_if(homes: &Homes, to: Option<u32>, set: &[u64]) -> bool
    requires { AreHomes homes.now }
    ensures { result ≡ true → (c i : ℕ) → slot_if homes.now.bases.items c ≡ Some i → has set.now i ≡ true → is_to c to ≡ false }
{
    match to {
        Some(b) => is_unused(homes, b, set),
        None => true,
    }
}

fn looks_home(homes: &Homes, slot: u32, b: u32, set: &[u64]) -> bool
    ensures { result ≡ true → (c : ℕ) → slot_if homes.now.bases.items c ≡ Some slot → has set.now slot ≡ true → (b == c) ≡ true }
{
    !contains(set, slot as usize) || is_home(homes, slot, b)
}

/// Whether the act keeps the registers whose slots are in the set: it assigns none of them, and looks
/// into none of the slots for another.
pub fn keeps(homes: &Homes, n: &Node, set: &[u64]) -> bool
    requires { AreHomes homes.now }
    ensures { result ≡ true → (b i : ℕ) → slot_if homes.now.bases.items b ≡ Some i → has set.now i ≡ true → node_keeps i b (node_view n.now) ≡ true }
{
    match &n.kind {
        NodeKind::Set(to, _) => is_unused(homes, *to, set),
        NodeKind::Call(c) => is_unused_if(homes, c.to, set),
        NodeKind::Step(s) => is_unused_if(homes, s.to, set),
        NodeKind::Look(slot, b) => looks_home(homes, *slot, *b, set),
        _ => true,
    }
}
