//! Which bit of a set is whose, and what an act makes of the bits.

ghost use Rattle.std.specs.Prelude.{◌≡◌, ◌==◌, ◌<◌, ◌||◌, ◌&&◌, ℕ, length, Some, None, not, if◌then◌else◌, IfOk, OnOk, get_or};
ghost use Rattle.struct_ir.specs.Views.{node_view};
ghost use Rattle.pin_flow.specs.Slots.{slot_if};
ghost use Rattle.pin_flow.specs.Views.{mark_view, node_marked};
ghost use Rattle.pin_flow.specs.declared.mark.Mark.{Mark as CodeMark};
ghost use Rattle.pin_flow.specs.declared.mark.Mark.TheVariants as kinds;
ghost use Rattle.mark_sets.specs.Words.{has};
ghost use Rattle.pin_flow.specs.Looks.{is_to};
ghost use Rattle.mark_sets.specs.Views.{bit_of, HaveOwnBits, first_of};

use crate::words::{insert, remove};
use ak_words::NoMemory;
use std::alloc::Global;
use struct_ir::{Node, NodeKind};

/// The bits of marks.
#[derive(Drop)]
pub struct Marks {
    /// The bit that says whether a register is held, by its number; of some registers none.
    pub held: Vec<Option<usize>>,
    /// Above all bits.
    pub count: usize,
}

// Makes room for the register.
fn widen(held: &mut Vec<Option<usize>>, b: u32) -> Result<(), NoMemory>
    ensures wide { OnOk result (b < length held.new.items) }
    ensures same { OnOk result ((c : ℕ) → get_or held.new.items c None ≡ get_or held.old.items c None) }
{
    'room: for k in held.len()..b as usize + 1 {
        held.push(None)?;
    }
    Ok(())
}

// Puts the bit there, unless there is one.
fn place_at(held: &mut Vec<Option<usize>>, at: usize, i: usize)
    requires { at < length held.old.items }
    ensures { (c : ℕ) → get_or held.new.items c None ≡ first_of (get_or held.old.items c None) (if c == at then Some i else None) }
{
    if held[at].is_none() {
        held[at] = Some(i);
    }
}

// Gives the register this bit, unless it has one.
fn give(held: &mut Vec<Option<usize>>, b: u32, i: usize) -> Result<(), NoMemory>
    ensures { OnOk result ((c : ℕ) → get_or held.new.items c None ≡ first_of (get_or held.old.items c None) (if c == b then Some i else None)) }
{
    widen(held, b)?;
    place_at(held, b as usize, i);
    Ok(())
}

// The registers' places among these.
fn places(alloc: Global, bases: &[u32]) -> Result<Vec<Option<usize>>, NoMemory>
    ensures { IfOk result (λ v. (b : ℕ) → get_or v.items b None ≡ slot_if bases.now b) }
{
    let mut held = Vec::new(alloc);
    'bases: for i in 0..bases.len() {
        give(&mut held, bases[i], i)?;
    }
    Ok(held)
}

/// Of each of these registers whether it is held: its bit is its place among them.
///
/// # Errors
///
/// Only want of memory.
pub fn held_marks(alloc: Global, bases: &[u32]) -> Result<Marks, NoMemory>
    ensures bits { IfOk result (λ x. (b : ℕ) → bit_of x (kinds.Held b) ≡ slot_if bases.now b) }
    ensures own { IfOk result HaveOwnBits }
{
    let held = places(alloc, bases)?;
    Ok(Marks {
        held,
        count: bases.len(),
    })
}

impl Marks {
    /// The bit that says whether the register is held.
    pub fn bit(&self, b: u32) -> Option<usize>
        ensures { result ≡ bit_of self.now (kinds.Held b) }
    {
        let at = b as usize;
        if at < self.held.len() {
            self.held[at]
        } else {
            None
        }
    }

    fn look(&self, b: u32, set: &mut Vec<u64>)
        requires { HaveOwnBits self.now }
        ensures { (c i : ℕ) → bit_of self.now (kinds.Held c) ≡ Some i → has set.new.items i ≡ (not (b == c) && has set.old.items i) }
    {
        match self.bit(b) {
            Some(j) => remove(set, j),
            None => {}
        }
    }

    fn assign(&self, b: u32, set: &mut Vec<u64>) -> Result<(), NoMemory>
        requires { HaveOwnBits self.now }
        ensures { OnOk result ((c i : ℕ) → bit_of self.now (kinds.Held c) ≡ Some i → has set.new.items i ≡ ((c == b) || has set.old.items i)) }
    {
        match self.bit(b) {
            Some(j) => insert(set, j),
            None => Ok(()),
        }
    }

    fn assign_if(&self, to: Option<u32>, set: &mut Vec<u64>) -> Result<(), NoMemory>
        requires { HaveOwnBits self.now }
        ensures { OnOk result ((c i : ℕ) → bit_of self.now (kinds.Held c) ≡ Some i → has set.new.items i ≡ (is_to c to || has set.old.items i)) }
    {
        match to {
            Some(b) => self.assign(b, set),
            None => Ok(()),
        }
    }

    /// The set behind the node, from the set before it.
    ///
    /// # Errors
    ///
    /// Only want of memory.
    pub fn change(&self, n: &Node, set: &mut Vec<u64>) -> Result<(), NoMemory>
        requires { HaveOwnBits self.now }
        ensures { OnOk result ((k : CodeMark) (i : ℕ) → bit_of self.now k ≡ Some i → has set.new.items i ≡ not (node_marked (mark_view k) (node_view n.now) (not (has set.old.items i)))) }
    {
        match &n.kind {
            NodeKind::Look(_, b) => {
                self.look(*b, set);
                Ok(())
            }
            NodeKind::Set(to, _) => self.assign(*to, set),
            NodeKind::Call(c) => self.assign_if(c.to, set),
            NodeKind::Step(s) => self.assign_if(s.to, set),
            _ => Ok(()),
        }
    }
}
