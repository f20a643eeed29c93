ghost use Rattle.std.specs.Prelude.{◌≡◌, ℕ, ◌<◌, ◌≤◌, ◌↔◌, Option, Some, None, List, replicate, slice_set, IsTrue, IsSome, IsNone, IfSome, IfNone, IfOk};
ghost use Rattle.handle_table.specs.Table.{IsFull, IsInUse, IsLeastFree, IsSound, address_of, translated};

use ak_words::NoMemory;
use handle_words::{id, is_handle, offset};
use std::alloc::Global;
use std::cmp::Reverse;
use std::collections::BinaryHeap;
use std::marker::Model;

/// The ids from 0 on, and the address of each one that is in use.
#[derive(Debug, Drop)]
pub struct Table {
    ids: u32,
    // Of the ids that were in use before or are now: the lowest ones.
    addresses: Vec<Option<u64>>,
    // Those of them that were given back.
    given: BinaryHeap<Reverse<u32>>,
}

// Clauses see the entries of all ids.
impl Model for Table {
    ghost use Rattle.std.specs.Prelude.{ℕ, List, Option};
    ghost use Rattle.std.specs.Vec.{vec_capacity};
    ghost use Rattle.std.specs.BinaryHeap.{heap_items, heap_len, heap_capacity};
    ghost use Rattle.handle_table.specs.inner.Kept.{table_of, IsKept};

    ghost Value = { List (Option ℕ) };

    ghost view = { λ t. table_of t.ids t.addresses.items };

    ghost invariant = { λ t. IsKept t.ids t.addresses.items (heap_items t.given) (heap_len t.given) (vec_capacity t.addresses) (heap_capacity t.given) };
}

impl Table {
    /// Makes a table of the ids 0 to `n - 1`, none of them in use.
    pub fn new(alloc: Global, n: u32) -> Result<Table, NoMemory>
        requires some { 1 ≤ n }
        requires bound { n ≤ 1048576 }
        ensures made { IfOk result (λ t. t ≡ replicate n None) }
        ensures sound { IfOk result IsSound }
    {
        let addresses = Vec::with_capacity(alloc, n as usize)?;
        let given = BinaryHeap::with_capacity(alloc, n as usize)?;
        Ok(Table {
            ids: n,
            addresses,
            given,
        })
    }

    /// Marks the least free id as in use, with address 0, and gives it; none where all are in use.
    pub fn take(&mut self) -> Option<u32>
        ensures least { IfSome result (IsLeastFree self.old) }
        ensures taken { IfSome result (λ id. self.new ≡ slice_set self.old id (Some 0)) }
        ensures none { IsNone result ↔ IsFull self.old }
        ensures unchanged { IfNone result (self.new ≡ self.old) }
        ensures sound { IsSound self.new }
    {
        // The ids that were given back are lower than those that never were in use.
        if let Some(Reverse(id)) = self.given.pop() {
            self.addresses[id as usize] = Some(0);
            return Some(id);
        }
        let id = self.addresses.len() as u32;
        if id == self.ids {
            return None;
        }
        self.addresses.push_reserved(Some(0));
        Some(id)
    }

    /// Sets the address of an id in use.
    pub fn set(&mut self, id: u32, at: u64)
        requires { IsInUse self.old id }
        ensures set { self.new ≡ slice_set self.old id (Some at) }
        ensures sound { IsSound self.new }
    {
        self.addresses[id as usize] = Some(at);
    }

    /// Frees an id in use.
    pub fn give(&mut self, id: u32)
        requires { IsInUse self.old id }
        ensures given { self.new ≡ slice_set self.old id None }
        ensures sound { IsSound self.new }
    {
        self.addresses[id as usize] = None;
        match self.given.push(Reverse(id)) {
            Ok(()) => {}
            Err(_) => unreachable!(),
        }
    }

    /// Whether an id is in use.
    pub fn in_use(&self, id: u32) -> bool
        ensures answer { IsTrue result ↔ IsInUse self.now id }
        ensures sound { IsSound self.now }
    {
        self.address(id).is_some()
    }

    /// Translates a word. A plain address stays as it is; a handle whose id is in use becomes the id's
    /// address plus the offset, modulo 2^64; any other handle becomes 0 (this project's profile).
    pub fn look(&self, w: u64) -> u64
        ensures { result ≡ translated self.now w }
    {
        if !is_handle(w) {
            return w;
        }
        match self.address(id(w)) {
            Some(at) => at.wrapping_add(u64::from(offset(w))),
            None => 0,
        }
    }

    // The address of an id, if it is in use.
    fn address(&self, id: u32) -> Option<u64>
        ensures address { result ≡ address_of self.now id }
        ensures sound { IsSound self.now }
    {
        self.addresses.get(id as usize).copied().flatten()
    }
}
