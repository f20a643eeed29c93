//! A list of entries with a limit.
ghost use Rattle.std.specs.Prelude.{◌≡◌, ◌+◌, ◌^◌, ◌<◌, ◌++◌, [], ◌∷◌, length, IfOk, slice_get};

use crate::entry::Entry;
use ak_words::NoMemory;
use std::alloc::Global;
use std::marker::Model;

/// The entries of a run so far, in memory that was reserved for all that it may have. Contracts see the list, and beside it the limit.
#[derive(Debug, Drop)]
pub struct Journal {
    entries: Vec<Entry>,
    limit: u32,
}

impl Model for Journal {
    ghost use Rattle.std.specs.Prelude.{◌<◌, ◌≤◌, ◌^◌, vec_len, vec_capacity};
    ghost use Rattle.ak_trace.specs.Log.{Log};

    ghost Value = { Log };

    ghost view = { λ j. record { entries = j.entries.items; limit = j.limit } };

    ghost invariant = { λ j. (vec_len j.entries ≤ j.limit) × (j.limit ≤ vec_capacity j.entries) × (j.limit < 2 ^ 32) };
}

impl Journal {
    /// An empty journal that may have `n` entries, all of whose memory is reserved.
    pub fn with_limit(alloc: Global, n: u32) -> Result<Journal, NoMemory>
        ensures { IfOk result (λ j. j ≡ record { entries = []; limit = n }) }
    {
        let entries = Vec::with_capacity(alloc, n as usize)?;
        Ok(Journal { entries, limit: n })
    }

    /// Adds an entry at the end.
    pub fn push(&mut self, e: Entry)
        requires { length self.old.entries < self.old.limit }
        ensures { self.new ≡ record self.old { entries = self.old.entries ++ e ∷ [] } }
    {
        self.entries.push_reserved(e);
    }

    /// How many entries there are.
    pub fn len(&self) -> u32
        ensures { result ≡ length self.now.entries }
    {
        self.entries.len() as u32
    }

    /// How many more entries the journal may have.
    pub fn spare(&self) -> u32
        ensures spare { result + length self.now.entries ≡ self.now.limit }
        ensures fits { self.now.limit < 2 ^ 32 }
    {
        self.limit - self.len()
    }

    /// The entry at `i`, from 0; `None` where there are no more than `i`.
    pub fn get(&self, i: u32) -> Option<Entry>
        ensures { result ≡ slice_get self.now.entries i }
    {
        self.entries.get(i as usize).copied()
    }

    /// All entries, the oldest first.
    pub(crate) fn entries(&self) -> &[Entry]
        ensures { result.now ≡ self.now.entries }
    {
        &self.entries
    }
}
