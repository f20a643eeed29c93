ghost use Rattle.std.specs.Prelude.{◌≡◌, ◌<◌, length, Ok, Err, IfOk, OnOk, OnErr};
ghost use Rattle.ak_words.specs.declared.rule.Rule.{Rule};
ghost use Rattle.block_store.specs.declared.fault.StoreFault.TheVariants.{Broke};
ghost use Rattle.block_store.specs.Atomics.{changed, old_number, store_after_change, compared, found_equal, store_after_compare};
ghost use Rattle.block_store.specs.Blocks.{made, ended, freed, renewed, stored, copied, answer_of, store_after};
ghost use Rattle.block_store.specs.Mutexes.{locked, unlocked, lock_end, store_after_lock};
ghost use Rattle.source_state.specs.inner.Back.{back_by};
ghost use Rattle.source_state.specs.inner.Locks.{unkept};

use ak_words::{NoMemory, Num, Rule};
use block_store::{BlockKind, Cell, EndedBlock, LockEnd, Ptr, Store, StoreFault, Value};
use std::alloc::Global;
use std::marker::Model;

// A change, by what takes it back.
#[derive(Drop)]
enum Change {
    // The newest block was made.
    Made,
    // A block ended.
    Ended(EndedBlock),
}

/// A store, and what leads it back to where it was kept last.
#[derive(Drop)]
pub struct KeptStore {
    store: Store,
    // The changes since then, in order.
    log: Vec<Change>,
}

// Clauses see the blocks as they are now, and as they were kept.
impl Model for KeptStore {
    ghost use Rattle.source_state.specs.Kept.{Kept};
    ghost use Rattle.source_state.specs.inner.Back.{back_by_all};

    ghost Value = { Kept };

    ghost view = { λ s. record { now = s.store; kept = back_by_all s.log.items s.store } };
}

// Takes one change back.
fn take_back(store: &mut Store, change: Change)
    ensures { store.new ≡ back_by change store.old }
{
    match change {
        Change::Made => store.unmake(),
        Change::Ended(gone) => store.put_back(gone),
    }
}

impl KeptStore {
    /// A store that is kept as it is.
    pub fn new(alloc: Global, store: Store) -> KeptStore
        ensures { result ≡ record { now = store; kept = store } }
    {
        KeptStore {
            store,
            log: Vec::new(alloc),
        }
    }

    /// The blocks as they are now.
    pub fn store(&self) -> &Store
        ensures { result.now ≡ self.now.now }
    {
        &self.store
    }

    /// Makes a block, as `Store::make` does.
    pub fn make(&mut self, size: u32, kind: BlockKind, first: Cell) -> Result<u64, NoMemory>
        ensures name { IfOk result (λ name. name ≡ length self.old.now) }
        ensures made { OnOk result (self.new.now ≡ made self.old.now size kind first) }
        ensures kept { OnOk result (self.new.kept ≡ self.old.kept) }
    {
        if self.store.names() == u64::MAX {
            return Err(NoMemory);
        }
        let name = self.store.make(size, kind, first)?;
        self.log.push(Change::Made)?;
        Ok(name)
    }

    /// Ends the block of a name, if one lives (C11 6.2.4).
    pub fn end(&mut self, block: u64) -> Result<(), NoMemory>
        ensures ended { OnOk result (self.new.now ≡ ended self.old.now block) }
        ensures kept { OnOk result (self.new.kept ≡ self.old.kept) }
    {
        let gone = self.store.take(block);
        self.log.push(Change::Ended(gone))?;
        Ok(())
    }

    /// What was changed so far stays.
    pub fn keep(&mut self)
        ensures { self.new ≡ record { now = self.old.now; kept = self.old.now } }
    {
        self.log.clear();
    }

    /// The blocks are what they were when they were kept last.
    pub fn undo(&mut self)
        ensures { self.new ≡ record { now = self.old.kept; kept = self.old.kept } }
    {
        'back: while let Some(change) = self.log.pop() {
            take_back(&mut self.store, change);
        }
    }

    /// Ends the block that starts at `at`, as `Store::free` does; after that nothing leads back.
    pub fn free(&mut self, at: Ptr) -> Result<(), Rule>
        ensures answer { result ≡ answer_of (freed self.old.now at) }
        ensures after { self.new.now ≡ store_after (freed self.old.now at) self.old.now }
        ensures unchanged { OnErr result (self.new ≡ self.old) }
    {
        self.store.free(at)
    }

    /// Makes a block in place of the one that starts at `at`, as `Store::renew` does; after that nothing leads back.
    pub(crate) fn renew(&mut self, at: Ptr, size: u32) -> Result<u64, StoreFault>
        ensures name { IfOk result (λ name. name ≡ length self.old.now) }
        ensures renewed { OnOk result (renewed self.old.now at size ≡ Ok self.new.now) }
        ensures broke { (rule : Rule) → result ≡ Err (Broke rule) → renewed self.old.now at size ≡ Err rule }
        ensures unchanged { OnErr result (self.new ≡ self.old) }
    {
        if self.store.names() == u64::MAX {
            return Err(StoreFault::NoMemory);
        }
        self.store.renew(at, size)
    }

    /// Changes a number, as `Store::change` does; after that nothing leads back.
    pub(crate) fn change(&mut self, at: Ptr, how: block_store::Change, by: Num) -> Result<Num, Rule>
        ensures answer { result ≡ old_number (changed self.old.now at by.ty how by.value) }
        ensures after { self.new.now ≡ store_after_change (changed self.old.now at by.ty how by.value) self.old.now }
        ensures unchanged { OnErr result (self.new ≡ self.old) }
    {
        self.store.change(at, by.ty, how, by)
    }

    /// Compares two numbers, as `Store::compare` does; after that nothing leads back.
    pub(crate) fn compare(&mut self, at: Ptr, want: Ptr, new: Num) -> Result<bool, Rule>
        ensures answer { result ≡ found_equal (compared self.old.now at want new.ty new.value) }
        ensures after { self.new.now ≡ store_after_compare (compared self.old.now at want new.ty new.value) self.old.now }
        ensures unchanged { OnErr result (self.new ≡ self.old) }
    {
        self.store.compare(at, want, new.ty, new)
    }

    /// Writes a value, as `Store::store` does; after that nothing leads back.
    pub fn store_value(&mut self, at: Ptr, v: Value) -> Result<(), Rule>
        ensures answer { result ≡ answer_of (stored self.old.now at v) }
        ensures after { self.new.now ≡ store_after (stored self.old.now at v) self.old.now }
        ensures unchanged { OnErr result (self.new ≡ self.old) }
    {
        self.store.store(at, v.access(), v)
    }

    /// Copies cells, as `Store::copy` does; after that nothing leads back.
    pub(crate) fn copy(
        &mut self,
        to: Ptr,
        from: Ptr,
        n: u32,
        align: u32,
        same: bool,
    ) -> Result<(), Rule>
        requires { 0 < align }
        ensures answer { result ≡ answer_of (copied self.old.now to from n align same) }
        ensures after { self.new.now ≡ store_after (copied self.old.now to from n align same) self.old.now }
        ensures unchanged { OnErr result (self.new ≡ self.old) }
    {
        self.store.copy(to, from, n, align, same)
    }

    /// Takes a mutex, as `Store::lock` does; after that nothing leads back.
    pub(crate) fn lock(&mut self, at: Ptr, thread: u32) -> Result<LockEnd, Rule>
        ensures answer { result ≡ lock_end (locked self.old.now at thread) }
        ensures after { self.new.now ≡ store_after_lock (locked self.old.now at thread) self.old.now }
        ensures unchanged { unkept result self.old self.new }
    {
        self.store.lock(at, thread)
    }

    /// Sets a mutex free, as `Store::unlock` does; after that nothing leads back.
    pub(crate) fn unlock(&mut self, at: Ptr, thread: u32) -> Result<(), Rule>
        ensures answer { result ≡ answer_of (unlocked self.old.now at thread) }
        ensures after { self.new.now ≡ store_after (unlocked self.old.now at thread) self.old.now }
        ensures unchanged { OnErr result (self.new ≡ self.old) }
    {
        self.store.unlock(at, thread)
    }
}
