//! Loads, stores and copies.

ghost use Rattle.std.specs.Prelude.{◌≡◌, ℕ, List, IsTrue};
ghost use Rattle.block_store.specs.Cells.{size_of};
ghost use Rattle.flat_store.specs.Word.{is_word_size, number_of};
ghost use Rattle.flat_meaning.specs.Accesses.{word_read, loaded, stored, copied};
ghost use Rattle.flat_threads.specs.Targets.{target_view};
ghost use Rattle.flat_rules.specs.Machine as turns;
ghost use Rattle.flat_machine.specs.inner.Dones.{done_view, Does, Went};

use crate::done::Done;
use crate::shared::Shared;
use ak_trace::TrapKind;
use block_store::Access;
use flat_threads::Target;
use flat_words::word_in;

// How many bytes an access has.
fn size_of_access(how: Access) -> u8
    ensures size { result ≡ size_of how }
    ensures word { IsTrue (is_word_size result) }
{
    match how {
        Access::Number(t) => t.bits / 8,
        Access::Pointer => 8,
    }
}

// The word that a number stands for that was read.
fn word_read(how: Access, number: u64) -> u64
    ensures { (all : List ℕ) → number ≡ number_of all → result ≡ word_read how all }
{
    match how {
        Access::Number(t) => word_in(t, number),
        Access::Pointer => number,
    }
}

impl Shared {
    /// Gives the word at an address.
    pub(crate) fn load(&self, how: Access, at: Target) -> Done
        ensures done { done_view self.now.memory result ≡ loaded how (target_view at) self.now.memory }
        ensures told { Went result turns.stepped }
    {
        match self.arena.flat().load(at.address, size_of_access(how)) {
            Ok(number) => Done::went(word_read(how, number)),
            Err(outside) => Done::Trap(outside.0, TrapKind::Load),
        }
    }

    /// Stores a word's low bytes.
    pub(crate) fn store(&mut self, how: Access, at: Target, word: u64) -> Done
        ensures does { Does self.old self.new result (stored how (target_view at) word self.old.memory) }
        ensures told { Went result turns.stepped }
    {
        match self.arena.store(at.address, size_of_access(how), word) {
            Ok(()) => Done::plain(),
            Err(outside) => Done::Trap(outside.0, TrapKind::Store),
        }
    }

    /// Copies bytes.
    pub(crate) fn copy(&mut self, to: Target, from: Target, n: u64) -> Done
        ensures does { Does self.old self.new result (copied (target_view to) (target_view from) n self.old.memory) }
        ensures told { Went result turns.stepped }
    {
        match self.arena.copy(to.address, from.address, n) {
            Ok(()) => Done::plain(),
            Err(outside) => Done::Trap(outside.0, TrapKind::Copy),
        }
    }
}
