//! Numbers that are changed and compared in one action.

ghost use Rattle.std.specs.Prelude.{◌≡◌, ◌/◌, Some, None, OnOk, IfOk, IfErr};
ghost use Rattle.flat_store.specs.Flat.{first_outside};
ghost use Rattle.flat_store.specs.Word.{low_bytes};
ghost use Rattle.ak_trace.specs.declared.endings.TrapKind.TheVariants as kinds;
ghost use Rattle.flat_meaning.specs.Accesses.{went, within};
ghost use Rattle.flat_meaning.specs.Actions.{word_after_change, changed, compared, number_at};
ghost use Rattle.flat_meaning.specs.Memory.{written};
ghost use Rattle.flat_threads.specs.Targets.{target_view};
ghost use Rattle.flat_rules.specs.Machine as turns;
ghost use Rattle.flat_machine.specs.inner.Dones.{Does, Went};

use crate::done::Done;
use crate::shared::Shared;
use ak_trace::TrapKind;
use ak_words::IntType;
use block_store::Change;
use flat_store::OutsideFlat;
use flat_threads::Target;
use flat_words::{add, equal, word_in};

impl Shared {
    /// Changes a number, and gives the word of the old one.
    pub(crate) fn change(&mut self, how: Change, ty: IntType, at: Target, by: u64) -> Done
        ensures does { Does self.old self.new result (changed how ty (target_view at) by self.old.memory) }
        ensures told { Went result turns.stepped }
    {
        match self.number_at(ty, at.address) {
            Ok(old) => self.write_number(ty, at.address, changed_word(how, ty, old, by), old),
            Err(outside) => Done::Trap(outside.0, TrapKind::Store),
        }
    }

    /// Compares a number with a wanted one: where they are equal it becomes another, and else the wanted one becomes it.
    pub(crate) fn compare(&mut self, ty: IntType, at: Target, want: Target, new: u64) -> Done
        ensures does { Does self.old self.new result (compared ty (target_view at) (target_view want) new self.old.memory) }
        ensures told { Went result turns.stepped }
    {
        let old = match self.number_at(ty, at.address) {
            Ok(old) => old,
            Err(outside) => return Done::Trap(outside.0, TrapKind::Store),
        };
        let wanted = match self.number_at(ty, want.address) {
            Ok(wanted) => wanted,
            Err(outside) => return Done::Trap(outside.0, TrapKind::Store),
        };
        let same = equal(ty, old, wanted);
        if same == 1 {
            self.write_number(ty, at.address, new, 1)
        } else {
            self.write_number(ty, want.address, old, 0)
        }
    }

    // The word of the number of a type at an address.
    fn number_at(&self, ty: IntType, at: u64) -> Result<u64, OutsideFlat>
        ensures inside { OnOk result (first_outside self.now.memory.storage.bytes at (ty.bits / 8) ≡ None) }
        ensures number { IfOk result (λ word. word ≡ number_at ty at self.now.memory) }
        ensures outside { IfErr result (λ e. first_outside self.now.memory.storage.bytes at (ty.bits / 8) ≡ Some e.0) }
    {
        let number = self.arena.flat().load(at, ty.bits / 8)?;
        Ok(word_in(ty, number))
    }

    // Writes a number at an address, and gives a word.
    fn write_number(&mut self, ty: IntType, at: u64, word: u64, gives: u64) -> Done
        ensures does { Does self.old self.new result (within kinds.Store (first_outside self.old.memory.storage.bytes at (ty.bits / 8)) (went (Some gives) (written self.old.memory at (low_bytes (ty.bits / 8) word)))) }
        ensures told { Went result turns.stepped }
    {
        match self.arena.store(at, ty.bits / 8, word) {
            Ok(()) => Done::went(gives),
            Err(outside) => Done::Trap(outside.0, TrapKind::Store),
        }
    }
}

// The word of what a number becomes.
fn changed_word(how: Change, ty: IntType, old: u64, by: u64) -> u64
    ensures { result ≡ word_after_change how ty old by }
{
    match how {
        Change::Add => add(ty, old, by),
        Change::Swap => by,
    }
}
