//! Locks and unlocks.

ghost use Rattle.std.specs.Prelude.{◌<◌, Some, None};
ghost use Rattle.flat_store.specs.Word.{low_bytes};
ghost use Rattle.ak_trace.specs.declared.endings.TrapKind.TheVariants as kinds;
ghost use Rattle.flat_meaning.specs.Accesses.{went, within};
ghost use Rattle.flat_meaning.specs.Memory.{written};
ghost use Rattle.flat_store.specs.Flat.{first_outside};
ghost use Rattle.flat_meaning.specs.Actions.{locked, unlocked};
ghost use Rattle.flat_threads.specs.Targets.{target_view};
ghost use Rattle.flat_rules.specs.Machine as turns;
ghost use Rattle.flat_machine.specs.inner.Dones.{Does, WaitsFor, Went};

use crate::done::Done;
use crate::shared::Shared;
use ak_trace::TrapKind;
use flat_threads::{Target, Wait};

impl Shared {
    /// Takes the mutex at an address, where that is free.
    pub(crate) fn lock(&mut self, thread: u32, at: Target) -> Done
        requires { thread < 64 }
        ensures does { Does self.old self.new result (locked thread (target_view at) self.old.memory) }
        ensures told { Went result turns.stepped }
        ensures waits { WaitsFor result (Some (Wait.Mutex at.address)) }
    {
        match self.arena.flat().load(at.address, 8) {
            Ok(0) => self.set_mutex(at, u64::from(thread) + 1),
            Ok(_) => Done::Waits(Wait::Mutex(at.address)),
            Err(outside) => Done::Trap(outside.0, TrapKind::Lock),
        }
    }

    /// Gives the mutex at an address back, whoever held it.
    pub(crate) fn unlock(&mut self, at: Target) -> Done
        ensures does { Does self.old self.new result (unlocked (target_view at) self.old.memory) }
        ensures told { Went result turns.stepped }
    {
        self.set_mutex(at, 0)
    }

    fn set_mutex(&mut self, at: Target, number: u64) -> Done
        ensures does { Does self.old self.new result (within kinds.Lock (first_outside self.old.memory.storage.bytes at.address 8) (went None (written self.old.memory at.address (low_bytes 8 number)))) }
        ensures told { Went result turns.stepped }
    {
        match self.arena.store(at.address, 8, number) {
            Ok(()) => Done::plain(),
            Err(outside) => Done::Trap(outside.0, TrapKind::Lock),
        }
    }
}
