//! Allocations and frees.

ghost use Rattle.std.specs.Prelude.{◌≡◌, ◌*◌, ◌<◌, ◌≤◌, length, Some, None, IsSome, IfSome, IfNone};
ghost use Rattle.arena_meaning.specs.Arena.{IsConsistent};
ghost use Rattle.flat_meaning.specs.Accesses.{allocated, freed, reallocated, zeroed};
ghost use Rattle.flat_meaning.specs.Memory.{words_leaving};
ghost use Rattle.flat_machine.specs.Choices.{malloc_choice, served_choice};
ghost use Rattle.flat_machine.specs.Turns.{malloc_turned};
ghost use Rattle.flat_rules.specs.Machine as turns;
ghost use Rattle.flat_machine.specs.inner.Dones.{Does, WaitsFor, Went};

use crate::done::Done;
use crate::shared::Shared;
use ak_trace::TrapKind;
use defrag_move::Alloced;
use flat_threads::Wait;

impl Shared {
    /// A malloc gets the least id and the lowest place; above a sub-heap it gets null, and else, where there is no room, it waits.
    pub(crate) fn malloc(&mut self, size: u64) -> Done
        ensures does { Does self.old self.new result (allocated (malloc_choice self.old.memory.storage 0 size) size self.old.memory) }
        ensures told { Went result (malloc_turned (malloc_choice self.old.memory.storage 0 size)) }
        ensures waits { WaitsFor result (Some Wait.Room) }
    {
        if size > u64::from(self.arena.heaps().size()) {
            return Done::null();
        }
        match self.arena.alloc(size) {
            Alloced::Got { id, place } => Done::got(id, place),
            Alloced::NoGap | Alloced::NoId => Done::Waits(Wait::Room),
        }
    }

    /// A calloc is a malloc of so many elements of so many bytes, each of which is 0 then.
    pub(crate) fn calloc(&mut self, count: u64, size: u64) -> Done
        ensures does { Does self.old self.new result (zeroed (malloc_choice self.old.memory.storage 0 (count * size)) (count * size) self.old.memory) }
        ensures told { Went result (malloc_turned (malloc_choice self.old.memory.storage 0 (count * size))) }
        ensures waits { WaitsFor result (Some Wait.Room) }
    {
        let Some(bytes) = self.product(count, size) else {
            return Done::null();
        };
        match self.arena.alloc_zero(bytes) {
            Alloced::Got { id, place } => Done::got(id, place),
            Alloced::NoGap | Alloced::NoId => Done::Waits(Wait::Room),
        }
    }

    /// A realloc of null is a malloc. Of a live object's word it gets an object with that one's bytes, as far as both reach, and the old
    /// object ends; any other word is a trap.
    pub(crate) fn realloc(&mut self, word: u64, size: u64) -> Done
        requires { self.old.memory.leaving ≡ None }
        ensures does { Does self.old self.new result (reallocated (malloc_choice self.old.memory.storage word size) word size self.old.memory) }
        ensures told { Went result (malloc_turned (malloc_choice self.old.memory.storage word size)) }
        ensures waits { WaitsFor result (Some Wait.Room) }
    {
        if word == 0 {
            return self.malloc(size);
        }
        if !self.arena.is_live(word) {
            return Done::Trap(word, TrapKind::Free);
        }
        if size > u64::from(self.arena.heaps().size()) {
            return Done::null();
        }
        match self.arena.alloc_copy(word, size) {
            Alloced::Got { id, place } => {
                let _ = self.arena.free(word);
                Done::got(id, place)
            }
            Alloced::NoGap | Alloced::NoId => Done::Waits(Wait::Room),
        }
    }

    /// A malloc that waits is served: where there is no room, with null.
    pub(crate) fn serve_malloc(&mut self, size: u64) -> Done
        ensures does { Does self.old self.new result (allocated (served_choice self.old.memory.storage 0 size) size self.old.memory) }
        ensures told { Went result (malloc_turned (served_choice self.old.memory.storage 0 size)) }
    {
        match self.arena.alloc(size) {
            Alloced::Got { id, place } => Done::got(id, place),
            Alloced::NoGap | Alloced::NoId => Done::null(),
        }
    }

    /// A calloc that waits is served.
    pub(crate) fn serve_calloc(&mut self, count: u64, size: u64) -> Done
        ensures does { Does self.old self.new result (zeroed (served_choice self.old.memory.storage 0 (count * size)) (count * size) self.old.memory) }
        ensures told { Went result (malloc_turned (served_choice self.old.memory.storage 0 (count * size))) }
    {
        let Some(bytes) = self.product(count, size) else {
            return Done::null();
        };
        match self.arena.alloc_zero(bytes) {
            Alloced::Got { id, place } => Done::got(id, place),
            Alloced::NoGap | Alloced::NoId => Done::null(),
        }
    }

    /// A realloc that waits is served. Where its word is live, the old object leaves behind the last allocation that the barrier serves.
    pub(crate) fn serve_realloc(&mut self, word: u64, size: u64) -> Done
        requires serves { IsSome self.old.memory.leaving }
        requires room { length (words_leaving self.old.memory.leaving) < 64 }
        ensures does { Does self.old self.new result (reallocated (served_choice self.old.memory.storage word size) word size self.old.memory) }
        ensures told { Went result (malloc_turned (served_choice self.old.memory.storage word size)) }
    {
        if word == 0 {
            return self.serve_malloc(size);
        }
        let live = self.arena.is_live(word);
        match self.arena.alloc_copy(word, size) {
            Alloced::Got { id, place } => {
                self.leaving.add_if(live, word);
                Done::got(id, place)
            }
            Alloced::NoGap | Alloced::NoId => Done::null(),
        }
    }

    // So many elements of so many bytes, where that is at most a sub-heap.
    fn product(&self, count: u64, size: u64) -> Option<u64>
        ensures product { IfSome result (λ bytes. bytes ≡ count * size) }
        ensures within { IfSome result (λ bytes. bytes ≤ self.now.memory.storage.heaps.size) }
        ensures above { IfNone result (self.now.memory.storage.heaps.size < count * size) }
        ensures consistent { IsConsistent self.now.memory.storage }
    {
        let most = u64::from(self.arena.heaps().size());
        let bytes = count.checked_mul(size)?;
        if bytes <= most { Some(bytes) } else { None }
    }

    /// Ends the object whose start a word is the handle of; 0 is taken, and does nothing.
    pub(crate) fn free(&mut self, word: u64) -> Done
        ensures does { Does self.old self.new result (freed word self.old.memory) }
        ensures told { Went result turns.stepped }
    {
        match self.arena.free(word) {
            Ok(()) => Done::plain(),
            Err(_) => Done::Trap(word, TrapKind::Free),
        }
    }
}
