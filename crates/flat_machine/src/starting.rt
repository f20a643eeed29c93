//! Threads are made, joined and ended.

ghost use Rattle.std.specs.Prelude.{◌≡◌, ◌<◌, length, slice_get, Some};
ghost use Rattle.flat_meaning.specs.Actions.{may_start, started, joined_if};
ghost use Rattle.flat_meaning.specs.Memory.{thread_ended};
ghost use Rattle.flat_rules.specs.Machine as turns;
ghost use Rattle.flat_threads.specs.Targets.{target_view};
ghost use Rattle.flat_machine.specs.Turns.{start_turned, value_if};
ghost use Rattle.flat_machine.specs.inner.Dones.{Does, WaitsFor, Went, with_memory};
ghost use Rattle.flat_machine.specs.inner.Turneds.{turned_view};

use crate::done::Done;
use crate::made::MadeThread;
use crate::shared::{Shared, THREADS};
use crate::turned::Turned;
use ak_trace::TrapKind;
use ak_words::IntType;
use flat_threads::{Target, Wait};
use flat_words::number_of_word;

impl Shared {
    /// Makes a thread, where there are fewer than 64, and stores its number.
    pub(crate) fn start(&mut self, function: u32, to: Target, argument: u64) -> Done
        ensures does { Does self.old self.new result (started 64 function (target_view to) argument self.old.memory) }
        ensures told { Went result (start_turned (may_start 64 self.old.memory) (length self.old.memory.threads)) }
    {
        let number = self.threads.len() as u32;
        if number >= THREADS {
            return Done::Went(Some(1), Turned::RefusedThread);
        }
        if let Err(outside) = self.arena.store(to.address, 8, u64::from(number)) {
            return Done::Trap(outside.0, TrapKind::Start);
        }
        self.threads.push_reserved(MadeThread {
            function,
            argument,
            result: None,
        });
        Done::Went(Some(0), Turned::MadeThread(number))
    }

    /// Joins a thread that has ended, and stores its result unless the place for that is null.
    pub(crate) fn join(&mut self, to: Target, number: u64) -> Done
        ensures does { Does self.old self.new result (joined_if (target_view to) (slice_get self.old.memory.threads number) self.old.memory) }
        ensures told { Went result turns.stepped }
        ensures waits { WaitsFor result (Some (Wait.Thread number)) }
    {
        if number >= self.threads.len() as u64 {
            return Done::went(1);
        }
        let Some(word) = self.threads[number as usize].result else {
            return Done::Waits(Wait::Thread(number));
        };
        if to.pointer == 0 {
            return Done::went(0);
        }
        match self.arena.store(to.address, 4, word) {
            Ok(()) => Done::went(0),
            Err(outside) => Done::Trap(outside.0, TrapKind::Join),
        }
    }

    /// Ends a thread, whose first function returns this word.
    pub(crate) fn finish(&mut self, thread: u32, word: u64) -> Turned
        requires { thread < length self.old.memory.threads }
        ensures ended { self.new ≡ with_memory self.old (thread_ended self.old.memory thread word) }
        ensures turned { turned_view result ≡ turns.ended (value_if (Some word)) }
    {
        self.threads[thread as usize].result = Some(word);
        Turned::Ended(number_of_word(IntType::int(), word).to_int())
    }
}
