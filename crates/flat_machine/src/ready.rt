//! Threads begin, and are ready or not.

ghost use Rattle.std.specs.Prelude.{◌≡◌, ◌<◌, length, slice_get, None};
ghost use Rattle.flat_meaning.specs.Ready.{has_ended, may_lock};
ghost use Rattle.flat_machine.specs.Readiness.{begun, is_ready};

use crate::shared::Shared;
use flat_threads::{Context, Wait};

/// Puts the first function of its thread before a blank context.
pub fn begin(shared: &Shared, ctx: &mut Context)
    requires made { ctx.old.number < length shared.now.memory.threads }
    requires blank { ctx.old.stage ≡ None }
    ensures { ctx.new ≡ begun (slice_get shared.now.memory.threads ctx.old.number) ctx.old }
{
    let thread = shared.threads[ctx.thread() as usize];
    ctx.begin(thread.function, thread.argument);
}

/// Whether a context's thread waits for nothing, or for what has come: for a mutex until its number is 0, and for a thread until that
/// has ended. For room it waits until a barrier.
pub fn is_ready(shared: &Shared, ctx: &Context) -> bool
    ensures { result ≡ is_ready shared.now.memory ctx.now.wait }
{
    match ctx.waits_for() {
        None => true,
        Some(Wait::Room) => false,
        Some(Wait::Mutex(at)) => shared.may_lock(at),
        Some(Wait::Thread(number)) => shared.is_over(number),
    }
}

impl Shared {
    // The number of the mutex at an address is 0, or the mutex has no bytes.
    fn may_lock(&self, at: u64) -> bool
        ensures { result ≡ may_lock self.now.memory at }
    {
        match self.arena.flat().load(at, 8) {
            Ok(number) => number == 0,
            Err(_) => true,
        }
    }

    // The thread was made and has ended.
    fn is_over(&self, number: u64) -> bool
        ensures { result ≡ has_ended (slice_get self.now.memory.threads number) }
    {
        match self.threads.get(number as usize) {
            Some(thread) => thread.result.is_some(),
            None => false,
        }
    }
}
