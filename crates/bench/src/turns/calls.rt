//! What stands under the lock: a journal, in which each call leaves an entry.
use ak_trace::{Entry, Journal, kind};
use ak_words::NoMemory;
use std::alloc::Global;
use turn_lock::Object;

/// A journal of calls.
#[derive(Drop)]
pub struct Calls {
    pub journal: Journal,
}

impl Calls {
    ghost use Rattle.std.specs.Prelude.{[], IfOk};
    ghost use Rattle.bench.specs.Calls.{IsJournal};

    /// No calls yet, with memory for the entries of so many.
    pub fn with_limit(alloc: Global, calls: u32) -> Result<Calls, NoMemory>
        ensures { IfOk result (λ x. IsJournal calls [] x.journal) }
    {
        let journal = Journal::with_limit(alloc, calls)?;
        Ok(Calls { journal })
    }
}

impl Object<(), bool> for Calls {
    ghost use Rattle.bench.specs.Calls.{IsJournal, has_room, entries_left, left_own};

    ghost replays = { λ first log x. IsJournal first.journal.limit log x.journal };

    ghost allowed = { λ _ _ _ _. Unit {0} };

    ghost reply_of = { λ x _ _. has_room x.journal };

    ghost entries_of = { λ x worker _. entries_left x.journal worker };

    ghost still_allowed = { λ _ _ _ _ _ _ _ _ _. tt };

    ghost own_entries = { λ x worker _. left_own x.journal worker };

    /// Whether the journal had room for the call's entry.
    fn answer(&mut self, worker: u32, _call: ()) -> bool {
        if self.journal.spare() == 0 {
            return false;
        }
        self.journal.push(Entry {
            kind: kind::OUT,
            worker: worker as u8,
            thread: 0,
            how: 0,
            local: 0,
            zero: 0,
            id: 0,
            place: 0,
        });
        true
    }
}
