//! The plainest object: a count of calls, with a journal of them.
use ak_trace::{Entry, Journal, kind};
use ak_words::NoMemory;
use std::alloc::Global;
use turn_lock::Object;

/// Counts calls, each of which leaves an entry, until the journal is full. Each worker numbers its calls from 0.
#[derive(Drop)]
pub struct Tally {
    /// How many calls left an entry.
    pub count: u64,
    /// Their entries, in the order of the calls. An entry has its call's number as `id`.
    pub journal: Journal,
}

impl Tally {
    ghost use Rattle.std.specs.Prelude.{◌≡◌, [], IfOk};
    ghost use Rattle.store_tests.specs.Tallies.{IsTally};

    /// No calls yet, with memory for the entries of `calls`.
    pub fn with_limit(alloc: Global, calls: u32) -> Result<Tally, NoMemory>
        ensures { IfOk result (λ x. IsTally calls [] x.journal x.count) }
    {
        let journal = Journal::with_limit(alloc, calls)?;
        Ok(Tally { count: 0, journal })
    }
}

impl Object<u32, Option<u64>> for Tally {
    ghost use Rattle.store_tests.specs.Tallies.{IsTally, IsNext, count_before, entries_left, next_stays, left_own};

    ghost replays = { λ first log x. IsTally first.journal.limit log x.journal x.count };

    ghost allowed = { λ _ log worker number. IsNext log worker number };

    ghost reply_of = { λ x _ _. count_before x.journal x.count };

    ghost entries_of = { λ x worker number. entries_left x.journal worker number };

    ghost still_allowed = { λ _ log more worker number _ next none _. next_stays log more worker number next none };

    ghost own_entries = { λ x worker number. left_own x.journal worker number };

    /// The count before the call, or `None` where the journal is full.
    fn answer(&mut self, worker: u32, call: u32) -> Option<u64> {
        if self.journal.spare() == 0 {
            return None;
        }
        let entry = Entry {
            kind: kind::OUT,
            worker: worker as u8,
            thread: 0,
            how: 0,
            local: 0,
            zero: 0,
            id: call,
            place: 0,
        };
        let before = self.count;
        self.journal.push(entry);
        self.count = before + 1;
        Some(before)
    }
}
