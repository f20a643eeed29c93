//! How a lock is made.
ghost use Rattle.std.specs.Prelude.{◌≡◌, ℕ, ◌<◌, ◌≤◌, [], ◌∷◌, IfOk, vec_len, vec_capacity};
ghost use Rattle.turn_lock.specs.Limits.{most_passes};
ghost use Rattle.turn_lock.specs.inner.Board.{founder};
ghost use Rattle.turn_lock.specs.Locks.{AllPasses, AllNew, first_of, passes_of};

use crate::board::{Another, Place};
use crate::lock::{Pass, TurnLock};
use crate::object::Object;
use ak_words::NoMemory;
use atomic_table::Table;
use std::alloc::Global;
use std::snapshot::Snapshot;

impl<Call, Reply, O: Object<Call, Reply>> TurnLock<O, Call, Reply> {
    // Makes the passes. The first place is that of pass 0, from which the others are split.
    fn deal(&self, first: Place<O>, room: Vec<Pass<O>>) -> Vec<Pass<O>>
        requires first { (first.table_id ≡ self.now.board.shared.table_id) × (first.me ≡ (founder 1, [])) }
        requires room { (room.items ≡ []) × (passes_of self.now ≤ vec_capacity room) }
        ensures { (vec_len result ≡ passes_of self.now) × AllPasses self.now result.items × AllNew result.items }
    {
        let mut place = first;
        let mut all = room;
        for number in 1..self.count {
            let next = self.board.shared.split_seat::<Another>(&mut place);
            all.push_reserved(Pass::at(next, number));
        }
        all.insert(0, Pass::at(place, 0)).unwrap();
        all
    }

    /// A lock round the object, and its passes, of which number `k` stands at `k`. Where memory is wanting the object is dropped.
    pub fn new(
        alloc: Global,
        object: O,
        passes: u32,
    ) -> Result<(TurnLock<O, Call, Reply>, Vec<Pass<O>>), NoMemory>
    where
        O: Drop,
        requires state { O.replays object [] object }
        requires passes { (0 < passes) × (passes ≤ most_passes) }
        ensures first { IfOk result (λ r. first_of r.0 ≡ object) }
        ensures count { IfOk result (λ r. (passes_of r.0 ≡ passes) × (vec_len r.1 ≡ passes)) }
        ensures passes { IfOk result (λ r. AllPasses r.0 r.1.items) }
        ensures new { IfOk result (λ r. AllNew r.1.items) }
    {
        let first = Snapshot::of(&object);
        let mut slots = Vec::with_capacity(alloc, 1)?;
        slots.push_reserved(object);
        let room = Vec::with_capacity(alloc, passes as usize)?;
        let Ok((board, place)) = Table::new(alloc, &[0, 0], slots, &first) else {
            return Err(NoMemory);
        };
        let lock = TurnLock {
            board,
            count: passes,
        };
        let all = lock.deal(place, room);
        Ok((lock, all))
    }
}
