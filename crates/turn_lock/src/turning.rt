//! One turn.
ghost use Rattle.std.specs.Prelude.{◌≡◌, ℕ, ◌<◌, List, [], ◌∷◌, ◌++◌};
ghost use Rattle.ak_trace.specs.declared.entry.Entry.{Entry};
ghost use Rattle.turn_lock.specs.declared.board.Stage.TheVariants.{Idle, Holding};
ghost use Rattle.turn_lock.specs.Limits.{most_passes};
ghost use Rattle.turn_lock.specs.Histories.{of_worker};
ghost use Rattle.turn_lock.specs.inner.Board.{holding, after_call};
ghost use Rattle.turn_lock.specs.Locks.{first_of, seen_of, own_of, worker_of, IsPassOf, MakesCall};

use crate::board::{DRAWN, Draw, Leads, Leaves, Look, Place, SERVED, Serve};
use crate::lock::{Pass, TurnLock};
use crate::object::Object;
use std::marker::Brand;
use std::snapshot::Snapshot;
use std::sync::Wait;
use std::{hint, thread};

// The times that a worker whose ticket comes next looks again at once.
const MOST_LOOKS: u32 = 4;

// Waits between two looks at the ticket that is served, so many tickets before its own, and tells how often it looked again at once. A worker
// whose ticket comes next spins a little at first; one whose turn is farther leaves the processor to those before it.
fn wait_for(distance: u64, looks: u32) -> u32 {
    if distance == 1 && looks < MOST_LOOKS {
        for _ in 0..1u32 << looks {
            hint::spin_loop();
        }
        return looks + 1;
    }
    thread::yield_now();
    looks
}

impl<Call, Reply, O: Object<Call, Reply>> TurnLock<O, Call, Reply> {
    // Draws a ticket, waits until it is served, and takes the object out. The caller says what J is.
    fn take<R: Wait, J: Leads<O>>(&self, rt: &R, place: &mut Place<O>)
        requires place { (place.old.table_id ≡ self.now.board.shared.table_id) × (place.old.me.0.stage ≡ Idle) × (place.old.me.1 ≡ []) }
        requires leads { (log : List Entry) (x : O) → O.replays (first_of self.now) log x → J.replays log x }
        ensures place { (place.new.table_id ≡ place.old.table_id) × (place.new.id ≡ place.old.id) }
        ensures took { (t : ℕ) × (x : O) × (others : List Entry) × (place.new.me ≡ (holding t others place.old.me.0, (0, x) ∷ [])) × J.replays (place.old.me.0.seen ++ others) x × (of_worker place.old.me.0.number others ≡ []) }
    {
        let table = &self.board.shared;
        let ticket = table.fetch_add::<Draw>(place, DRAWN, 1);
        let mut looks = 0;
        for _ in rt.forever() {
            let found = table.load::<Look<J>>(place, SERVED);
            if found == ticket {
                return;
            }
            looks = wait_for(ticket.wrapping_sub(found), looks);
        }
        unreachable!()
    }

    // Makes the call on the object that the place has, and tells the state before.
    fn call(&self, place: &mut Place<O>, worker: u32, call: Call) -> (Reply, Snapshot<O>)
        requires place { (place.old.table_id ≡ self.now.board.shared.table_id) × ((x : O) × (place.old.me.1 ≡ (0, x) ∷ []) × O.replays (first_of self.now) place.old.me.0.seen x) }
        requires worker { worker < most_passes }
        requires allowed { O.allowed (first_of self.now) place.old.me.0.seen worker call }
        ensures place { (place.new.table_id ≡ place.old.table_id) × (place.new.id ≡ place.old.id) × (place.new.me.0 ≡ place.old.me.0) }
        ensures call { (place.old.me.1 ≡ (0, result.1.value) ∷ []) × (result.0 ≡ O.reply_of result.1.value worker call) × ((y : O) × (place.new.me.1 ≡ (0, y) ∷ []) × O.replays (first_of self.now) (place.old.me.0.seen ++ O.entries_of result.1.value worker call) y) }
    {
        let object = place.slot_mut(&self.board.shared, 0);
        let before = Snapshot::of(&*object);
        let reply = object.answer(worker, call);
        (reply, before)
    }

    // Puts the object back and serves the next ticket. The clauses alone read `before` and `call`, from which the caller says what J is.
    fn end_turn<J: Leaves>(&self, place: &mut Place<O>, before: &Snapshot<O>, call: &Snapshot<Call>)
        requires place { (place.old.table_id ≡ self.now.board.shared.table_id) × ((t : ℕ) × (place.old.me.0.stage ≡ Holding t)) }
        requires entries { (of_worker place.old.me.0.number J.entries ≡ J.entries) × ((y : O) × (place.old.me.1 ≡ (0, y) ∷ []) × O.replays (first_of self.now) (place.old.me.0.seen ++ J.entries) y) }
        ensures { (place.new.table_id ≡ place.old.table_id) × (place.new.id ≡ place.old.id) × (place.new.me ≡ (after_call J.entries place.old.me.0, [])) }
    {
        let _ = before;
        let _ = call;
        self.board.shared.fetch_add::<Serve<J>>(place, SERVED, 1);
    }

    /// Waits for the pass's turn, makes the call, and ends the turn. It takes no memory.
    pub fn turn<R: Wait>(&self, rt: &R, pass: &mut Pass<O>, call: Call) -> Reply
        requires pass { IsPassOf self.now pass.old }
        requires allowed { O.allowed (first_of self.now) (seen_of pass.old) (worker_of pass.old) call }
        ensures pass { IsPassOf self.now pass.new × (worker_of pass.new ≡ worker_of pass.old) }
        ensures call { MakesCall (O.replays (first_of self.now)) O.reply_of O.entries_of pass.old call result pass.new }
        ensures state { (y : O) × O.replays (first_of self.now) (seen_of pass.new) y }
        ensures own { of_worker (worker_of pass.new) (seen_of pass.new) ≡ own_of pass.new }
    {
        let worker = pass.worker();
        self.take::<R, Brand>(rt, &mut pass.place);
        let asked = Snapshot::of(&call);
        let (reply, before) = self.call(&mut pass.place, worker, call);
        self.end_turn::<Brand>(&mut pass.place, &before, &asked);
        reply
    }
}
