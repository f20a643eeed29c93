//! What lies under the lock.
ghost use Rattle.std.specs.Prelude.{◌≡◌, ◌↔◌, ◌<◌, ℕ, List, [], ◌++◌};
ghost use Rattle.ak_trace.specs.declared.entry.Entry.{Entry};
ghost use Rattle.turn_lock.specs.Limits.{most_passes};
ghost use Rattle.turn_lock.specs.Histories.{of_worker};

/// An object that answers one call at a time, each of which leaves entries of the worker that made it.
pub trait Object<Call, Reply> {
    /// From the object as it was made, the entries of all calls so far, in order, lead to the state.
    ghost replays: { Self → List Entry → Self → Type 0 };

    /// Which calls a worker may make of an object that was so made, after the entries.
    ghost allowed: { Self → List Entry → ℕ → Call → Type 0 };

    /// What a call of a worker answers in a state.
    ghost reply_of: { Self → ℕ → Call → Reply };

    /// The entries that a call of a worker leaves in a state.
    ghost entries_of: { Self → ℕ → Call → List Entry };

    /// Makes the call for the worker. It takes no memory.
    fn answer(&mut self, worker: u32, call: Call) -> Reply
        requires worker { worker < most_passes }
        requires allowed { (first : Self) × (log : List Entry) × replays first log self.old × allowed first log worker call }
        ensures reply { result ≡ reply_of self.old worker call }
        ensures replays { (first : Self) (log : List Entry) → replays first log self.old → allowed first log worker call → replays first (log ++ entries_of self.old worker call) self.new }
        ensures unchanged { (entries_of self.old worker call ≡ []) ↔ (self.new ≡ self.old) };

    /// A call that is allowed stays allowed when other workers add entries that the object can have.
    ghost still_allowed: { (first : Self) (log more : List Entry) (worker : ℕ) (call : Call) (x : Self) → allowed first log worker call → of_worker worker more ≡ [] → replays first (log ++ more) x → allowed first (log ++ more) worker call };

    /// The entries of a call are its worker's own.
    ghost own_entries: { (x : Self) (worker : ℕ) (call : Call) → of_worker worker (entries_of x worker call) ≡ entries_of x worker call };
}
