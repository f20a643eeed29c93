//! The order of the turns that a journal tells.
ghost use Rattle.std.specs.Prelude.{◌≡◌, ◌++◌, List};
ghost use Rattle.ak_trace.specs.declared.entry.Entry.{Entry};
ghost use Rattle.ak_trace.specs.Order.{order};
ghost use Rattle.ak_trace.specs.Rows.{local_journal, local_turns, full_journal, full_turns};

/// What a turn is told of the choice that the source leaves open.
#[derive(Clone, Copy, Debug, PartialEq, Eq)]
pub enum Answer {
    /// The turn has no choice.
    Plain,
    /// Its allocation gets an object, or its thread is made.
    Got,
    /// Its allocation gets null, or no thread is made.
    None,
}

/// A law of the order: what stands later in a journal changes nothing of the turns that were told before.
pub fn order_of_joined()
    ensures { (log more : List Entry) → order (log ++ more) ≡ order log ++ order more }
{}

/// Two journals worked by hand: one of local turns, and one that has every kind and every how.
pub fn order_of_worked_journals()
    ensures local { order local_journal ≡ local_turns }
    ensures full { order full_journal ≡ full_turns }
{}
