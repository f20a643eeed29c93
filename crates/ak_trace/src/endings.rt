//! How a run ends, and how a check does.

use ak_words::Rule;

/// Which access, or free, a trap is of.
#[derive(Clone, Copy, Debug, PartialEq, Eq)]
pub enum TrapKind {
    /// A load.
    Load,
    /// A store.
    Store,
    /// A copy.
    Copy,
    /// A free of what is not live.
    Free,
    /// A lock or an unlock.
    Lock,
    /// A text that is printed.
    Print,
    /// The place for the number of a new thread.
    Start,
    /// The place for the result of a joined thread.
    Join,
}

/// How a run ends.
#[derive(Clone, Copy, Debug, PartialEq, Eq)]
pub enum End {
    /// Main returned this value.
    Done(i32),
    /// An access would have reached an address without a byte, or a word was freed that is not live.
    Trap(u64, TrapKind),
    /// Each thread that has not ended waits for a mutex or for another thread.
    AllBlocked,
    /// The journal has no room for another event.
    TurnLimit,
    /// A print would have passed the output's limit.
    OutputLimit,
    /// A call of this thread would need more than is left.
    StackLimit(u32),
}

/// What a check finds: how the source's run in its order ends, after so many turns.
#[derive(Clone, Copy, Debug, PartialEq, Eq)]
pub enum Verdict {
    /// The next turn breaks a rule of C.
    Broke {
        /// The rule.
        rule: Rule,
        /// Where in the text, as a byte offset from 0.
        place: u32,
        /// How many turns were done before.
        turns: u32,
    },
    /// Main returned.
    Ended {
        /// Its value.
        exit: i32,
        /// How many turns were done.
        turns: u32,
    },
    /// Each thread that has not ended waits for a mutex or for another thread.
    AllBlocked {
        /// How many turns were done.
        turns: u32,
    },
    /// As many turns were done as were asked for.
    TurnsSpent {
        /// How many these are.
        turns: u32,
    },
}
