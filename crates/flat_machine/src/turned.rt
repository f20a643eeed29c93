//! How a thread's pending step went, and what that answers.

ghost use Rattle.std.specs.Prelude.{◌≡◌, ◌<◌, ◌^◌};
ghost use Rattle.flat_rules.specs.Answers.{step_of};
ghost use Rattle.flat_rules.specs.Entries.{how_of, id_of, heap_place_of, turn_entry};
ghost use Rattle.flat_machine.specs.inner.Turneds.{turned_view};

use ak_trace::{End, Entry, TrapKind, how, kind};
use flat_rules::Step;

/// How a thread's pending step went.
#[derive(Clone, Copy)]
pub(crate) enum Turned {
    /// A pointer was translated.
    Looked,
    /// A step was done that neither allocates nor makes a thread.
    Stepped,
    /// An allocation got an object.
    Got { id: u32, place: u32 },
    /// An allocation got null.
    GotNull,
    /// The thread of this number was made.
    MadeThread(u32),
    /// No thread was made.
    RefusedThread,
    /// The mutex is held, or the thread that is joined hasn't ended.
    FoundBusy,
    /// The allocation waits for room.
    WantsRoom,
    /// The thread rests.
    Rested,
    /// The thread ended with this value.
    Ended(i32),
    /// An access would have reached an address without a byte, or a word was freed, or renewed, that is not live.
    Trapped(u64, TrapKind),
    /// A byte would have passed the output's limit.
    PassedLimit,
    /// A call had no room.
    LackedStack,
}

impl Turned {
    // Its number in an entry.
    fn how(self) -> u8
        ensures { result ≡ how_of (turned_view self) }
    {
        match self {
            Turned::Looked => how::LOOK,
            Turned::Stepped => how::PLAIN_STEP,
            Turned::Got { .. } => how::MALLOC_GOT,
            Turned::GotNull => how::MALLOC_NULL,
            Turned::MadeThread(_) => how::THREAD_MADE,
            Turned::RefusedThread => how::THREAD_REFUSED,
            Turned::FoundBusy => how::BUSY,
            Turned::WantsRoom => how::WAITS_FOR_ROOM,
            Turned::Rested => how::REST,
            Turned::Ended(_) => how::END,
            Turned::Trapped(_, _) => how::TRAP,
            Turned::PassedLimit => how::OUTPUT_LIMIT,
            Turned::LackedStack => how::NO_STACK,
        }
    }

    // The id and the place of the object that it got, or the number of the thread that it made.
    fn object(self) -> (u32, u32)
        ensures id { result.0 ≡ id_of (turned_view self) }
        ensures place { result.1 ≡ heap_place_of (turned_view self) }
    {
        match self {
            Turned::Got { id, place } => (id, place),
            Turned::MadeThread(number) => (number, 0),
            _ => (0, 0),
        }
    }

    /// The entry of a thread's step, with the turns that it did alone before, told with worker 0.
    pub(crate) fn entry(self, thread: u32, turns: u32) -> Entry
        requires thread { thread < 64 }
        requires turns { turns < 2 ^ 16 }
        ensures { result ≡ turn_entry 0 thread turns (turned_view self) }
    {
        let (id, place) = self.object();
        Entry {
            kind: kind::TURN,
            worker: 0,
            thread: thread as u8,
            how: self.how(),
            local: turns as u16,
            zero: 0,
            id,
            place,
        }
    }

    /// What act answers.
    pub(crate) fn step(self, thread: u32) -> Step
        ensures { result ≡ step_of thread (turned_view self) }
    {
        match self {
            Turned::FoundBusy => Step::Busy,
            Turned::WantsRoom => Step::WaitRoom,
            Turned::Ended(value) if thread == 0 => Step::Over(End::Done(value)),
            Turned::Ended(_) => Step::Ended,
            Turned::Trapped(word, kind) => Step::Over(End::Trap(word, kind)),
            Turned::PassedLimit => Step::Over(End::OutputLimit),
            Turned::LackedStack => Step::Over(End::StackLimit(thread)),
            _ => Step::Went,
        }
    }
}
