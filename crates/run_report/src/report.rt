/// The last barrier: how far the objects reached into their sub-heaps before and after they slid, and the room after that.
#[derive(Clone, Copy, Debug, PartialEq, Eq)]
pub struct LastBarrier {
    /// The extent before.
    pub before: u64,
    /// The extent after.
    pub after: u64,
    /// The greatest room of a sub-heap, before mallocs were served.
    pub room: u64,
}

/// What is told of a run.
#[derive(Clone, Copy, Debug, PartialEq, Eq)]
pub struct Report {
    /// How many threads were made.
    pub threads: u32,
    /// How many entries the journal has.
    pub entries: u32,
    /// How many barriers there were; an evacuation is none. This count and the three below stay at their greatest number once they are there.
    pub barriers: u64,
    /// How many moves they made, with those of evacuations.
    pub moved_objects: u64,
    /// How many bytes those moved.
    pub moved_bytes: u64,
    /// How many sub-heaps evacuations emptied, each time that they did.
    pub emptied: u32,
    /// How many objects live.
    pub live_objects: u32,
    /// How many bytes those take.
    pub live_bytes: u64,
    /// How far they reach into their sub-heaps.
    pub extent: u64,
    /// How many bytes all sub-heaps have.
    pub heap: u64,
    /// The last barrier.
    pub last: Option<LastBarrier>,
}
