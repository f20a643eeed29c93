//! One entry of a journal.

/// What happened at one moment of a run. Fields without a use are 0.
#[derive(Clone, Copy, Debug, PartialEq, Eq)]
pub struct Entry {
    /// One of the constants of `kind`.
    pub kind: u8,
    /// The worker that did it, from 0.
    pub worker: u8,
    /// The C thread, from 0, but for a barrier.
    pub thread: u8,
    /// One of the constants of `how`.
    pub how: u8,
    /// Of a turn entry: the turns that the thread did by itself before its step.
    pub local: u16,
    /// Always 0.
    pub zero: u16,
    /// The object's id, where an allocation got one; the new thread's number, where one was made.
    pub id: u32,
    /// The object's place, where an allocation got one.
    pub place: u32,
}

const _: () = prove!(size_of::<Entry>() == 16);
