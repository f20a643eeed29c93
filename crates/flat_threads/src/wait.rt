/// What a thread waits for.
#[derive(Clone, Copy, PartialEq, Eq)]
pub enum Wait {
    /// Room for what it allocates.
    Room,
    /// The mutex at this address.
    Mutex(u64),
    /// The end of the thread of this number.
    Thread(u64),
}
