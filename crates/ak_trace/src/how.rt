//! How a step went, or why a barrier came: what the field `how` of an entry says.
//! A turn has one of the hows from `LOOK` to `NO_STACK`, a served allocation `MALLOC_GOT` or `MALLOC_NULL`,
//! a barrier `FOR_ROOM` or `FOR_EVERY`, an evacuation `EVACUATION`, and every other entry 0.

/// A pointer was translated.
pub const LOOK: u8 = 0;

/// A step was done that neither allocates nor makes a thread.
pub const PLAIN_STEP: u8 = 1;

/// An allocation gave an object.
pub const MALLOC_GOT: u8 = 2;

/// An allocation gave null.
pub const MALLOC_NULL: u8 = 3;

/// A thread was made.
pub const THREAD_MADE: u8 = 4;

/// No thread was made.
pub const THREAD_REFUSED: u8 = 5;

/// The mutex is held, or the joined thread has not ended.
pub const BUSY: u8 = 6;

/// The allocation found no room, and waits for a barrier.
pub const WAITS_FOR_ROOM: u8 = 7;

/// The thread rests at a safepoint.
pub const REST: u8 = 8;

/// The thread ended.
pub const END: u8 = 9;

/// The step would have reached a byte outside the machine's, or freed what is not live.
pub const TRAP: u8 = 10;

/// The print would have passed the output's limit.
pub const OUTPUT_LIMIT: u8 = 11;

/// The next call had no room on the thread's stack.
pub const NO_STACK: u8 = 12;

/// A barrier that a waiting allocation wanted.
pub const FOR_ROOM: u8 = 0;

/// A barrier that came after a set number of turns.
pub const FOR_EVERY: u8 = 1;

/// An evacuation, which stands directly before a barrier.
pub const EVACUATION: u8 = 2;
