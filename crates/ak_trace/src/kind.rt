//! The kinds of entries.

/// A thread goes out with a worker.
pub const OUT: u8 = 0;

/// A thread comes home, at a safepoint.
pub const HOME: u8 = 1;

/// A thread's local turns, and then its step.
pub const TURN: u8 = 2;

/// All threads are home, and objects are moved.
pub const BARRIER: u8 = 3;

/// An allocation that waited is served after a barrier.
pub const SERVED: u8 = 4;
