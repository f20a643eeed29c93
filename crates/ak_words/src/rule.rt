/// A rule of C that a run can break. Rules marked "own" are this project's profile.
#[derive(Clone, Copy, Debug, PartialEq, Eq, Hash)]
pub enum Rule {
    /// A signed result that its type does not hold (C11 6.5 p5, 6.5.5).
    C1,
    /// A zero divisor (C11 6.5.5 p5).
    C2,
    /// A shift count below 0 or at least the width, or a left shift of a signed number that is
    /// negative or whose result its type does not hold (C11 6.5.7).
    C3,
    /// Reading a local that was not set (C11 6.3.2.1 p2); own: reading a cell that was not
    /// written as a number or a pointer.
    C4,
    /// An access through null, to a dead block or outside its block (C11 6.5.3.2, 6.5.6).
    C5,
    /// An access at an offset that is not a multiple of the alignment (C11 6.3.2.3).
    C6,
    /// A pointer sum that leaves its block, or one of null and a number other than 0
    /// (C11 6.5.6).
    C7,
    /// The order or difference of pointers into different blocks, or of null and another
    /// (C11 6.5.6, 6.5.8).
    C8,
    /// Comparing, testing, adding to or subtracting a pointer to a dead block (C11 6.2.4).
    C9,
    /// Freeing what is neither null nor the start of a live heap block (C11 7.22.3.3).
    C10,
    /// A copy between ranges that overlap, but for the assignment of a struct to itself
    /// (C11 6.5.16.1, 7.24.2.1).
    C11,
    /// A write to a string literal (C11 6.4.5).
    C12,
    /// A lock by the thread that holds the mutex, or an unlock by one that does not
    /// (C11 7.26.4); own: destroying a mutex that is held.
    C13,
    /// A second join of a thread (C11 7.26.5.6); own: joining a thread that was never made, or
    /// oneself.
    C14,
    /// Using the value of a call that ended without one (C11 6.9.1).
    C15,
    /// Own: a number read from a pointer's cells, or a pointer read from other cells.
    C16,
}
