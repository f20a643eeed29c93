//! Moves of objects.

/// A move of an object of `size` bytes.
#[derive(Clone, Copy, Debug, PartialEq, Eq)]
pub struct Move {
    /// The place where the object starts before.
    pub from: u32,
    /// The place where it starts after.
    pub to: u32,
    /// How many bytes it takes.
    pub size: u32,
}
