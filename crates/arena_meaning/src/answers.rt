use thiserror::Error;

/// What an allocation answers.
#[derive(Clone, Copy, Debug, PartialEq, Eq)]
pub enum Alloced {
    /// The object's id, and the place where it starts.
    Got { id: u32, place: u32 },
    /// An id is free, but the object fits at no place.
    NoGap,
    /// All ids are in use.
    NoId,
}

/// A word is neither 0 nor the handle of a live object's start.
#[derive(Clone, Copy, Debug, PartialEq, Eq, Error)]
#[error("no live object starts there")]
pub struct NotLive;
