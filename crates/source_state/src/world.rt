use crate::KeptStore;
use ak_words::{Num, Rule};
use block_store::{Access, Cell, Change, Ptr, Value};

/// How far a thread is.
#[derive(Clone, Copy, PartialEq, Eq)]
pub enum Stage {
    /// It runs.
    Running,
    /// Its first function has returned this value.
    Returned(i128),
    /// The same, and another thread has joined it since.
    Joined(i128),
}

/// A thread that was made.
#[derive(Clone, Copy, PartialEq, Eq)]
pub struct ThreadRecord {
    /// The function that it began with.
    pub function: u32,
    /// That one's argument.
    pub argument: Ptr,
    /// How far it is.
    pub stage: Stage,
}

/// Bytes of a block that an action reached.
#[derive(Clone, Copy, PartialEq, Eq)]
pub struct Reached {
    /// The block's name.
    pub block: u64,
    /// Where they begin in the block.
    pub offset: u32,
    /// How many they are.
    pub bytes: u64,
    /// Whether they were written, or else read.
    pub writes: bool,
}

/// What threads share.
#[derive(Drop)]
pub struct World {
    /// The blocks.
    pub store: KeptStore,
    /// The bytes that were printed.
    pub output: Vec<u8>,
    /// The threads by number, in the order in which they were made.
    pub threads: Vec<ThreadRecord>,
    /// What the last action reached that was done.
    pub reached: Vec<Reached>,
}

/// A part of what one call prints.
#[derive(Drop)]
pub enum Printed {
    /// These bytes.
    Bytes(Vec<u8>),
    /// The text at a pointer.
    Text(Ptr),
}

/// An action, with its operands' values (C11 5.1.2.3 p2: side effects, and this project's profile).
#[derive(Drop)]
pub enum SharedAction {
    /// An access that reads.
    Load(Ptr, Access),
    /// An access that writes a value.
    Store(Ptr, Value),
    /// A copy of so many bytes to a place from another, of this alignment, which may be to itself.
    Copy(Ptr, Ptr, u128, u32, bool),
    /// An allocation of so many bytes, each of which starts as this cell.
    Allocate(u128, Cell),
    /// A block of so many bytes in place of another, or of null (C11 7.22.3.5).
    Reallocate(Ptr, u128),
    /// `free`
    Free(Ptr),
    /// A number of this one's type is changed by it, and the old one given (C11 7.17.7.3, 7.17.7.5).
    Change(Ptr, Change, Num),
    /// The number at the first place is compared with that at the second, and becomes this one where they are equal
    /// (C11 7.17.7.4).
    Compare(Ptr, Ptr, Num),
    /// `printf`
    Print(Vec<Printed>),
    /// `mtx_lock`
    Lock(Ptr),
    /// `mtx_unlock`
    Unlock(Ptr),
    /// `mtx_destroy`
    Destroy(Ptr),
    /// A new thread: where its number is stored, its function, and that one's argument.
    Start(Ptr, u32, Ptr),
    /// The end of this thread is awaited, and its result stored there, or nowhere at null.
    Join(u128, Ptr),
    /// The thread's first function returns, with a value or without.
    Finish(Option<i128>),
}

/// What comes of an action.
#[derive(Clone, Copy, Debug, PartialEq, Eq)]
pub enum Done {
    /// It's done, and gives a value or none.
    Went(Option<Value>),
    /// It waits.
    Blocked,
    /// It doesn't take this answer.
    Unfit,
    /// It breaks a rule.
    Broke(Rule),
}
