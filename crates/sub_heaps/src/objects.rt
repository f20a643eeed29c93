/// An object that lives in the sub-heaps.
#[derive(Clone, Copy, Debug, PartialEq, Eq)]
pub struct Object {
    /// The place where it starts, in bytes from the start of the first sub-heap.
    pub at: u32,
    /// How many bytes it takes, a multiple of 16.
    pub size: u32,
    /// Whose it is: a number of the caller's, which nothing here reads.
    pub owner: u32,
}
