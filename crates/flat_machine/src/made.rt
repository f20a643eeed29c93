/// A thread that was made: its first function, the word of its argument, and that of its result once it has ended.
#[derive(Clone, Copy)]
pub(crate) struct MadeThread {
    pub function: u32,
    pub argument: u64,
    pub result: Option<u64>,
}
