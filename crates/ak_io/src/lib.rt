//! The world outside as the program sees it: a shelf of files by name, and a sink for what is written.
//! Promises upward: what is read and written, where the outside tells its bytes; a fault only where its count rose.
//! Stands on ak_words (`NoMemory`) and std.
#![tactic(auto)]

mod calls;
mod file_shelf;
mod mem_shelf;
mod mem_sink;
mod out_sink;
mod outside;

pub use file_shelf::FileShelf;
pub use mem_shelf::MemShelf;
pub use mem_sink::MemSink;
pub use out_sink::OutSink;
pub use outside::{ReadEnd, ReadFault, Shelf, Sink, WriteFault};
