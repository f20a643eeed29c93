//! What a call of `alaska` asks of the world outside: the bytes of FILE at its start, and what out and note take at its end.
//! Promises upward: what was read is all of the file, or its first bytes where it has more than may be, or the count of that file rose; out and note took all, or the count of one of them rose.
//! Stands on ak_words, ak_io and run_notes for the status.
#![tactic(auto)]

mod reading;
mod writing;

pub use reading::{MOST_BYTES, MOST_FILE_BYTES, TextRead, read_text};
pub use writing::write_ending;
