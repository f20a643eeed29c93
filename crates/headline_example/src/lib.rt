//! What the clause of `alaska` says of one small text, which takes an object, writes and prints an int in it, and gives it back: a caller with the words
//! and the text of that program, proved from what `alaska` promises. What it printed is 42 and a newline, or memory was wanting, or a read or a
//! write failed.
//! Promises upward: the text's typed tree, each run of it under every order, that its journals are short and its malloc gets an object, and what
//! that caller comes to; nothing stands on it.
//! Stands on alaska_run, on the definitions of reading, of meaning, of the code, its passes and the machine, and on the laws of the grammar and of
//! typing.
#![tactic(auto)]

mod calling;
pub mod text_laws;
pub mod walk_laws;

pub use calling::call_heap_text;
