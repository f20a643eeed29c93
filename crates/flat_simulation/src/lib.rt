//! Laws of the machine of words over all events: what it keeps of storage, and what its state stands for, whatever threads do.
//! Promises upward: after all allowed events the machine's state stands for the source's after the same turns, until one of them breaks a
//! rule of C; whatever rules were broken, objects and table agree, and barriers keep each object's bytes and each pinned place; and what
//! linear code may do, its structured code may do too.
//! Stands on flat_meaning's events, struct_ir's runs and turns over named blocks, emit_code's codes that follow one another, and
//! defrag_move's laws of storage.
#![tactic(auto)]

pub mod laws;
