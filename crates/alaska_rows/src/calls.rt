//! A call of `alaska` under words, over real files or another shelf, and sinks in memory.

use ak_crew::Gate;
use ak_io::{FileShelf, MemSink, Shelf};
use ak_words::NoMemory;
use alaska_run::{Ending, alaska};
use std::alloc::{AllocError, Global};
use std::fs::Files;
use std::marker::Sync;
use std::sync::Wait;
use std::thread::Threads;

// The most bytes that a sink in memory takes.
const ROOM: usize = 1_000_000;

/// The words between blanks.
pub fn words_of(alloc: Global, row: &str) -> Result<Vec<String>, AllocError> {
    let mut words = Vec::new(alloc);
    for word in row.split(' ') {
        words.push(String::from_str(alloc, word)?)?;
    }
    Ok(words)
}

/// What a call wrote, and its ending.
#[derive(Drop)]
pub struct Shown {
    pub out: MemSink,
    pub note: MemSink,
    pub ending: Ending,
}

/// Makes the call of these words over this shelf.
pub fn call_on<R: Threads + Wait + Sync, F: Shelf, G: Gate>(
    rt: &R,
    alloc: Global,
    words: &[String],
    shelf: &mut F,
    gate: &G,
) -> Result<Shown, NoMemory> {
    let mut out = MemSink::new(alloc, ROOM, Vec::new(alloc))?;
    let mut note = MemSink::new(alloc, ROOM, Vec::new(alloc))?;
    let ending = alaska(rt, alloc, words, shelf, &mut out, &mut note, gate);
    Ok(Shown { out, note, ending })
}

/// Makes the call of a row over real files.
pub fn call<R: Threads + Wait + Sync + Files, G: Gate>(
    rt: &R,
    alloc: Global,
    row: &str,
    gate: &G,
) -> Result<Shown, NoMemory> {
    let words = words_of(alloc, row)?;
    call_on(rt, alloc, &words, &mut FileShelf::new(rt), gate)
}
