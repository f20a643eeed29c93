//! A call of `alaska` under words, over one file in memory and sinks in memory, of which a call may fail.

use crate::calls::{Shown, words_of};
use ak_crew::NoGate;
use ak_io::{MemShelf, MemSink};
use ak_words::NoMemory;
use alaska_run::alaska;
use std::alloc::Global;
use std::marker::Sync;
use std::sync::Wait;
use std::thread::Threads;

// The name of the file.
const NAME: &str = "a.c";

// The most bytes that a sink takes.
const ROOM: usize = 1_000;

/// Which call of the shelf, and which of each sink, fails: the first is 1.
#[derive(Clone, Copy)]
pub struct Failing {
    pub shelf: Option<u32>,
    pub out: Option<u32>,
    pub note: Option<u32>,
}

/// No call fails.
pub const NONE_FAILS: Failing = Failing {
    shelf: None,
    out: None,
    note: None,
};

// The calls that fail, as a list.
fn listed(alloc: Global, call: Option<u32>) -> Result<Vec<u32>, NoMemory> {
    let mut calls = Vec::new(alloc);
    if let Some(call) = call {
        calls.push(call)?;
    }
    Ok(calls)
}

// A shelf that holds one file.
fn shelf_of(alloc: Global, text: &[u8], failing: Option<u32>) -> Result<MemShelf, NoMemory> {
    let mut bytes = Vec::new(alloc);
    bytes.extend_from_slice(text)?;
    let mut files = Vec::new(alloc);
    files.push((String::from_str(alloc, NAME)?, bytes))?;
    MemShelf::new(alloc, files, listed(alloc, failing)?)
}

/// Makes the call, over a shelf that holds this text as `a.c`.
pub fn call_over<R: Threads + Wait + Sync>(
    rt: &R,
    alloc: Global,
    row: &str,
    text: &[u8],
    failing: &Failing,
) -> Result<Shown, NoMemory> {
    let words = words_of(alloc, row)?;
    let mut shelf = shelf_of(alloc, text, failing.shelf)?;
    let mut out = MemSink::new(alloc, ROOM, listed(alloc, failing.out)?)?;
    let mut note = MemSink::new(alloc, ROOM, listed(alloc, failing.note)?)?;
    let ending = alaska(rt, alloc, &words, &mut shelf, &mut out, &mut note, &NoGate);
    Ok(Shown { out, note, ending })
}
