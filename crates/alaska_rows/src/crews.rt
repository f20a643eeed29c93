//! Two workers on two threads: many runs of one program, and one in which each worker is held until the other has come and worked.

use crate::calls::{Shown, call};
use crate::meeting::Meeting;
use ak_crew::{Gate, NoGate};
use ak_words::NoMemory;
use std::alloc::Global;
use std::fs::Files;
use std::io;
use std::marker::Sync;
use std::sync::Wait;
use std::thread::Threads;

// How many runs there are of each words.
const RUNS: u32 = 100;

const ROWS: [&str; 3] = [
    "alaska counter.c --workers 2 --every 8",
    "alaska counter.c --workers 2 --every 8 --schedule 1",
    "alaska counter.c --workers 2 --every 8 --schedule 7",
];

// The words of the run in which workers are held.
const HELD: &str = "alaska apart.c --workers 2";

// Runs a program by these words, and tells whether it printed just this and ended with 0.
fn prints<R: Threads + Wait + Sync + Files, G: Gate>(
    rt: &R,
    alloc: Global,
    row: &str,
    gate: &G,
    wanted: &[u8],
) -> Result<bool, NoMemory> {
    let Shown { out, ending, .. } = call(rt, alloc, row, gate)?;
    Ok(ending.status.number() == 0 && out.bytes() == wanted)
}

// How many of the runs printed 2000.
fn count_good<R: Threads + Wait + Sync + Files>(
    rt: &R,
    alloc: Global,
    row: &str,
) -> Result<u32, NoMemory> {
    let mut good = 0;
    for _ in 0..RUNS {
        if prints(rt, alloc, row, &NoGate, b"2000\n")? {
            good = u32::wrapping_add(good, 1);
        }
    }
    Ok(good)
}

// The memory ran out.
fn no_memory(_: NoMemory) -> io::Error {
    io::Error::from(io::ErrorKind::OutOfMemory)
}

/// Prints how many of the runs came to what they should, and of that with held workers also how often one went on without the other.
pub fn show_crews<R: Threads + Wait + Sync + Files + Print>(
    rt: &R,
    alloc: Global,
) -> io::Result<()> {
    for row in ROWS {
        let good = count_good(rt, alloc, row).map_err(no_memory)?;
        println!(rt; "> {row}: {good} of {RUNS} print 2000")?;
    }
    let meeting = Meeting::new();
    let good = prints(rt, alloc, HELD, &meeting, b"ok\n").map_err(no_memory)?;
    println!(rt; "> {HELD}: {good}, {} missed", meeting.missed())
}
