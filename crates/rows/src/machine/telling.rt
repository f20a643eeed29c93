//! What runs came to, printed.
use crate::machine::rows::Outcome;
use ak_trace::{Entry, how, kind};
use ak_words::NoMemory;
use ak_world::Finished;
use flat_machine::Shared;
use std::io;

/// Prints what a run printed, and its end.
pub fn show<R: Print>(rt: &R, name: &str, told: &Result<Outcome, NoMemory>) -> io::Result<()> {
    let Ok(outcome) = told else {
        return println!(rt; "{name}: no memory");
    };
    println!(rt; "{name}:")?;
    print!(rt; "{}", str::from_utf8(&outcome.output).unwrap_or("?"))?;
    match outcome.end {
        Some(end) => println!(rt; "{end:?}"),
        None => println!(rt; "no end"),
    }
}

/// Prints what barriers did.
pub fn show_barriers<R: Print>(rt: &R, told: &Result<Outcome, NoMemory>) -> io::Result<()> {
    let Ok(outcome) = told else {
        return Ok(());
    };
    let r = outcome.report;
    println!(rt; "waits for room: {}", outcome.waits)?;
    println!(rt; "barriers: {}", r.barriers)?;
    println!(rt;
        "moved: {} objects, {} bytes",
        r.moved_objects, r.moved_bytes
    )?;
    println!(rt; "live: {} objects, {} bytes", r.live_objects, r.live_bytes)?;
    println!(rt; "extent: {} of {}", r.extent, r.heap)?;
    match r.last {
        Some(b) => {
            println!(rt;
                "last barrier: extent {} to {}, room {}",
                b.before, b.after, b.room
            )
        }
        None => println!(rt; "last barrier: none"),
    }
}

// What an entry is of.
fn kind_name(entry: &Entry) -> &'static str {
    match entry.kind {
        kind::OUT => "out",
        kind::HOME => "home",
        kind::TURN => "turn",
        kind::BARRIER => "barrier",
        _ => "served",
    }
}

// How a turn ended.
fn how_name(entry: &Entry) -> &'static str {
    match entry.how {
        how::LOOK => "look",
        how::PLAIN_STEP => "step",
        how::MALLOC_GOT => "got",
        how::END => "end",
        _ => "other",
    }
}

// Prints an entry, and of a turn how it ended.
fn show_entry<R: Print>(rt: &R, entry: &Entry) -> io::Result<()> {
    print!(rt;
        "{} worker {} thread {}",
        kind_name(entry),
        entry.worker,
        entry.thread
    )?;
    if entry.kind == kind::TURN {
        print!(rt; ": {}", how_name(entry))?;
    }
    println!(rt)
}

/// Prints what a run over a world came to: its journal, what it printed, and its end.
pub fn show_world<R: Print>(rt: &R, finished: Finished<Shared>) -> io::Result<()> {
    let Finished {
        end,
        journal,
        shared,
    } = finished;
    for i in 0..journal.journal().len() {
        if let Some(entry) = journal.journal().get(i) {
            show_entry(rt, &entry)?;
        }
    }
    let output = shared.into_output();
    print!(rt; "{}", str::from_utf8(&output).unwrap_or("?"))?;
    println!(rt; "{end:?}")
}
