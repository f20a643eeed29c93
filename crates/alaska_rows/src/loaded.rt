//! Each row that runs a text, built and loaded: mode build writes its code, and mode load runs these bytes under the row's own options. What is
//! written then and how it ends is set beside mode run's; a text that is refused is refused by mode build too. Then bytes that are no code file,
//! and code that isn't safe for moves.

use crate::calls::{Shown, call, call_on, words_of};
use crate::{ROWS, Row, is_shown, show};
use ak_crew::NoGate;
use ak_io::{FileShelf, MemShelf};
use ak_words::NoMemory;
use run_notes::Status;
use std::alloc::Global;
use std::fs::Files;
use std::io;
use std::marker::Sync;
use std::sync::Wait;
use std::thread::Threads;

// The rows whose code files are changed.
const HEAP: Row = Row("alaska heap.c", "ended live heap.c:");

const MOVES: Row = Row("alaska moves.c --every 1", "ended live moves.c:");

// The tag of a safepoint, and the count of a list of one slot.
const SAFEPOINT: [u8; 5] = [9, 1, 0, 0, 0];

// How many rows came to what.
#[derive(Clone, Copy)]
struct Counts {
    alike: u32,
    refused: u32,
    other: u32,
}

// The words of a row in another mode.
fn words_in(alloc: Global, row: &Row, mode: &str) -> Result<Vec<String>, NoMemory> {
    let mut words = words_of(alloc, row.0)?;
    words.push(String::from_str(alloc, "--mode")?)?;
    words.push(String::from_str(alloc, mode)?)?;
    Ok(words)
}

// Builds the text of a row.
fn build<R: Threads + Wait + Sync + Files>(
    rt: &R,
    alloc: Global,
    row: &Row,
) -> Result<Shown, NoMemory> {
    let words = words_in(alloc, row, "build")?;
    call_on(rt, alloc, &words, &mut FileShelf::new(rt), &NoGate)
}

// Loads these bytes, which a shelf in memory has as the row's file.
fn load<R: Threads + Wait + Sync>(
    rt: &R,
    alloc: Global,
    row: &Row,
    bytes: &[u8],
) -> Result<Shown, NoMemory> {
    let words = words_in(alloc, row, "load")?;
    let name = String::from_str(alloc, row.0.split(' ').nth(1).unwrap_or(""))?;
    let mut files = Vec::new(alloc);
    files.push((name, bytes.to_vec(alloc)?))?;
    let mut shelf = MemShelf::new(alloc, files, Vec::new(alloc))?;
    call_on(rt, alloc, &words, &mut shelf, &NoGate)
}

// Whether a row runs a text.
fn is_run(row: &Row) -> bool {
    !row.0.contains("--mode")
}

// Which lines of note are the same at each call: all where there is one worker, and else those that the row shows.
fn steady_lines(row: &Row) -> &'static str {
    if row.0.contains("--workers") {
        row.1
    } else {
        "all"
    }
}

// Whether two texts of note have the same lines of those that begin so.
fn are_lines_alike(one: &[u8], other: &[u8], words: &str) -> bool {
    let one = str::from_utf8(one).unwrap_or("?");
    let other = str::from_utf8(other).unwrap_or("!");
    one.lines().count() == other.lines().count()
        && one.lines().zip(other.lines()).all(|(a, b)| a == b
            || (!is_shown(a, words) && !is_shown(b, words)))
}

// Whether two calls wrote the same and ended so.
fn are_alike(one: &Shown, other: &Shown, words: &str) -> bool {
    one.ending.status == other.ending.status
        && one.out.bytes() == other.out.bytes()
        && are_lines_alike(one.note.bytes(), other.note.bytes(), words)
}

// Runs the row's text, builds it, and loads what was built.
fn judge<R: Threads + Wait + Sync + Files>(
    rt: &R,
    alloc: Global,
    row: &Row,
    counts: &mut Counts,
) -> Result<(), NoMemory> {
    let run = call(rt, alloc, row.0, &NoGate)?;
    let built = build(rt, alloc, row)?;
    if built.ending.status != Status::Built {
        if are_alike(&run, &built, "all") {
            counts.refused = u32::wrapping_add(counts.refused, 1);
        } else {
            counts.other = u32::wrapping_add(counts.other, 1);
        }
        return Ok(());
    }
    let loaded = load(rt, alloc, row, built.out.bytes())?;
    if are_alike(&run, &loaded, steady_lines(row)) {
        counts.alike = u32::wrapping_add(counts.alike, 1);
    } else {
        counts.other = u32::wrapping_add(counts.other, 1);
    }
    Ok(())
}

// Each row that runs a text, and how many went how.
fn show_rows<R: Threads + Wait + Sync + Files + Print>(rt: &R, alloc: Global) -> io::Result<()> {
    let mut counts = Counts {
        alike: 0,
        refused: 0,
        other: 0,
    };
    for row in ROWS.iter().filter(|row| is_run(row)) {
        let other = counts.other;
        match judge(rt, alloc, row, &mut counts) {
            Ok(()) if counts.other == other => {}
            _ => println!(rt; "> {}: built and loaded it went another way", row.0)?,
        }
    }
    println!(rt;
        "> built and loaded: {} rows as by mode run, {} that run in neither, {} otherwise",
        counts.alike, counts.refused, counts.other
    )
}

// The bytes with one zero byte more.
fn with_a_byte(alloc: Global, bytes: &[u8]) -> Result<Vec<u8>, NoMemory> {
    let mut longer = bytes.to_vec(alloc)?;
    longer.push(0)?;
    Ok(longer)
}

// The bytes, where the first safepoint that lists one slot lists none.
fn without_a_slot(alloc: Global, bytes: &[u8]) -> Result<Vec<u8>, NoMemory> {
    let place = bytes
        .windows(SAFEPOINT.len())
        .position(|front| front == SAFEPOINT.as_slice())
        .unwrap_or(0);
    let (before, list) = bytes.split_at(place.min(bytes.len()));
    let mut fewer = before.to_vec(alloc)?;
    fewer.extend_from_slice(&[9, 0, 0, 0, 0])?;
    fewer.extend_from_slice(&list[list.len().min(9)..])?;
    Ok(fewer)
}

// What comes of loading these bytes in place of the row's file.
fn show_loaded<R: Threads + Wait + Sync + Print>(
    rt: &R,
    alloc: Global,
    row: &Row,
    what: &'static str,
    bytes: &[u8],
) -> io::Result<()> {
    match load(rt, alloc, row, bytes) {
        Ok(shown) => show(rt, &Row(what, row.1), &shown),
        Err(NoMemory) => println!(rt; "no memory"),
    }
}

// How a code file is changed.
#[derive(Clone, Copy)]
enum Change {
    MoreBytes,
    FewerSlots,
}

fn changed(alloc: Global, bytes: &[u8], change: Change) -> Result<Vec<u8>, NoMemory> {
    match change {
        Change::MoreBytes => with_a_byte(alloc, bytes),
        Change::FewerSlots => without_a_slot(alloc, bytes),
    }
}

// What was built of a row's text, loaded as it is and changed.
fn show_changed<R: Threads + Wait + Sync + Files + Print>(
    rt: &R,
    alloc: Global,
    row: &Row,
    change: Change,
) -> io::Result<()> {
    let Ok(built) = build(rt, alloc, row) else {
        return println!(rt; "no memory");
    };
    let bytes = built.out.bytes();
    show_loaded(rt, alloc, row, "as it was built", bytes)?;
    match changed(alloc, bytes, change) {
        Ok(bytes) => show_loaded(rt, alloc, row, "changed", &bytes),
        Err(NoMemory) => println!(rt; "no memory"),
    }
}

/// Makes each call.
pub fn show_loads<R: Threads + Wait + Sync + Files + Print>(
    rt: &R,
    alloc: Global,
) -> io::Result<()> {
    show_rows(rt, alloc)?;
    show_loaded(rt, alloc, &HEAP, "no bytes", b"")?;
    show_loaded(rt, alloc, &HEAP, "ALSK", b"ALSK")?;
    show_loaded(rt, alloc, &HEAP, "ALSX", b"ALSX")?;
    show_changed(rt, alloc, &HEAP, Change::MoreBytes)?;
    show_changed(rt, alloc, &MOVES, Change::FewerSlots)
}
