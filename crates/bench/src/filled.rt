//! Measures new objects of 1 MiB: some have their bytes copied from an object, and some are cleared.
use ak_words::NoMemory;
use defrag_move::{Alloced, Arena};
use handle_words::make;
use std::alloc::Global;
use std::io;
use std::time::Instant;

// The bytes of each object; two of them fill the one sub-heap.
const BYTES: u64 = 1_048_576;

// Where the first object starts: no plain bytes stand before it.
const START: u64 = 4096;

// What the first object holds at both its ends.
const MARK: u64 = 42;

// The most objects of each sort.
const MOST_ROUNDS: u32 = 100_000;

// What each new object is answered: the first one stays where it is.
const SECOND: Alloced = Alloced::Got {
    id: 1,
    place: 1_048_576,
};

// An arena of two such objects, with the first in place.
fn with_one(alloc: Global) -> Result<Arena, NoMemory> {
    let mut arena = Arena::new(alloc, 0, 1, 2_097_152, 2)?;
    arena.alloc(BYTES);
    let _ = arena.store(START, 8, MARK);
    let _ = arena.store(START + BYTES - 8, 8, MARK);
    Ok(arena)
}

// Whether the second object holds a number at both its ends.
fn holds(arena: &Arena, number: u64) -> bool {
    let second = START + BYTES;
    let flat = arena.flat();
    flat.load(second, 8) == Ok(number) && flat.load(second + BYTES - 8, 8) == Ok(number)
}

// Takes so many copies of the first object, one after the other. Gives how many of them hold the mark.
fn copy_each(arena: &mut Arena, rounds: u32) -> u32 {
    let mut held: u32 = 0;
    for _round in 0..rounds {
        if arena.alloc_copy(make(0, 0), BYTES) == SECOND && holds(arena, MARK) {
            held = held.wrapping_add(1);
        }
        let _ = arena.free(make(1, 0));
    }
    held
}

// Takes so many cleared objects, one after the other. Gives how many of them hold 0.
fn clear_each(arena: &mut Arena, rounds: u32) -> u32 {
    let mut held: u32 = 0;
    for _round in 0..rounds {
        if arena.alloc_zero(BYTES) == SECOND && holds(arena, 0) {
            held = held.wrapping_add(1);
        }
        let _ = arena.free(make(1, 0));
    }
    held
}

/// Takes so many copies of one object, and then as many cleared ones.
pub fn run(rt: &HostRuntime, rounds: u32) -> io::Result<()> {
    let rounds = rounds.min(MOST_ROUNDS);
    let Ok(mut arena) = with_one(rt.alloc()) else {
        return Err(io::Error::from(io::ErrorKind::OutOfMemory));
    };
    let start = Instant::now(rt)?;
    let copied = copy_each(&mut arena, rounds);
    let copies = start.elapsed(rt)?.as_micros();
    let start = Instant::now(rt)?;
    let cleared = clear_each(&mut arena, rounds);
    let clears = start.elapsed(rt)?.as_micros();
    println!(rt;
        "{rounds} objects of {BYTES} bytes copied, of which {copied} hold the mark, and as many cleared, of which {cleared} hold 0"
    )?;
    eprintln!(rt; "microseconds: copies {copies}, clears {clears}")
}
