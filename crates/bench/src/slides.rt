//! Measures slides: objects of one size are placed, every second one is freed, and the others slide down with their bytes.
use crate::arena::{MOST_OBJECTS, bytes_of, free_every_second, make_arena, mark_each, marked};
use defrag_move::Arena;
use move_plan::{Pins, Plan, slide};
use std::io;
use std::time::Instant;

// The bytes of each sub-heap, and how many sub-heaps there are.
const HEAP_BYTES: u32 = 16_777_216;

const HEAPS: u32 = 4;

// The least and the greatest size.
const LEAST_SIZE: u32 = 16;

const GREATEST_SIZE: u32 = 65_536;

// Places so many objects of a size, and writes all their bytes.
fn place_each(arena: &mut Arena, objects: u32, size: u32) {
    for _number in 0..objects {
        arena.alloc_zero(u64::from(size));
    }
}

// What slid, with how many bytes, and how long it took, in microseconds.
#[derive(Clone, Copy)]
struct Slid {
    moves: u32,
    bytes: u64,
    micros: u128,
}

// Slides the objects down.
fn slide_down(rt: &HostRuntime, arena: &mut Arena) -> io::Result<Slid> {
    let (live, _) = arena.heaps().live();
    let Ok(pins) = Pins::with_room(rt.alloc(), 0) else {
        return Err(io::Error::from(io::ErrorKind::OutOfMemory));
    };
    let Ok(mut plan) = Plan::with_room(rt.alloc(), live) else {
        return Err(io::Error::from(io::ErrorKind::OutOfMemory));
    };
    slide(arena.heaps(), &pins, &mut plan);
    let start = Instant::now(rt)?;
    arena.slide(plan.moves(), &pins);
    let micros = start.elapsed(rt)?.as_micros();
    Ok(Slid {
        moves: plan.len(),
        bytes: bytes_of(&plan),
        micros,
    })
}

/// Fills the sub-heaps with objects of a size, but with no more than `most`, frees every second one, and slides the others down.
pub fn run(rt: &HostRuntime, size: u32, most: u32) -> io::Result<()> {
    let size = size.clamp(LEAST_SIZE, GREATEST_SIZE);
    let objects = (HEAPS * HEAP_BYTES / size).min(most).clamp(2, MOST_OBJECTS);
    let Ok(mut arena) = make_arena(rt.alloc(), HEAPS, HEAP_BYTES, objects) else {
        return Err(io::Error::from(io::ErrorKind::OutOfMemory));
    };
    place_each(&mut arena, objects, size);
    mark_each(&mut arena, objects);
    free_every_second(&mut arena, objects);
    let slid = slide_down(rt, &mut arena)?;
    let kept = marked(&arena, objects);
    println!(rt; "{objects} objects of {size} bytes placed, every second one freed")?;
    println!(rt;
        "{} of them slide with {} bytes, and {kept} hold their ids",
        slid.moves, slid.bytes
    )?;
    eprintln!(rt; "microseconds: slide {}", slid.micros)
}
