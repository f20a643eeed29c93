//! Measures an evacuation: objects of 16 bytes stand in each of 256 sub-heaps, and are moved into as few as hold them.
ghost use Rattle.std.specs.Prelude.{◌≡◌};

use evacuate::evacuate;
use move_plan::{Move, Pins};
use std::io;
use std::time::Instant;
use sub_heaps::Heaps;

// How many sub-heaps there are, and the bytes of each.
const SUB_HEAPS: u32 = 256;

const HEAP_BYTES: u32 = 1_048_576;

// The most objects, and how many may live: one more for each sub-heap.
const MOST_OBJECTS: u32 = 1_000_000;

const MOST_LIVE: u32 = 1_000_256;

// Places an object, where one more may live.
fn place(heaps: &mut Heaps, bytes: u32)
    requires { heaps.old.most ≡ 1000256 }
    ensures most { heaps.new.most ≡ 1000256 }
    ensures count { heaps.new.count ≡ heaps.old.count }
{
    if heaps.live().0 < MOST_LIVE {
        heaps.place(u64::from(bytes), 0);
    }
}

// Places so many objects of 16 bytes, and one that takes the rest of a sub-heap.
fn fill_one(heaps: &mut Heaps, each: u32)
    requires { heaps.old.most ≡ 1000256 }
    ensures most { heaps.new.most ≡ 1000256 }
    ensures count { heaps.new.count ≡ heaps.old.count }
{
    for _number in 0..each {
        place(heaps, 16);
    }
    place(heaps, HEAP_BYTES.wrapping_sub(each.wrapping_mul(16)));
}

// Fills each sub-heap.
fn fill_each(heaps: &mut Heaps, each: u32)
    requires { heaps.old.most ≡ 1000256 }
    ensures most { heaps.new.most ≡ 1000256 }
    ensures count { heaps.new.count ≡ heaps.old.count }
{
    for _number in 0..SUB_HEAPS {
        fill_one(heaps, each);
    }
}

// Frees the objects that take the rest of their sub-heaps.
fn free_rests(heaps: &mut Heaps, each: u32)
    ensures most { heaps.new.most ≡ heaps.old.most }
    ensures count { heaps.new.count ≡ heaps.old.count }
{
    for number in 0..SUB_HEAPS {
        let start = number.wrapping_mul(HEAP_BYTES);
        if let Some(object) = heaps.next_object(start.wrapping_add(each.wrapping_mul(16))) {
            heaps.free(object.at);
        }
    }
}

/// Moves so many objects out of thin sub-heaps.
pub fn run(rt: &HostRuntime, objects: u32) -> io::Result<()> {
    let each = objects.clamp(SUB_HEAPS, MOST_OBJECTS) / SUB_HEAPS;
    let Ok(mut heaps) = Heaps::new(rt.alloc(), SUB_HEAPS, HEAP_BYTES, MOST_LIVE) else {
        return Err(io::Error::from(io::ErrorKind::OutOfMemory));
    };
    let Ok(pins) = Pins::with_room(rt.alloc(), 1) else {
        return Err(io::Error::from(io::ErrorKind::OutOfMemory));
    };
    let mut tails: Vec<u32> = Vec::with_capacity(rt.alloc(), SUB_HEAPS as usize)?;
    let mut moves: Vec<Move> = Vec::with_capacity(rt.alloc(), MOST_LIVE as usize)?;
    fill_each(&mut heaps, each);
    free_rests(&mut heaps, each);
    let (live, bytes) = heaps.live();
    let start = Instant::now(rt)?;
    let emptied = evacuate(&heaps, &pins, &mut tails, &mut moves);
    let micros = start.elapsed(rt)?.as_micros();
    let made = moves.len();
    println!(rt;
        "objects: {live}, of {bytes} bytes in {SUB_HEAPS} sub-heaps; {made} moves, and {emptied} sub-heaps hold none now"
    )?;
    eprintln!(rt; "microseconds: {micros}")?;
    Ok(())
}
