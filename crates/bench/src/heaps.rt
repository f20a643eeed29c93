//! Measures the sub-heaps: objects are placed one behind the other, every second one is freed, and the gaps are filled again.
ghost use Rattle.std.specs.Prelude.{◌≡◌};

use std::io;
use std::time::Instant;
use sub_heaps::Heaps;

// The most objects that are placed, and how many may live: one more.
const MOST_OBJECTS: u32 = 1_000_000;

// The bytes of the one sub-heap.
const HEAP_BYTES: u32 = 16_777_216;

// Places so many objects of 16 bytes, and gives the place of the last one.
fn place_each(heaps: &mut Heaps, objects: u32) -> Option<u32>
    requires { heaps.old.most ≡ 1000001 }
    ensures { heaps.new.most ≡ 1000001 }
{
    let mut last = None;
    for _number in 0..objects {
        if heaps.live().0 <= MOST_OBJECTS {
            last = heaps.place(16, 0);
        }
    }
    last
}

// Frees every second one of so many objects of 16 bytes, from the first on.
fn free_every_second(heaps: &mut Heaps, objects: u32)
    ensures { heaps.new.most ≡ heaps.old.most }
{
    for number in 0..objects / 2 {
        if let Some(object) = heaps.next_object(number.wrapping_mul(32)) {
            heaps.free(object.at);
        }
    }
}

/// Places so many objects, frees every second one, and fills the gaps.
pub fn run(rt: &HostRuntime, objects: u32) -> io::Result<()> {
    let objects = objects.clamp(2, MOST_OBJECTS);
    let Ok(mut heaps) = Heaps::new(rt.alloc(), 1, HEAP_BYTES, MOST_OBJECTS + 1) else {
        return Err(io::Error::from(io::ErrorKind::OutOfMemory));
    };
    let start = Instant::now(rt)?;
    let first = place_each(&mut heaps, objects).unwrap_or(0);
    free_every_second(&mut heaps, objects);
    let second = place_each(&mut heaps, objects / 2).unwrap_or(0);
    let more = place_each(&mut heaps, 1).unwrap_or(0);
    let micros = start.elapsed(rt)?.as_micros();
    println!(rt;
        "objects: {objects}, the last at {first}; every second one freed, and the last gap filled at {second}; one more at {more}"
    )?;
    eprintln!(rt; "microseconds: {micros}")?;
    Ok(())
}
