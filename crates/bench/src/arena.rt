//! Measures the arena: objects are placed, every second one is freed, and the others slide down with their bytes.
ghost use Rattle.std.specs.Prelude.{◌≡◌, ◌≤◌, [], length};
ghost use Rattle.sub_heaps.specs.SubHeaps.{IsShape};

use ak_words::NoMemory;
use defrag_move::{Alloced, Arena};
use handle_words::make;
use move_plan::{Pins, Plan, is_legal, slide};
use std::alloc::Global;
use std::io;
use std::time::Instant;

/// The most objects that are placed.
pub const MOST_OBJECTS: u32 = 1_000_000;

// The bytes of a sub-heap, and how many objects find a place there whatever their sizes.
const HEAP_BYTES: u32 = 16_777_216;

const HEAP_OBJECTS: u32 = 65_536;

// Where the sub-heaps begin: no plain bytes stand before them.
const START: u64 = 4096;

// Where the sizes that are drawn begin.
const SEED: u32 = 1;

// The next number that is drawn.
fn draw(seed: u32) -> u32 {
    seed.wrapping_mul(1_103_515_245).wrapping_add(12_345)
}

/// An arena of so many sub-heaps of this size, for so many objects.
pub fn make_arena(alloc: Global, count: u32, size: u32, ids: u32) -> Result<Arena, NoMemory>
    requires { IsShape count size ids }
{
    Arena::new(alloc, 0, count, size, ids)
}

// Places so many objects of 16 to 256 bytes.
fn place_each(arena: &mut Arena, objects: u32) {
    let mut seed = SEED;
    for _number in 0..objects {
        seed = draw(seed);
        arena.alloc(u64::from(seed / 65_536 % 241 + 16));
    }
}

/// Writes into each of the objects with these ids its id.
pub fn mark_each(arena: &mut Arena, objects: u32)
    requires { objects ≤ 1000000 }
{
    for id in 0..objects {
        let at = arena.look(make(id, 0));
        let _ = arena.store(at, 8, u64::from(id));
    }
}

/// How many objects hold their ids.
pub fn marked(arena: &Arena, objects: u32) -> u32
    requires { objects ≤ 1000000 }
{
    let mut found: u32 = 0;
    for id in 0..objects {
        let at = arena.look(make(id, 0));
        if arena.flat().load(at, 8) == Ok(u64::from(id)) {
            found = found.wrapping_add(1);
        }
    }
    found
}

/// Frees every second one of the objects, from the first on.
pub fn free_every_second(arena: &mut Arena, objects: u32)
    requires { objects ≤ 1000000 }
{
    for half in 0..objects / 2 {
        let _ = arena.free(make(half * 2, 0));
    }
}

/// How many bytes the moves take along.
pub fn bytes_of(plan: &Plan) -> u64 {
    let mut bytes: u64 = 0;
    for turn in 0..plan.len() {
        if let Some(m) = plan.get(turn) {
            bytes = bytes.wrapping_add(u64::from(m.size));
        }
    }
    bytes
}

// Copies the bytes of each move again, without a move.
fn copy_again(arena: &mut Arena, plan: &Plan) {
    for turn in 0..plan.len() {
        if let Some(m) = plan.get(turn) {
            let (to, from) = (START + u64::from(m.to), START + u64::from(m.from));
            let _ = arena.copy(to, from, u64::from(m.size));
        }
    }
}

// What was done: how many objects live, in how many bytes, and what moved.
#[derive(Clone, Copy)]
struct Report {
    live: u32,
    bytes: u64,
    moves: u32,
    taken: u64,
    legal: bool,
    before: u64,
    after: u64,
    kept: u32,
}

// How long it took, in microseconds.
#[derive(Clone, Copy)]
struct Times {
    planned: u128,
    judged: u128,
    moved: u128,
    copied: u128,
}

// Slides all objects down.
fn slide_down(
    rt: &HostRuntime,
    arena: &mut Arena,
    plan: &mut Plan,
    pins: &Pins,
) -> io::Result<(bool, Times)>
    requires empty { plan.old.moves ≡ [] }
    requires room { length arena.old.heaps.objects ≤ plan.old.room }
{
    let start = Instant::now(rt)?;
    slide(arena.heaps(), pins, plan);
    let planned = start.elapsed(rt)?.as_micros();
    let start = Instant::now(rt)?;
    let legal = is_legal(arena.heaps(), pins, plan);
    let judged = start.elapsed(rt)?.as_micros();
    let start = Instant::now(rt)?;
    arena.apply(plan.moves(), pins);
    let moved = start.elapsed(rt)?.as_micros();
    let times = Times {
        planned,
        judged,
        moved,
        copied: 0,
    };
    Ok((legal, times))
}

// Slides the objects down, of which so many were placed, and then copies their bytes again.
fn measure(rt: &HostRuntime, arena: &mut Arena, objects: u32) -> io::Result<(Report, Times)>
    requires { objects ≤ 1000000 }
{
    let (live, bytes) = arena.heaps().live();
    let before = arena.heaps().extent();
    let Ok(pins) = Pins::with_room(rt.alloc(), 0) else {
        return Err(io::Error::from(io::ErrorKind::OutOfMemory));
    };
    let Ok(mut plan) = Plan::with_room(rt.alloc(), live) else {
        return Err(io::Error::from(io::ErrorKind::OutOfMemory));
    };
    let (legal, times) = slide_down(rt, arena, &mut plan, &pins)?;
    let after = arena.heaps().extent();
    let kept = marked(arena, objects);
    let start = Instant::now(rt)?;
    copy_again(arena, &plan);
    let copied = start.elapsed(rt)?.as_micros();
    let report = Report {
        live,
        bytes,
        moves: plan.len(),
        taken: bytes_of(&plan),
        legal,
        before,
        after,
        kept,
    };
    Ok((report, Times { copied, ..times }))
}

// Fills an arena, and measures it.
fn fill_and_measure(rt: &HostRuntime, objects: u32) -> io::Result<(u128, Report, Times)>
    requires some { 1 ≤ objects }
    requires bound { objects ≤ 1000000 }
{
    let heaps = objects / HEAP_OBJECTS + 1;
    let Ok(mut arena) = make_arena(rt.alloc(), heaps, HEAP_BYTES, objects) else {
        return Err(io::Error::from(io::ErrorKind::OutOfMemory));
    };
    let start = Instant::now(rt)?;
    place_each(&mut arena, objects);
    let places = start.elapsed(rt)?.as_micros();
    mark_each(&mut arena, objects);
    free_every_second(&mut arena, objects);
    let (report, times) = measure(rt, &mut arena, objects)?;
    Ok((places, report, times))
}

/// Places so many objects, frees every second one, and slides the others down.
pub fn run(rt: &HostRuntime, objects: u32) -> io::Result<()> {
    let objects = objects.clamp(2, MOST_OBJECTS);
    let (places, report, times) = fill_and_measure(rt, objects)?;
    println!(rt;
        "{objects} objects placed, {} left of {} bytes",
        report.live, report.bytes
    )?;
    println!(rt;
        "{} moves of {} bytes, legal: {}",
        report.moves, report.taken, report.legal
    )?;
    println!(rt;
        "they reach {} bytes before and {} after, and {} hold their ids",
        report.before, report.after, report.kept
    )?;
    eprintln!(rt;
        "microseconds: places {places}, plan {}, judged {}",
        times.planned, times.judged
    )?;
    eprintln!(rt; "moves {}, copies {}", times.moved, times.copied)?;
    Ok(())
}
