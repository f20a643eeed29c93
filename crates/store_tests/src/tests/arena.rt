//! Calls of the arena, and what a barrier does, proved from the contracts of the arena alone.
ghost use Rattle.std.specs.Prelude.{◌≡◌, ◌≤◌, [], length};
ghost use Rattle.std.specs.FinSet as set;
ghost use Rattle.move_plan.specs.Holding.{is_pinned};
ghost use Rattle.move_plan.specs.Sliding.{IsSlid, holds};
ghost use Rattle.arena_meaning.specs.Moves.{KeepsObjects};

use ak_words::NoMemory;
use defrag_move::{Alloced, Arena, NotLive, objects_are_counted};
use flat_store::OutsideFlat;
use handle_table::{PinFrame, PinWords, unite};
use handle_words::make;
use move_plan::{Pins, Plan, slide};
use std::alloc::Global;
use std::process::Abort;
use std::test::Fail;

// What a barrier does: it pins what the words name, and slides everything else down.
fn compact(arena: &mut Arena, words: &PinWords, pins: &mut Pins, plan: &mut Plan)
    requires plan { plan.old.moves ≡ [] }
    requires room { length arena.old.heaps.objects ≤ plan.old.room }
    requires unpinned { pins.old.places ≡ set.empty }
    requires pins { length words.now.words ≤ pins.old.room }
    ensures slid { IsSlid (holds (is_pinned pins.new) arena.old.heaps.objects) arena.new.heaps }
    ensures kept { KeepsObjects (is_pinned pins.new) plan.new.moves arena.old arena.new }
{
    objects_are_counted();
    arena.pins_of(words, pins);
    slide(arena.heaps(), pins, plan);
    arena.apply(plan.moves(), pins);
}

// The same with pins and a plan of its own, which have room for so many. Gives the pins.
fn compact_within(
    rt: &impl Abort,
    alloc: Global,
    arena: &mut Arena,
    words: &PinWords,
    (most_pins, most_moves): (u32, u32),
) -> Result<Pins, NoMemory> {
    let mut pins = Pins::with_room(alloc, most_pins)?;
    let mut plan = Plan::with_room(alloc, most_moves)?;
    assert!(rt; words.len() <= most_pins);
    assert!(rt; arena.heaps().live().0 <= most_moves);
    compact(arena, words, &mut pins, &mut plan);
    Ok(pins)
}

// Takes two objects, writes at both ends of the second, and frees the first.
fn leave_a_gap(arena: &mut Arena) -> Result<[Alloced; 2], Fail> {
    let taken = [arena.alloc(16), arena.alloc(64)];
    arena.store(4224, 8, 7)?;
    arena.store(4280, 8, 9)?;
    arena.free(make(0, 0))?;
    Ok(taken)
}

// Where the second object's ends are, and what they hold.
fn ends(arena: &Arena) -> ([u64; 2], [Result<u64, OutsideFlat>; 2]) {
    let first = arena.look(make(1, 0));
    let last = arena.look(make(1, 56));
    let held = [arena.flat().load(first, 8), arena.flat().load(last, 8)];
    ([first, last], held)
}

fn move_down(rt: &impl Abort, alloc: Global, arena: &mut Arena) -> Result<(), Fail> {
    let taken = [
        Alloced::Got { id: 0, place: 0 },
        Alloced::Got { id: 1, place: 16 },
    ];
    assert_eq!(rt; leave_a_gap(arena)?, taken);
    let words = PinWords::with_room(alloc, 0)?;
    compact_within(rt, alloc, arena, &words, (0, 2))?;
    assert_eq!(rt; ends(arena), ([4208, 4264], [Ok(7), Ok(9)]));
    Ok(())
}

#[test]
fn moves_an_object_onto_bytes_of_itself(rt: HostRuntime) -> Result<(), Fail> {
    let mut arena = Arena::new(rt.alloc(), 100, 1, 128, 2)?;
    move_down(&rt, rt.alloc(), &mut arena)
}

// Takes objects of so many bytes in turn, each with its answer.
fn check_answers(rt: &impl Abort, arena: &mut Arena, rows: &[(u64, Alloced)]) {
    for (bytes, answer) in rows {
        assert_eq!(rt; arena.alloc(*bytes), *answer, "{bytes} bytes");
    }
}

#[test]
fn answers_for_want_of_an_id_or_of_a_gap(rt: HostRuntime) -> Result<(), Fail> {
    let mut arena = Arena::new(rt.alloc(), 0, 2, 64, 3)?;
    let rows = [
        (49, Alloced::Got { id: 0, place: 0 }),
        (65, Alloced::NoGap),
        (u64::MAX, Alloced::NoGap),
        (0, Alloced::Got { id: 1, place: 64 }),
        (17, Alloced::Got { id: 2, place: 80 }),
        (1, Alloced::NoId),
        (u64::MAX, Alloced::NoId),
    ];
    check_answers(&rt, &mut arena, &rows);
    let freed = [arena.free(make(0, 0)), arena.free(make(1, 0))];
    assert_eq!(rt; freed, [Ok(()), Ok(())]);
    check_answers(&rt, &mut arena, &[(16, Alloced::Got { id: 0, place: 0 })]);
    let left = (arena.look(make(2, 20)), arena.heaps().live());
    assert_eq!(rt; left, (4196, (2, 48)));
    Ok(())
}

#[test]
fn frees_by_the_word_of_a_start_alone(rt: HostRuntime) -> Result<(), Fail> {
    let mut arena = Arena::new(rt.alloc(), 0, 1, 64, 2)?;
    check_answers(&rt, &mut arena, &[(32, Alloced::Got { id: 0, place: 0 })]);
    let refused = [
        arena.free(make(0, 8)),
        arena.free(make(1, 0)),
        arena.free(make(7, 0)),
        arena.free(4096),
        arena.free(1),
    ];
    assert_eq!(rt; refused, [Err(NotLive); 5]);
    let rows = [
        (arena.free(0), arena.look(make(0, 8))),
        (arena.free(make(0, 0)), arena.look(make(0, 8))),
    ];
    assert_eq!(rt; rows, [(Ok(()), 4104), (Ok(()), 0)]);
    assert_eq!(rt; arena.free(make(0, 0)), Err(NotLive));
    Ok(())
}

#[test]
fn says_that_no_object_starts_there(rt: HostRuntime) -> Result<(), Fail> {
    let words = format!(in rt.alloc(); "{NotLive}")?;
    assert_eq!(rt; words.as_str(), "no live object starts there");
    Ok(())
}

// Writes four bytes, copies them over two of themselves, and reads.
fn read_after_copy(arena: &mut Arena) -> Result<u64, OutsideFlat> {
    arena.store(4096, 4, 0x04030201)?;
    arena.copy(4098, 4096, 4)?;
    arena.flat().load(4096, 8)
}

#[test]
fn copies_within_its_bytes(rt: HostRuntime) -> Result<(), Fail> {
    let mut arena = Arena::new(rt.alloc(), 16, 1, 16, 1)?;
    assert_eq!(rt; read_after_copy(&mut arena), Ok(0x040302010201));
    let refused = [arena.store(4127, 2, 1), arena.copy(4096, 4128, 1)];
    assert_eq!(rt; refused, [Err(OutsideFlat(4128)); 2]);
    Ok(())
}

// Takes three objects and frees the first.
fn leave_the_upper(arena: &mut Arena) -> Result<[Alloced; 3], NotLive> {
    let taken = [arena.alloc(16), arena.alloc(16), arena.alloc(16)];
    arena.free(make(0, 0))?;
    Ok(taken)
}

// What three slots name: the object at 32, one that was freed, and an address.
fn words_of_slots(alloc: Global) -> Result<PinWords, NoMemory> {
    let mut frame = PinFrame::with_slots(alloc, 3)?;
    frame.set(0, make(2, 12), 4140);
    frame.set(1, make(0, 0), 4096);
    frame.set(2, 4112, 4112);
    let mut words = PinWords::with_room(alloc, 3)?;
    unite(&frame, 0, [0, 1, 2].as_slice(), &mut words);
    Ok(words)
}

fn pin_one(rt: &impl Abort, alloc: Global, arena: &mut Arena) -> Result<(), Fail> {
    let taken = [
        Alloced::Got { id: 0, place: 0 },
        Alloced::Got { id: 1, place: 16 },
        Alloced::Got { id: 2, place: 32 },
    ];
    assert_eq!(rt; leave_the_upper(arena), Ok(taken));
    let words = words_of_slots(alloc)?;
    let pins = compact_within(rt, alloc, arena, &words, (3, 3))?;
    assert_eq!(rt; [pins.has(0), pins.has(32)], [false, true]);
    let places = [arena.look(make(1, 0)), arena.look(make(2, 0))];
    assert_eq!(rt; places, [4096, 4128]);
    Ok(())
}

#[test]
fn pins_what_handles_name(rt: HostRuntime) -> Result<(), Fail> {
    let mut arena = Arena::new(rt.alloc(), 0, 1, 64, 3)?;
    pin_one(&rt, rt.alloc(), &mut arena)
}

// Marks both ends of the first object, and of where the last will be.
fn mark_ends(arena: &mut Arena) -> Result<(), OutsideFlat> {
    arena.store(8192, 8, 6)?;
    arena.store(8200, 8, 7)?;
    arena.store(8256, 8, 8)?;
    arena.store(8312, 8, 9)
}

// What so many pairs of bytes hold, eight each, from an address on.
fn held(arena: &Arena, at: [u64; 2]) -> [Result<u64, OutsideFlat>; 2] {
    let [first, last] = at;
    [arena.flat().load(first, 8), arena.flat().load(last, 8)]
}

// Takes a larger copy of the first object, and frees that one once no id is left.
fn take_a_copy(rt: &impl Abort, arena: &mut Arena) {
    let word = make(0, 0);
    let copied = arena.alloc_copy(word, 40);
    assert_eq!(rt; copied, Alloced::Got { id: 1, place: 16 });
    assert_eq!(rt; held(arena, [8208, 8216]), [Ok(6), Ok(7)]);
    check_answers(rt, arena, &[(16, Alloced::NoId)]);
    let none = [arena.alloc_copy(word, 16), arena.alloc_zero(16)];
    assert_eq!(rt; none, [Alloced::NoId; 2]);
    assert_eq!(rt;
        [arena.is_live(word), arena.is_live(word + 8)],
        [true, false]
    );
    assert_eq!(rt; arena.free(word), Ok(()));
    assert_eq!(rt; [arena.is_live(word), arena.is_live(0)], [false, false]);
}

#[test]
fn copies_and_clears_new_objects(rt: HostRuntime) -> Result<(), Fail> {
    let mut arena = Arena::new(rt.alloc(), 4096, 1, 4096, 2)?;
    check_answers(&rt, &mut arena, &[(16, Alloced::Got { id: 0, place: 0 })]);
    mark_ends(&mut arena)?;
    take_a_copy(&rt, &mut arena);
    let cleared = arena.alloc_zero(64);
    assert_eq!(rt; cleared, Alloced::Got { id: 0, place: 64 });
    assert_eq!(rt; held(&arena, [8256, 8312]), [Ok(0), Ok(0)]);
    assert_eq!(rt; held(&arena, [8208, 8192]), [Ok(6), Ok(6)]);
    Ok(())
}
