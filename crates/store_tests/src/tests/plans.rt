//! Slides against a plain definition, and long plans that are judged at once.
ghost use Rattle.std.specs.Prelude.{◌≡◌, ◌≤◌, [], length};
ghost use Rattle.std.specs.FinSet as set;
ghost use Rattle.move_plan.specs.Holding.{is_pinned};
ghost use Rattle.sub_heaps.specs.Moving.{AreLegal, after_moves};

use ak_words::NoMemory;
use move_plan::{Move, Pins, Plan, is_legal, room, slide};
use std::alloc::Global;
use std::process::Abort;
use std::test::Fail;
use sub_heaps::{Heaps, Object};

// Frees the lowest object that starts at or above a place.
fn take_away(heaps: &mut Heaps, at: u32)
    ensures { heaps.new.most ≡ heaps.old.most }
{
    if let Some(object) = heaps.next_object(at) {
        heaps.free(object.at);
    }
}

// Makes the moves of a plan.
fn make_moves(heaps: &mut Heaps, pins: &Pins, plan: &Plan)
    requires { AreLegal (is_pinned pins.now) heaps.old plan.now.moves }
    ensures moved { heaps.new ≡ after_moves plan.now.moves heaps.old }
    ensures most { heaps.new.most ≡ heaps.old.most }
{
    for m in plan.moves() {
        heaps.shift(m.from, m.to);
    }
}

// Pins the places of those sixteenth bytes, from 0 on, whose bits are set.
fn pin(pins: &mut Pins, choice: u32)
    requires empty { pins.old.places ≡ set.empty }
    requires room { 8 ≤ pins.old.room }
{
    for number in 0..8 {
        if choice >> number & 1 == 1 {
            pins.add(number * 16);
        }
    }
}

// Places four objects, one behind the other, and frees the second.
fn leave_a_gap(heaps: &mut Heaps)
    requires { heaps.old.most ≡ 8 }
    ensures { heaps.new.most ≡ 8 }
{
    for bytes in [16, 32, 16, 64] {
        if heaps.live().0 < 8 {
            heaps.place(bytes, 0);
        }
    }
    take_away(heaps, 16);
}

// With the third object pinned no object moves.
fn stay_above_a_pin(rt: &impl Abort, heaps: &Heaps, pins: &mut Pins, plan: &mut Plan)
    requires objects { length heaps.now.objects ≤ 8 }
    requires pins { pins.old ≡ record { room = 1; places = set.empty } }
    requires plan { plan.old ≡ record { room = 8; moves = [] } }
    ensures { plan.new.room ≡ 8 }
{
    pins.add(48);
    slide(heaps, pins, plan);
    assert_eq!(rt;
        (pins.has(48), plan.len(), room(heaps, pins)),
        (true, 0, 3968)
    );
}

// With none pinned the upper two move down.
fn slide_down(rt: &impl Abort, heaps: &mut Heaps, pins: &mut Pins, plan: &mut Plan)
    requires objects { length heaps.old.objects ≤ 8 }
    requires room { plan.old.room ≡ 8 }
{
    pins.clear();
    plan.clear();
    slide(heaps, pins, plan);
    let low = Move {
        from: 48,
        to: 16,
        size: 16,
    };
    let high = Move {
        from: 64,
        to: 32,
        size: 64,
    };
    let planned = (plan.len(), plan.get(0), plan.get(1));
    assert_eq!(rt;
        (planned, room(heaps, pins)),
        ((2, Some(low), Some(high)), 4000)
    );
    make_moves(heaps, pins, plan);
}

#[test]
fn slides_down_and_stays_above_a_pin(rt: HostRuntime) -> Result<(), Fail> {
    let mut pins = Pins::with_room(rt.alloc(), 1)?;
    let mut plan = Plan::with_room(rt.alloc(), 8)?;
    let mut heaps = Heaps::new(rt.alloc(), 1, 4096, 8)?;
    leave_a_gap(&mut heaps);
    assert!(rt; heaps.live().0 <= 8);
    stay_above_a_pin(&rt, &heaps, &mut pins, &mut plan);
    slide_down(&rt, &mut heaps, &mut pins, &mut plan);
    let found = [
        heaps.next_object(0),
        heaps.next_object(1),
        heaps.next_object(17),
    ];
    let moved = [(0, 16), (16, 16), (32, 64)].map(|(at, size)| Some(Object { at, size, owner: 0 }));
    assert_eq!(rt;
        (found, heaps.extent(), room(&heaps, &pins)),
        (moved, 96, 4000)
    );
    Ok(())
}

// What stands in two sub-heaps of 64 bytes, from place 0 on, and how many bytes it takes.
#[derive(Clone, Copy)]
enum Part {
    Object(u32),
    Gap(u32),
}

// Places all parts as objects.
fn fill(heaps: &mut Heaps, parts: &[Part])
    requires { heaps.old.most ≡ 8 }
    ensures { heaps.new.most ≡ 8 }
{
    for part in parts {
        let (Part::Object(bytes) | Part::Gap(bytes)) = *part;
        if heaps.live().0 < 8 {
            heaps.place(u64::from(bytes), 0);
        }
    }
}

// Frees the objects that stand where gaps shall be.
fn empty_the_gaps(heaps: &mut Heaps, parts: &[Part])
    ensures { heaps.new.most ≡ heaps.old.most }
{
    let mut at: u32 = 0;
    for part in parts {
        let (Part::Object(bytes) | Part::Gap(bytes)) = *part;
        if matches!(part, Part::Gap(_)) {
            take_away(heaps, at);
        }
        at = at.wrapping_add(bytes);
    }
}

// Where the definition puts an object: a pinned one where it is, any other at the first place of its sub-heap
// that is its lower neighbour's end or the sub-heap's start.
fn defined_place(pins: &Pins, below: u32, at: u32) -> u32 {
    if pins.has(at) {
        return at;
    }
    (0..at)
        .find(|p| p / 64 == at / 64 && *p >= below && (*p == below || p % 64 == 0))
        .unwrap_or(at)
}

// Whether these are the moves that take each object to where the definition puts it.
fn are_defined(parts: &[Part], pins: &Pins, moves: &[Move]) -> bool {
    let mut moves = moves.iter();
    let mut at: u32 = 0;
    let mut below: u32 = 0;
    for part in parts {
        let (Part::Object(size) | Part::Gap(size)) = *part;
        if matches!(part, Part::Object(_)) {
            let to = defined_place(pins, below, at);
            let wanted = Move { from: at, to, size };
            if to != at && moves.next().copied() != Some(wanted) {
                return false;
            }
            below = to.wrapping_add(size);
        }
        at = at.wrapping_add(size);
    }
    moves.next().is_none()
}

// Whether an object of so many bytes can be placed; then it stays there.
fn fits(heaps: &mut Heaps, bytes: u64) -> bool
    requires { heaps.old.most ≡ 8 }
    ensures { heaps.new.most ≡ 8 }
{
    heaps.live().0 < 8 && heaps.place(bytes, 0).is_some()
}

// Whether a slide of these objects with these places pinned agrees with the definition, and leaves a gap of
// as many bytes as there is room, and none of more.
fn agrees(alloc: Global, parts: &[Part], choice: u32) -> Result<bool, NoMemory> {
    let mut heaps = Heaps::new(alloc, 2, 64, 8)?;
    fill(&mut heaps, parts);
    empty_the_gaps(&mut heaps, parts);
    let mut pins = Pins::with_room(alloc, 8)?;
    pin(&mut pins, choice);
    let mut plan = Plan::with_room(alloc, 8)?;
    slide(&heaps, &pins, &mut plan);
    let bytes = room(&heaps, &pins);
    make_moves(&mut heaps, &pins, &plan);
    Ok(
        are_defined(parts, &pins, plan.moves())
            && !fits(&mut heaps, bytes.wrapping_add(1))
            && (bytes == 0 || fits(&mut heaps, bytes)),
    )
}

#[test]
fn slides_like_the_definition(rt: HostRuntime) -> Result<(), Fail> {
    use Part::{Gap, Object};
    let rows: [&[Part]; 5] = [
        &[
            Gap(16),
            Object(16),
            Gap(16),
            Object(16),
            Object(16),
            Object(16),
            Object(16),
            Object(16),
        ],
        &[
            Object(16),
            Gap(16),
            Object(16),
            Object(16),
            Gap(16),
            Object(16),
            Object(16),
            Object(16),
        ],
        &[Gap(32), Object(32), Gap(16), Object(48)],
        &[
            Gap(16),
            Object(32),
            Object(16),
            Object(16),
            Gap(16),
            Object(32),
        ],
        &[Gap(64), Gap(48), Object(16)],
    ];
    for choice in 0..256 {
        for row in rows {
            assert!(rt; agrees(rt.alloc(), row, choice)?, "{choice}");
        }
    }
    Ok(())
}

// Whether a move up onto free bytes is legal, and whether it is with a move back behind it.
fn judge_up_and_down(heaps: &Heaps, pins: &Pins, plan: &mut Plan) -> [bool; 2]
    requires { plan.old ≡ record { room = 2; moves = [] } }
{
    let up = Move {
        from: 0,
        to: 16,
        size: 16,
    };
    plan.push(up);
    let alone = is_legal(heaps, pins, plan);
    let down = Move {
        from: 16,
        to: 0,
        size: 16,
    };
    plan.push(down);
    [alone, is_legal(heaps, pins, plan)]
}

#[test]
fn tells_legal_plans(rt: HostRuntime) -> Result<(), Fail> {
    let pins = Pins::with_room(rt.alloc(), 1)?;
    let mut plan = Plan::with_room(rt.alloc(), 2)?;
    let mut heaps = Heaps::new(rt.alloc(), 1, 64, 8)?;
    assert_eq!(rt; heaps.place(16, 0), Some(0));
    let legal = judge_up_and_down(&heaps, &pins, &mut plan);
    plan.clear();
    assert_eq!(rt; (legal, plan.len()), ([true, false], 0));
    Ok(())
}

// Places as many objects of 16 bytes as may live, one behind the other.
fn place_each(heaps: &mut Heaps, objects: u32)
    requires { heaps.old.most ≡ objects }
    ensures { heaps.new.most ≡ objects }
{
    for _number in 0..objects {
        if heaps.live().0 < objects {
            heaps.place(16, 0);
        }
    }
}

// Frees every second one of so many objects of 16 bytes, from the first on.
fn take_half(heaps: &mut Heaps, objects: u32)
    ensures { heaps.new.most ≡ heaps.old.most }
{
    for number in 0..objects / 2 {
        take_away(heaps, number.wrapping_mul(32));
    }
}

// Forty thousand moves are judged at once: a walk over all earlier ones and all objects at each would take minutes.
#[test]
fn judges_many_moves(rt: HostRuntime) -> Result<(), Fail> {
    let pins = Pins::with_room(rt.alloc(), 1)?;
    let mut plan = Plan::with_room(rt.alloc(), 80_000)?;
    let mut heaps = Heaps::new(rt.alloc(), 1, 2_097_152, 80_000)?;
    place_each(&mut heaps, 80_000);
    take_half(&mut heaps, 80_000);
    assert_eq!(rt; heaps.live(), (40_000, 640_000));
    slide(&heaps, &pins, &mut plan);
    let before = is_legal(&heaps, &pins, &plan);
    make_moves(&mut heaps, &pins, &plan);
    let after = is_legal(&heaps, &pins, &plan);
    assert_eq!(rt; (plan.len(), before, after), (40_000, true, false));
    Ok(())
}

// A move of an object of 16 bytes up by as many.
fn up(from: u32) -> Move
    requires { from ≤ 100 }
{
    Move {
        from,
        to: from + 16,
        size: 16,
    }
}

// Each object goes up to where the one above it stood: that one has to go first.
#[test]
fn judges_moves_in_their_order(rt: HostRuntime) -> Result<(), Fail> {
    let pins = Pins::with_room(rt.alloc(), 1)?;
    let mut plan = Plan::with_room(rt.alloc(), 3)?;
    let mut heaps = Heaps::new(rt.alloc(), 1, 64, 3)?;
    place_each(&mut heaps, 3);
    plan.push(up(32));
    plan.push(up(16));
    plan.push(up(0));
    let from_the_top = is_legal(&heaps, &pins, &plan);
    plan.clear();
    plan.push(up(0));
    plan.push(up(16));
    plan.push(up(32));
    let from_below = is_legal(&heaps, &pins, &plan);
    assert_eq!(rt; [from_the_top, from_below], [true, false]);
    Ok(())
}
