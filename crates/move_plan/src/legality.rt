ghost use Rattle.std.specs.Prelude.{◌≡◌, ◌+◌, ◌*◌, ◌<◌, ◌≤◌, ◌⊎◌, ◌↔◌, IsTrue, IsSome, IfSome, IsSomeAnd};
ghost use Rattle.std.specs.List.{All};
ghost use Rattle.sub_heaps.specs.ByPlace.{end_of, object_at};
ghost use Rattle.sub_heaps.specs.SubHeaps.{LiesInOne, IsApartFrom, IsSound};
ghost use Rattle.move_plan.specs.Holding.{is_pinned};
ghost use Rattle.sub_heaps.specs.Moving.{AreLegal};
ghost use Rattle.move_plan.specs.inner.Spans.{AreSorted, AreInOrder, IsClearOf, IsWithin, origins_of, targets_of};

use crate::moves::Plan;
use crate::pinned::Pins;
use crate::places::{are_in_order, span_at};
use sub_heaps::{Heaps, Move, Object};

/// Whether each move, at its turn, is of an unpinned object of its size that starts at `from`, and ends in
/// one sub-heap without overlapping another object, and no object is moved twice. It takes time in
/// proportion to n log n, of n moves and objects.
pub fn is_legal(heaps: &Heaps, pins: &Pins, plan: &Plan) -> bool
    ensures { IsTrue result ↔ AreLegal (is_pinned pins.now) heaps.now plan.now.moves }
{
    if !are_within(heaps, pins, plan.moves()) {
        return false;
    }
    keep_apart(plan) && are_clear(heaps, plan.origins(), plan.targets())
}

// Whether no two moves are of one object, and none goes where another goes.
fn keep_apart(plan: &Plan) -> bool
    ensures { IsTrue result ↔ (AreInOrder 0 (origins_of plan.now.moves) × AreInOrder 0 (targets_of plan.now.moves)) }
{
    are_in_order(plan.origins()) && are_in_order(plan.targets())
}

// Whether each move is of an unpinned object of its size, and ends in one sub-heap.
fn are_within(heaps: &Heaps, pins: &Pins, moves: &[Move]) -> bool
    ensures within { IsTrue result ↔ All (IsWithin (is_pinned pins.now) heaps.now) moves.now }
    ensures sound { IsSound heaps.now }
{
    let (count, size) = (heaps.count(), heaps.size());
    for m in moves {
        if !is_within(heaps, pins, count, size, *m) {
            return false;
        }
    }
    true
}

// Whether a move is of an unpinned object of its size, and ends in one of so many sub-heaps of this size.
fn is_within(heaps: &Heaps, pins: &Pins, count: u32, size: u32, m: Move) -> bool
    requires some { 0 < size }
    requires whole { count * size ≤ 268435456 }
    requires shape { (count ≡ heaps.now.count) × (size ≡ heaps.now.size) }
    ensures { IsTrue result ↔ IsWithin (is_pinned pins.now) heaps.now m }
{
    is_of_object(heaps, m) && !pins.has(m.from) && lies_in_one(count, size, m)
}

// Whether an object of the move's size starts where the move does.
fn is_of_object(heaps: &Heaps, next: Move) -> bool
    ensures { IsTrue result ↔ IsSomeAnd (object_at next.from heaps.now.objects) (λ o. o.size ≡ next.size) }
{
    match heaps.next_object(next.from) {
        Some(object) => object.at == next.from && object.size == next.size,
        None => false,
    }
}

// Whether the object lies in one of so many sub-heaps of this size after the move.
fn lies_in_one(count: u32, size: u32, next: Move) -> bool
    requires size { 0 < size }
    requires whole { count * size ≤ 268435456 }
    ensures { IsTrue result ↔ LiesInOne count size next.size next.to }
{
    next.to < count * size && next.size <= size && next.to % size <= size - next.size
}

// Whether the objects keep clear of each target, or are moved away no later than it is reached.
fn are_clear(heaps: &Heaps, origins: &[Object], targets: &[Object]) -> bool
    requires sorted { AreSorted 0 origins.now }
    requires order { AreInOrder 0 targets.now }
    ensures { IsTrue result ↔ All (λ to. All (IsClearOf origins.now to) heaps.now.objects) targets.now }
{
    let mut from = 0;
    for target in targets {
        match pass(heaps, origins, *target, from) {
            Some(next) => from = next,
            None => return false,
        }
    }
    true
}

// Where the objects all keep clear of a target, or are moved away, the place from which a walk has to go on
// for what starts above it. Those that start below `start` end at or below the target.
fn pass(heaps: &Heaps, origins: &[Object], target: Object, start: u32) -> Option<u32>
    requires sorted { AreSorted 0 origins.now }
    requires below { All (λ o. (start ≤ o.at) ⊎ (end_of o ≤ target.at)) heaps.now.objects }
    ensures clear { IsSome result ↔ All (IsClearOf origins.now target) heaps.now.objects }
    ensures next { IfSome result (λ next. All (λ o. (next ≤ o.at) ⊎ (end_of o ≤ end_of target)) heaps.now.objects) }
{
    let mut from = start;
    while let Some(object) = heaps.next_object(from) {
        if !is_clear_of(origins, target, object) {
            return None;
        }
        let end = object.at + object.size;
        if u64::from(end) > u64::from(target.at) + u64::from(target.size) {
            return Some(from);
        }
        from = end;
    }
    Some(from)
}

// Whether the object overlaps the target nowhere, or a move takes it away no later than the target is reached.
fn is_clear_of(origins: &[Object], target: Object, object: Object) -> bool
    requires { AreSorted 0 origins.now }
    ensures { IsTrue result ↔ IsClearOf origins.now target object }
{
    are_apart(target, object)
        || span_at(origins, object.at).is_some_and(|from| from.owner <= target.owner)
}

// Whether an object has no byte in common with a target.
fn are_apart(target: Object, object: Object) -> bool
    ensures { IsTrue result ↔ IsApartFrom target.size target.at object }
{
    u64::from(object.at) + u64::from(object.size) <= u64::from(target.at)
        || u64::from(target.at) + u64::from(target.size) <= u64::from(object.at)
}
