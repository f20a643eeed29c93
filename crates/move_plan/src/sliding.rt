ghost use Rattle.std.specs.Prelude.{◌≡◌, ◌<◌, ◌≤◌, ℕ, Bool, List, [], length};
ghost use Rattle.sub_heaps.specs.SubHeaps.{SubHeaps, IsSound};
ghost use Rattle.sub_heaps.specs.declared.moves.Move.{Move};
ghost use Rattle.move_plan.specs.Holding.{is_pinned};
ghost use Rattle.sub_heaps.specs.Moving.{after_moves};
ghost use Rattle.move_plan.specs.Sliding.{IsSlide, slid_place};
ghost use Rattle.move_plan.specs.Stretches.{room_of, IsLongestGap};

use crate::moves::Plan;
use crate::pinned::Pins;
use sub_heaps::{Heaps, Move, Object};

/// Gives the moves after which each unpinned object starts where its lower neighbour ends, or at its
/// sub-heap's start.
pub fn slide(heaps: &Heaps, pins: &Pins, into: &mut Plan)
    requires empty { into.old.moves ≡ [] }
    requires room { length heaps.now.objects ≤ into.old.room }

    // The moves are legal and slide, and no others do.
    ensures slide { IsSlide (is_pinned pins.now) heaps.now into.new.moves }
    ensures room { into.new.room ≡ into.old.room }

    // Then the longest gap within a sub-heap is the room that there is now.
    ensures longest { IsLongestGap (after_moves into.new.moves heaps.now) (room_of (is_pinned pins.now) heaps.now) }
{
    let size = heaps.size();
    let mut reader = heaps.reader();
    let mut below = 0;
    let mut from = 0;
    while let Some(object) = reader.next_object(from) {
        let to = slid_place(pins, size, below, object);
        if to != object.at {
            into.push(Move {
                from: object.at,
                to,
                size: object.size,
            });
        }
        below = to + object.size;
        from = object.at + object.size;
    }
}

/// The law of slides: the moves that slide are the only ones that do, so they can be computed again later;
/// and whoever computes them, the longest gap within a sub-heap is then the room that there was.
pub fn slide_is_unique()
    ensures unique { (pinned : ℕ → Bool) → (h : SubHeaps) → (first second : List Move) → IsSound h → IsSlide pinned h first → IsSlide pinned h second → first ≡ second }
    ensures longest { (pinned : ℕ → Bool) → (h : SubHeaps) → (moves : List Move) → IsSound h → IsSlide pinned h moves → IsLongestGap (after_moves moves h) (room_of pinned h) }
{}

// Where an object slides to above the place where its lower neighbour ends.
fn slid_place(pins: &Pins, size: u32, below: u32, object: Object) -> u32
    requires { 0 < size }
    ensures { result ≡ slid_place (is_pinned pins.now) size below object }
{
    if pins.has(object.at) {
        object.at
    } else {
        (object.at - object.at % size).max(below)
    }
}
