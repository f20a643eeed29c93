ghost use Rattle.std.specs.Prelude.{◌≡◌, ℕ, ◌+◌, ◌<◌, ◌≤◌, ◌++◌, [], true, false, length, map, slice_index, MatchOption};
ghost use Rattle.std.specs.List.{range_with_len};
ghost use Rattle.std.specs.Vec.{vec_len, vec_capacity};
ghost use Rattle.sub_heaps.specs.Moving.{AreLegal, after_moves};
ghost use Rattle.sub_heaps.specs.SubHeaps.{extent_in, objects_in};
ghost use Rattle.move_plan.specs.Holding.{is_pinned};
ghost use Rattle.evacuate.specs.Evacuation.{evacuation, holding};
ghost use Rattle.evacuate.specs.inner.Tails.{planned_if_thin, raised};

use crate::emptying::empty_out;
use crate::walks::{extent_within, is_thin};
use move_plan::Pins;
use sub_heaps::{Heaps, Move};

/// Gives the moves that empty thin sub-heaps, gone through from the highest number down to 1: the objects of one, in
/// rising order, each go to the tail of the lowest sub-heap below it that holds an object and has room, or all stay.
/// It answers how many sub-heaps the moves empty. `tails` is for the walk alone: where each sub-heap's tail starts.
pub fn evacuate(heaps: &Heaps, pins: &Pins, tails: &mut Vec<u32>, into: &mut Vec<Move>) -> u32
    requires empty { into.old.items ≡ [] }
    requires room { length heaps.now.objects ≤ vec_capacity into.old }
    requires tails { heaps.now.count ≤ vec_capacity tails.old }

    // These moves in this order, and no others.
    ensures moves { into.new.items ≡ (evacuation (is_pinned pins.now) heaps.now).moves }
    ensures emptied { result ≡ (evacuation (is_pinned pins.now) heaps.now).emptied }

    // They are legal, and after them as many sub-heaps fewer hold an object.
    ensures legal { AreLegal (is_pinned pins.now) heaps.now into.new.items }
    ensures fewer { holding (after_moves into.new.items heaps.now) + result ≡ holding heaps.now }
    ensures capacity { vec_capacity into.old ≤ vec_capacity into.new }
    ensures tails_capacity { heaps.now.count ≤ vec_capacity tails.new }
{
    list_tails(heaps, tails);
    let mut emptied = 0;
    let mut number = heaps.count();
    while number > 1 {
        number -= 1;
        if empty_if_thin(heaps, pins, number, tails, into) {
            emptied += 1;
        }
    }
    emptied
}

// Lists where each sub-heap's tail starts.
fn list_tails(heaps: &Heaps, into: &mut Vec<u32>)
    requires { heaps.now.count ≤ vec_capacity into.old }
    ensures items { into.new.items ≡ map {A = ℕ} {B = ℕ} (extent_in heaps.now) (range_with_len 0 heaps.now.count) }
    ensures len { vec_len into.new ≡ heaps.now.count }
    ensures capacity { vec_capacity into.old ≤ vec_capacity into.new }
{
    into.clear();
    for number in 0..heaps.count() {
        match into.push(extent_within(heaps, number)) {
            Ok(()) => {}
            Err(_) => unreachable!(),
        }
    }
}

// Empties the sub-heap of this number, where it is thin and each of its objects finds a place.
fn empty_if_thin(
    heaps: &Heaps,
    pins: &Pins,
    number: u32,
    tails: &mut Vec<u32>,
    moves: &mut Vec<Move>,
) -> bool
    requires number { number < heaps.now.count }
    requires tails { vec_len tails.old ≡ heaps.now.count }
    requires room { vec_len moves.old + length (objects_in heaps.now number) ≤ vec_capacity moves.old }
    ensures emptied { MatchOption (planned_if_thin (is_pinned pins.now) heaps.now number tails.old.items) ((result ≡ false) × (moves.new.items ≡ moves.old.items) × (tails.new.items ≡ tails.old.items)) (λ ms. (result ≡ true) × (moves.new.items ≡ moves.old.items ++ ms) × (tails.new.items ≡ raised heaps.now.size ms tails.old.items)) }
    ensures len { vec_len tails.new ≡ vec_len tails.old }
    ensures capacity { vec_capacity moves.old ≤ vec_capacity moves.new }
{
    is_thin(heaps, pins, number, tails[number as usize]) && empty_out(heaps, number, tails, moves)
}
