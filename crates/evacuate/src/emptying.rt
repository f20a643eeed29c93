ghost use Rattle.std.specs.Prelude.{◌≡◌, ◌+◌, ◌*◌, ◌/◌, ◌<◌, ◌≤◌, ◌∷◌, [], ◌++◌, true, false, length, take, drop, slice_index, MatchOption};
ghost use Rattle.std.specs.List.{All, find, range_with_len};
ghost use Rattle.std.specs.Vec.{vec_len, vec_capacity};
ghost use Rattle.sub_heaps.specs.SubHeaps.{objects_in};
ghost use Rattle.evacuate.specs.inner.Tails.{has_room, lowered, planned, raised, raised_at, tail_move};

use crate::walks::next_within;
use sub_heaps::{Heaps, Move, Object};

/// Moves each object of the sub-heap of this number to a lower one's tail, or none where one finds no place.
pub fn empty_out(heaps: &Heaps, number: u32, tails: &mut Vec<u32>, moves: &mut Vec<Move>) -> bool
    requires number { number < heaps.now.count }
    requires tails { vec_len tails.old ≡ heaps.now.count }
    requires room { vec_len moves.old + length (objects_in heaps.now number) ≤ vec_capacity moves.old }
    ensures emptied { MatchOption (planned heaps.now.size number (objects_in heaps.now number) tails.old.items) ((result ≡ false) × (moves.new.items ≡ moves.old.items) × (tails.new.items ≡ tails.old.items)) (λ ms. (result ≡ true) × (moves.new.items ≡ moves.old.items ++ ms) × (tails.new.items ≡ raised heaps.now.size ms tails.old.items)) }
    ensures len { vec_len tails.new ≡ vec_len tails.old }
    ensures capacity { vec_capacity moves.old ≤ vec_capacity moves.new }
{
    let size = heaps.size();
    let kept = moves.len();
    let mut from = number * size;
    while let Some(object) = next_within(heaps, number, from) {
        let Some(lower) = lowest_tail(tails, size, object.size, number) else {
            take_back(size, kept, tails, moves);
            return false;
        };
        add_move(object, size, lower, tails, moves);
        from = object.at + object.size;
    }
    true
}

// The lowest of the sub-heaps below a number that holds an object and has room behind it for so many bytes.
fn lowest_tail(tails: &[u32], size: u32, bytes: u32, below: u32) -> Option<u32>
    requires below { below ≤ length tails.now }
    requires bytes { bytes ≤ size }
    ensures { result ≡ find (has_room size bytes tails.now) (range_with_len 0 below) }
{
    for number in 0..below {
        let tail = tails[number as usize];
        if tail > 0 && tail <= size - bytes {
            return Some(number);
        }
    }
    None
}

// Moves an object to the tail of a sub-heap that has room for it.
fn add_move(object: Object, size: u32, lower: u32, tails: &mut Vec<u32>, moves: &mut Vec<Move>)
    requires lower { lower < vec_len tails.old }
    requires tail { slice_index tails.old.items lower + object.size ≤ size }
    requires within { lower * size + size ≤ 268435456 }
    requires room { vec_len moves.old < vec_capacity moves.old }
    ensures moves { moves.new.items ≡ moves.old.items ++ tail_move size object lower tails.old.items ∷ [] }
    ensures tails { tails.new.items ≡ raised_at lower object.size tails.old.items }
    ensures moves_len { vec_len moves.new ≡ vec_len moves.old + 1 }
    ensures tails_len { vec_len tails.new ≡ vec_len tails.old }
    ensures capacity { vec_capacity moves.old ≤ vec_capacity moves.new }
{
    let tail = tails[lower as usize];
    let next = Move {
        from: object.at,
        to: lower * size + tail,
        size: object.size,
    };
    match moves.push(next) {
        Ok(()) => {}
        Err(_) => unreachable!(),
    }
    tails[lower as usize] = tail + object.size;
}

// Takes all moves back but the first `kept`, and each tail starts where it did before them.
fn take_back(size: u32, kept: usize, tails: &mut Vec<u32>, moves: &mut Vec<Move>)
    requires some { 0 < size }
    requires kept { kept ≤ vec_len moves.old }
    requires numbers { All (λ m. m.to / size < vec_len tails.old) (drop kept moves.old.items) }
    ensures moves { moves.new.items ≡ take kept moves.old.items }
    ensures tails { tails.new.items ≡ lowered size (drop kept moves.old.items) tails.old.items }
    ensures len { vec_len tails.new ≡ vec_len tails.old }
    ensures capacity { vec_capacity moves.new ≡ vec_capacity moves.old }
{
    while moves.len() > kept {
        let Some(last) = moves.pop() else {
            unreachable!()
        };
        tails[(last.to / size) as usize] = last.to % size;
    }
}
