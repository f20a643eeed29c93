ghost use Rattle.std.specs.Prelude.{◌≡◌, ◌+◌, ◌<◌, ◌≤◌, ◌↔◌, [], ◌∷◌, ◌++◌, length, vec_len, vec_capacity, true};
ghost use Rattle.sub_heaps.specs.inner.Order.{InOrder, last_end};
ghost use Rattle.sub_heaps.specs.inner.Trees.{objects_of, height_of, IsTree, IsOrdered};
ghost use Rattle.sub_heaps.specs.inner.Walks.{walked, left_over, owners_met, StartsBelow};

use crate::moves::Move;
use crate::objects::Object;
use crate::tree::{Tree, summary};

/// Makes each next move at the object of the tree that it is of, where the objects stay in order, and gives
/// the moves that are left. The objects end at `end`. A list with room for it gets whose the moved objects are.
pub fn walk<'a>(
    tree: &mut Tree,
    end: u32,
    moves: &'a [Move],
    size: u32,
    owners: &mut Vec<u32>,
) -> &'a [Move]
    requires end { end ≡ last_end 0 (objects_of tree.old) }
    requires ordered { IsOrdered size tree.old }
    requires in_order { InOrder 0 (walked moves.now (objects_of tree.old)) }
    ensures left { result.now ≡ left_over moves.now (objects_of tree.old) }
    ensures objects { objects_of tree.new ≡ walked moves.now (objects_of tree.old) }
    ensures tree { IsTree size tree.new }
    ensures height { height_of tree.new ≡ height_of tree.old }
    ensures owners { length owners.old.items + length moves.now ≤ vec_capacity owners.old → owners.new.items ≡ owners.old.items ++ owners_met moves.now (objects_of tree.old) }
    ensures capacity { vec_capacity owners.new ≡ vec_capacity owners.old }
{
    let Tree::Fork(node) = tree else {
        return moves;
    };
    if !starts_below(moves, end) {
        return moves;
    }
    // Both sides are read before either is walked, so that their nodes come from memory at the same time.
    let (low_end, high_end) = (node.left.end(0), node.right.end(0));
    let moves = walk(&mut node.left, low_end, moves, size, owners);
    let moves = step(&mut node.object, moves, owners);
    let moves = walk(&mut node.right, high_end, moves, size, owners);
    node.under = summary(&node.left, node.object, &node.right, size);
    moves
}

// Whether the first move is of an object that starts below a place.
fn starts_below(moves: &[Move], end: u32) -> bool
    ensures { (result ≡ true) ↔ StartsBelow end moves.now }
{
    match moves.first() {
        Some(next) => next.from < end,
        None => false,
    }
}

// Makes the first move, where it is of this object, and notes whose that is.
fn step<'a>(object: &mut Object, moves: &'a [Move], owners: &mut Vec<u32>) -> &'a [Move]
    ensures left { result.now ≡ left_over moves.now (object.old ∷ []) }
    ensures object { object.new ∷ [] ≡ walked moves.now (object.old ∷ []) }
    ensures owners { length owners.old.items + length moves.now ≤ vec_capacity owners.old → owners.new.items ≡ owners.old.items ++ owners_met moves.now (object.old ∷ []) }
    ensures capacity { vec_capacity owners.new ≡ vec_capacity owners.old }
{
    match moves.split_first() {
        Some((next, later)) if next.from == object.at => {
            object.at = next.to;
            note(owners, object.owner);
            later
        }
        _ => moves,
    }
}

// Puts an owner behind others, where there is room.
fn note(owners: &mut Vec<u32>, owner: u32)
    ensures noted { vec_len owners.old < vec_capacity owners.old → owners.new.items ≡ owners.old.items ++ owner ∷ [] }
    ensures capacity { vec_capacity owners.new ≡ vec_capacity owners.old }
{
    if owners.len() < owners.capacity() {
        owners.push_reserved(owner);
    }
}
