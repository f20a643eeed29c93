ghost use Rattle.std.specs.Prelude.{◌≡◌, ◌+◌, ◌≤◌, ◌∷◌, ◌++◌};
ghost use Rattle.sub_heaps.specs.declared.tree.Tree.TheVariants.{Fork};
ghost use Rattle.sub_heaps.specs.inner.Trees.{objects_of, height_of, DifferByAtMost, IsTree, AreSides, SettlesTo};

use crate::tree::{Node, Tree, fork, parts};

/// A node with these two sides, whose heights differ by at most two.
pub fn balance(left: Tree, node: Box<Node>, right: Tree, size: u32) -> Box<Node>
    requires sides { AreSides size left node.value.object right }
    requires near { DifferByAtMost 2 (height_of left) (height_of right) }
    ensures tree { IsTree size (Fork result) }
    ensures objects { objects_of (Fork result) ≡ objects_of left ++ node.value.object ∷ objects_of right }
    ensures height { SettlesTo (height_of left) (height_of right) (height_of (Fork result)) }
{
    let (low, high) = (left.height(), right.height());
    if low > high + 1 {
        lean_right(left, node, right, size)
    } else if high > low + 1 {
        lean_left(left, node, right, size)
    } else {
        fork(left, node, right, size)
    }
}

// A node with these two sides, of which the left is two higher: what is left of its middle goes to the right.
fn lean_right(left: Tree, node: Box<Node>, right: Tree, size: u32) -> Box<Node>
    requires sides { AreSides size left node.value.object right }
    requires two_higher { height_of left ≡ height_of right + 2 }
    ensures tree { IsTree size (Fork result) }
    ensures objects { objects_of (Fork result) ≡ objects_of left ++ node.value.object ∷ objects_of right }
    ensures not_lower { height_of left ≤ height_of (Fork result) }
    ensures at_most_one_higher { height_of (Fork result) ≤ height_of left + 1 }
{
    let Tree::Fork(top) = left else {
        unreachable!()
    };
    let (low, top, middle) = parts(top);
    if low.height() >= middle.height() {
        let high = fork(middle, node, right, size);
        return fork(low, top, Tree::Fork(high), size);
    }
    let Tree::Fork(split) = middle else {
        unreachable!()
    };
    let (under, split, over) = parts(split);
    let low = fork(low, top, under, size);
    let high = fork(over, node, right, size);
    fork(Tree::Fork(low), split, Tree::Fork(high), size)
}

// A node with these two sides, of which the right is two higher: what is right of its middle goes to the left.
fn lean_left(left: Tree, node: Box<Node>, right: Tree, size: u32) -> Box<Node>
    requires sides { AreSides size left node.value.object right }
    requires two_higher { height_of right ≡ height_of left + 2 }
    ensures tree { IsTree size (Fork result) }
    ensures objects { objects_of (Fork result) ≡ objects_of left ++ node.value.object ∷ objects_of right }
    ensures not_lower { height_of right ≤ height_of (Fork result) }
    ensures at_most_one_higher { height_of (Fork result) ≤ height_of right + 1 }
{
    let Tree::Fork(top) = right else {
        unreachable!()
    };
    let (middle, top, high) = parts(top);
    if high.height() >= middle.height() {
        let low = fork(left, node, middle, size);
        return fork(Tree::Fork(low), top, high, size);
    }
    let Tree::Fork(split) = middle else {
        unreachable!()
    };
    let (under, split, over) = parts(split);
    let low = fork(left, node, under, size);
    let high = fork(over, top, high, size);
    fork(Tree::Fork(low), split, Tree::Fork(high), size)
}
