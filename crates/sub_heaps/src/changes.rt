ghost use Rattle.std.specs.Prelude.{◌≡◌, ◌≤◌, max, ◌∷◌, ◌++◌, Some, IsSome};
ghost use Rattle.sub_heaps.specs.declared.tree.Tree.TheVariants.{Fork};
ghost use Rattle.sub_heaps.specs.ByPlace.{object_at, with_object, without};
ghost use Rattle.sub_heaps.specs.inner.Order.{InOrder};
ghost use Rattle.sub_heaps.specs.inner.Trees.{objects_of, height_of, IsTree, IsOrdered, AreApart, IsNoneOrOneAbove};

use crate::balance::balance;
use crate::tree::{Node, Tree, fork, parts};

/// The topmost node of the tree with one node more.
pub fn insert(tree: Tree, new: Box<Node>, size: u32) -> Box<Node>
    requires ordered { IsOrdered size tree }
    requires fits { InOrder 0 (with_object new.value.object (objects_of tree)) }
    ensures tree { IsTree size (Fork result) }
    ensures objects { objects_of (Fork result) ≡ with_object new.value.object (objects_of tree) }
    ensures height { IsNoneOrOneAbove (height_of (Fork result)) (height_of tree) }
{
    let Tree::Fork(node) = tree else {
        return fork(Tree::Empty, new, Tree::Empty, size);
    };
    let (left, node, right) = parts(node);
    if new.object.at < node.object.at {
        let left = insert(left, new, size);
        balance(Tree::Fork(left), node, right, size)
    } else {
        let right = insert(right, new, size);
        balance(left, node, Tree::Fork(right), size)
    }
}

/// The node whose object starts at `at`, and the tree without it.
pub fn remove(tree: Tree, at: u32, size: u32) -> (Box<Node>, Tree)
    requires ordered { IsOrdered size tree }
    requires found { IsSome (object_at at (objects_of tree)) }
    ensures node { object_at at (objects_of tree) ≡ Some result.0.value.object }
    ensures tree { IsTree size result.1 }
    ensures objects { objects_of result.1 ≡ without at (objects_of tree) }
    ensures height { IsNoneOrOneAbove (height_of tree) (height_of result.1) }
{
    let Tree::Fork(node) = tree else {
        unreachable!()
    };
    let (left, node, right) = parts(node);
    if at < node.object.at {
        let (gone, left) = remove(left, at, size);
        (gone, Tree::Fork(balance(left, node, right, size)))
    } else if node.object.at < at {
        let (gone, right) = remove(right, at, size);
        (gone, Tree::Fork(balance(left, node, right, size)))
    } else {
        (node, meld(left, right, size))
    }
}

// Both trees as one, the objects of the left one below those of the right one.
fn meld(left: Tree, right: Tree, size: u32) -> Tree
    requires apart { AreApart size left right }
    ensures tree { IsTree size result }
    ensures objects { objects_of result ≡ objects_of left ++ objects_of right }
    ensures height { IsNoneOrOneAbove (height_of result) (max (height_of left) (height_of right)) }
{
    let Tree::Fork(top) = right else {
        return left;
    };
    let (lowest, right) = take_lowest(top, size);
    Tree::Fork(balance(left, lowest, right, size))
}

// The lowest node of those under a topmost one, and the tree without it.
fn take_lowest(top: Box<Node>, size: u32) -> (Box<Node>, Tree)
    requires ordered { IsOrdered size (Fork top) }
    ensures tree { IsTree size result.1 }
    ensures objects { objects_of (Fork top) ≡ result.0.value.object ∷ objects_of result.1 }
    ensures height { IsNoneOrOneAbove (height_of (Fork top)) (height_of result.1) }
{
    let (left, node, right) = parts(top);
    let Tree::Fork(below) = left else {
        return (node, right);
    };
    let (lowest, left) = take_lowest(below, size);
    (lowest, Tree::Fork(balance(left, node, right, size)))
}
