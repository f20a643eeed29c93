ghost use Rattle.std.specs.Prelude.{◌≡◌, ℕ, ◌+◌, ◌<◌, ◌≤◌, max, ◌∷◌, ◌++◌, []};
ghost use Rattle.std.specs.List.{sum_by};
ghost use Rattle.sub_heaps.specs.declared.tree.Tree.TheVariants.{Empty, Fork};
ghost use Rattle.sub_heaps.specs.inner.Order.{InOrder, last_end};
ghost use Rattle.sub_heaps.specs.inner.Summaries.{extent_from, summary_of};
ghost use Rattle.sub_heaps.specs.inner.Trees.{objects_of, height_of, DifferByAtMost, IsTree, AreSides};

use crate::objects::Object;
use crate::summary::Summary;
use std::mem;

/// A balanced tree of objects in order of place.
#[cycle(tree)]
#[derive(Debug, Drop)]
pub enum Tree {
    Empty,
    Fork(Box<Node>),
}

/// An object of the tree, between those below it and those above it.
#[cycle(tree)]
#[derive(Debug, Drop)]
pub struct Node {
    pub left: Tree,
    pub object: Object,
    pub right: Tree,
    pub height: u32,
    pub under: Summary,
}

impl Tree {
    /// How many nodes the longest way down has.
    pub fn height(&self) -> u32
        ensures { result ≡ height_of self.now }
    {
        match self {
            Tree::Empty => 0,
            Tree::Fork(node) => node.height,
        }
    }

    /// The end of the last object, or `from` where there is none.
    pub fn end(&self, from: u32) -> u32
        ensures { (size : ℕ) → IsTree size self.now → result ≡ last_end from (objects_of self.now) }
    {
        match self {
            Tree::Empty => from,
            Tree::Fork(node) => node.under.end,
        }
    }

    /// How many bytes the objects take.
    pub fn bytes(&self) -> u32
        ensures { (size : ℕ) → IsTree size self.now → result ≡ sum_by (λ o. o.size) (objects_of self.now) }
    {
        match self {
            Tree::Empty => 0,
            Tree::Fork(node) => node.under.bytes,
        }
    }

    /// What the objects reach into their sub-heaps of `size` bytes, added up.
    pub fn extent(&self, size: u32) -> u32
        requires size { 0 < size }
        requires tree { IsTree size self.now }
        requires order { InOrder 0 (objects_of self.now) }
        ensures { result ≡ extent_from size 0 (objects_of self.now) }
    {
        match self {
            Tree::Empty => 0,
            Tree::Fork(node) => node.under.first % size + node.under.extent,
        }
    }
}

impl Node {
    /// A node that holds no object yet.
    pub fn spare() -> Node
        ensures { (result.left ≡ Empty) × (result.right ≡ Empty) }
    {
        Node {
            left: Tree::Empty,
            object: Object {
                at: 0,
                size: 0,
                owner: 0,
            },
            right: Tree::Empty,
            height: 0,
            under: Summary {
                first: 0,
                end: 0,
                longest: 0,
                bytes: 0,
                extent: 0,
            },
        }
    }
}

/// The two sides of a node, and the node without them.
pub fn parts(mut node: Box<Node>) -> (Tree, Box<Node>, Tree)
    ensures left { result.0 ≡ node.value.left }
    ensures object { result.1.value.object ≡ node.value.object }
    ensures right { result.2 ≡ node.value.right }
{
    let left = mem::replace(&mut node.left, Tree::Empty);
    let right = mem::replace(&mut node.right, Tree::Empty);
    (left, node, right)
}

/// A node with these two sides, whose heights differ by at most one.
pub fn fork(left: Tree, mut node: Box<Node>, right: Tree, size: u32) -> Box<Node>
    requires sides { AreSides size left node.value.object right }
    requires balanced { DifferByAtMost 1 (height_of left) (height_of right) }
    ensures tree { IsTree size (Fork result) }
    ensures objects { objects_of (Fork result) ≡ objects_of left ++ node.value.object ∷ objects_of right }
    ensures height { height_of (Fork result) ≡ max (height_of left) (height_of right) + 1 }
{
    node.height = left.height().max(right.height()) + 1;
    node.under = summary(&left, node.object, &right, size);
    node.left = left;
    node.right = right;
    node
}

/// What is known of an object and those on its two sides.
pub fn summary(left: &Tree, object: Object, right: &Tree, size: u32) -> Summary
    requires size { 0 < size }
    requires bound { size ≤ 268435456 }
    requires left { IsTree size left.now }
    requires right { IsTree size right.now }
    requires order { InOrder 0 (objects_of left.now ++ object ∷ objects_of right.now) }
    ensures { result ≡ summary_of size (objects_of left.now ++ object ∷ objects_of right.now) }
{
    let low = low_summary(left, object, size);
    match right {
        Tree::Empty => low,
        Tree::Fork(node) => low.joined(node.under, size),
    }
}

// What is known of an object and those below it.
fn low_summary(left: &Tree, object: Object, size: u32) -> Summary
    requires size { 0 < size }
    requires bound { size ≤ 268435456 }
    requires left { IsTree size left.now }
    requires order { InOrder 0 (objects_of left.now ++ object ∷ []) }
    ensures { result ≡ summary_of size (objects_of left.now ++ object ∷ []) }
{
    let own = Summary::of(object, size);
    match left {
        Tree::Empty => own,
        Tree::Fork(node) => node.under.joined(own, size),
    }
}
