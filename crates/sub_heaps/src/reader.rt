ghost use Rattle.std.specs.Prelude.{◌≡◌, nat_le};
ghost use Rattle.std.specs.List.{find};
ghost use Rattle.sub_heaps.specs.inner.Order.{InOrder};
ghost use Rattle.sub_heaps.specs.inner.Parts.{IsPart};
ghost use Rattle.sub_heaps.specs.inner.Trees.{objects_of};

use crate::objects::Object;
use crate::search::next_from;
use crate::tree::Tree;
use std::marker::Model;

// The height of a part in which a reader looks first.
const LOW_HEIGHT: u32 = 5;

/// Reads the objects of sub-heaps: an object behind the one read last is mostly found in few steps, whatever the
/// number of the others.
#[derive(Debug, Drop)]
pub struct Reader<'a> {
    whole: &'a Tree,
    near: &'a Tree,
    low: u32,
}

// Clauses see the objects, in order of place.
impl<'a> Model for Reader<'a> {
    ghost use Rattle.std.specs.Prelude.{List};
    ghost use Rattle.sub_heaps.specs.declared.objects.Object.{Object};
    ghost use Rattle.sub_heaps.specs.inner.Parts.{IsPart};
    ghost use Rattle.sub_heaps.specs.inner.Order.{InOrder};
    ghost use Rattle.sub_heaps.specs.inner.Trees.{objects_of};

    ghost Value = { List Object };

    ghost view = { λ r. objects_of r.whole.now };

    ghost invariant = { λ r. InOrder 0 (objects_of r.whole.now) × IsPart r.low r.near.now r.whole.now };
}

impl<'a> Reader<'a> {
    /// A reader of a tree's objects.
    pub fn new(tree: &'a Tree) -> Reader<'a>
        requires { InOrder 0 (objects_of tree.now) }
        ensures { result ≡ objects_of tree.now }
    {
        Reader {
            whole: tree,
            near: tree,
            low: 0,
        }
    }

    /// The lowest object that starts at or after `from`.
    pub fn next_object(&mut self, from: u32) -> Option<Object>
        ensures next { result ≡ find (λ o. nat_le from o.at) self.old }
        ensures same { self.new ≡ self.old }
    {
        if self.low < from {
            if let Some(object) = next_from(self.near, from) {
                return Some(object);
            }
        }
        let object = next_from(self.whole, from)?;
        self.near = part_above(self.whole, object.at);
        self.low = object.at;
        Some(object)
    }
}

// A low part of the tree, before which each object starts at or below `low`.
fn part_above<'a>(tree: &'a Tree, low: u32) -> &'a Tree
    requires { InOrder 0 (objects_of tree.now) }
    ensures { IsPart low result.now tree.now }
{
    let Tree::Fork(node) = tree else {
        return tree;
    };
    if node.height <= LOW_HEIGHT {
        tree
    } else if node.object.at <= low {
        part_above(&node.right, low)
    } else {
        part_above(&node.left, low)
    }
}
