ghost use Rattle.std.specs.Prelude.{◌≡◌, ℕ, ◌+◌, ◌%◌, ◌<◌, ◌≤◌, ◌↔◌, [], ◌++◌, length, nat_le, Some, IsSome, IsNone, IfSome, IfNone, IsSomeAnd, IfOk};
ghost use Rattle.std.specs.List.{All, AllPairs, find, sum_by};
ghost use Rattle.sub_heaps.specs.ByPlace.{object_at, with_object, without, shifted};
ghost use Rattle.std.specs.Vec.{vec_len, vec_capacity};
ghost use Rattle.sub_heaps.specs.Moving.{AreOwners, carried};
ghost use Rattle.sub_heaps.specs.inner.Walks.{walked, owners_met};
ghost use Rattle.sub_heaps.specs.SubHeaps.{IsShape, rounded, IsRounded, FitsAt, IsLowestFit, IsSound, IsAligned, extent_of};

use crate::changes::{insert, remove};
use crate::moves::Move;
use crate::objects::Object;
use crate::reader::Reader;
use crate::search::{first_inside, lowest_before, next_from, size_within};
use crate::tree::{Node, Tree};
use crate::walk::walk;
use ak_words::NoMemory;
use std::alloc::Global;
use std::marker::Model;
use std::mem;

/// Sub-heaps of one size, one after the other from place 0, and the objects that live in them.
#[derive(Debug, Drop)]
pub struct Heaps {
    count: u32,
    size: u32,
    most: u32,
    tree: Tree,
    spare: Vec<Box<Node>>,
}

// Clauses see the shape, and the list of the objects in order of place.
impl Model for Heaps {
    ghost use Rattle.std.specs.Vec.{vec_len, vec_capacity};
    ghost use Rattle.sub_heaps.specs.SubHeaps.{SubHeaps};
    ghost use Rattle.sub_heaps.specs.inner.Pools.{heaps_of, IsKept};

    ghost Value = { SubHeaps };

    ghost view = { λ h. heaps_of h.count h.size h.most h.tree };

    ghost invariant = { λ h. IsKept h.count h.size h.most h.tree (vec_len h.spare) (vec_capacity h.spare) };
}

impl Heaps {
    /// Makes `count` sub-heaps of `size` bytes without any object, and takes the memory for `most` objects.
    pub fn new(alloc: Global, count: u32, size: u32, most: u32) -> Result<Heaps, NoMemory>
        requires { IsShape count size most }
        ensures made { IfOk result (λ h. h ≡ record { count = count; size = size; most = most; objects = [] }) }
        ensures sound { IfOk result IsSound }
        ensures aligned { IfOk result IsAligned }
    {
        let spare = spare_nodes(alloc, most)?;
        Ok(Heaps {
            count,
            size,
            most,
            tree: Tree::Empty,
            spare,
        })
    }

    /// How many sub-heaps there are.
    pub fn count(&self) -> u32
        ensures number { result ≡ self.now.count }
        ensures sound { IsSound self.now }
    {
        self.count
    }

    /// How many bytes a sub-heap has.
    pub fn size(&self) -> u32
        ensures bytes { result ≡ self.now.size }
        ensures sound { IsSound self.now }
    {
        self.size
    }

    /// Gives a new object of so many bytes the lowest place at which it lies in one sub-heap and overlaps
    /// no object, or none where there is no such place.
    pub fn place(&mut self, bytes: u64, owner: u32) -> Option<u32>
        requires { length self.old.objects < self.old.most }

        // The place is the lowest that fits, of all places.
        ensures lowest { IfSome result (IsLowestFit self.old (rounded bytes)) }
        ensures aligned { IsAligned self.old → IfSome result (λ at. at % 16 ≡ 0) }
        ensures none { IsNone result ↔ ((at : ℕ) → ¬ FitsAt self.old (rounded bytes) at) }

        // The object stands there from now on.
        ensures placed { IfSome result (λ at. self.new ≡ record self.old { objects = with_object (record { at = at; size = rounded bytes; owner = owner }) self.old.objects }) }
        ensures unchanged { IfNone result (self.new ≡ self.old) }
        ensures still_aligned { IsAligned self.old → IsAligned self.new }
        ensures sound { IsSound self.new }
    {
        let size = size_within(bytes, self.size)?;
        let at = self.lowest_fit(size)?;
        self.put(Object { at, size, owner });
        Some(at)
    }

    /// Takes away the object that starts at `at`.
    pub fn free(&mut self, at: u32)
        requires { IsSome (object_at at self.old.objects) }
        ensures freed { self.new ≡ record self.old { objects = without at self.old.objects } }
        ensures still_aligned { IsAligned self.old → IsAligned self.new }
        ensures sound { IsSound self.new }
    {
        self.take(at);
    }

    /// Moves the object that starts at `from` to `to`, where it lies in one sub-heap and overlaps no other.
    pub fn shift(&mut self, from: u32, to: u32)
        requires { IsSomeAnd (object_at from self.old.objects) (λ o. FitsAt (record self.old { objects = without from self.old.objects }) o.size to) }
        ensures moved { self.new ≡ record self.old { objects = shifted from to self.old.objects } }
        ensures still_aligned { to % 16 ≡ 0 → IsAligned self.old → IsAligned self.new }
        ensures sound { IsSound self.new }
    {
        match self.next_object(to) {
            Some(next) if next.at == from => {
                let size = next.size;
                let mut unread = Vec::new(*self.spare.allocator());
                self.make_in_order(&[Move { from, to, size }], &mut unread);
            }
            _ => self.put_again(from, to),
        }
    }

    /// Moves objects in one walk: each move is of an object that is there, in rising order, and the objects
    /// keep their order. The list, which has room for them, is from then on whose the objects are, in the order
    /// of the moves.
    pub fn shift_all(&mut self, moves: &[Move], owners: &mut Vec<u32>)
        requires rising { AllPairs (λ a b. a.from < b.from) moves.now }
        requires objects { All (λ m. IsSome (object_at m.from self.old.objects)) moves.now }
        requires stand { IsSound (record self.old { objects = carried moves.now self.old.objects }) }
        requires room { length moves.now ≤ vec_capacity owners.old }
        ensures moved { self.new ≡ record self.old { objects = carried moves.now self.old.objects } }
        ensures owners { AreOwners moves.now self.old.objects owners.new.items }
        ensures capacity { vec_capacity owners.new ≡ vec_capacity owners.old }
        ensures sound { IsSound self.new }
    {
        let _order = &self.tree;
        owners.clear();
        self.make_in_order(moves, owners);
    }

    /// The lowest object that starts at or after `from`.
    pub fn next_object(&self, from: u32) -> Option<Object>
        ensures next { result ≡ find (λ o. nat_le from o.at) self.now.objects }
        ensures sound { IsSound self.now }
    {
        next_from(&self.tree, from)
    }

    /// A reader of the objects, for one who asks for them one after the other.
    pub fn reader(&self) -> Reader<'_>
        ensures objects { result ≡ self.now.objects }
        ensures sound { IsSound self.now }
    {
        Reader::new(&self.tree)
    }

    /// How many objects live, and how many bytes they take together.
    pub fn live(&self) -> (u32, u64)
        ensures live { result ≡ (length self.now.objects, sum_by (λ o. o.size) self.now.objects) }
        ensures sound { IsSound self.now }
    {
        let count = self.most - self.spare.len() as u32;
        (count, u64::from(self.tree.bytes()))
    }

    /// How far the objects reach into their sub-heaps: the distances from each sub-heap's start to the end of
    /// its highest object, added up, in bytes.
    pub fn extent(&self) -> u64
        ensures extent { result ≡ extent_of self.now }
        ensures sound { IsSound self.now }
    {
        u64::from(self.tree.extent(self.size))
    }

    // The lowest place at which so many bytes lie in one sub-heap and overlap no object.
    fn lowest_fit(&self, bytes: u32) -> Option<u32>
        requires some { 1 ≤ bytes }
        requires within { bytes ≤ self.now.size }
        ensures lowest { IfSome result (IsLowestFit self.now bytes) }
        ensures none { IfNone result ((at : ℕ) → ¬ FitsAt self.now bytes at) }
        ensures sound { IsSound self.now }
    {
        if let Some(at) = lowest_before(&self.tree, 0, bytes, self.size) {
            return Some(at);
        }
        let at = first_inside(self.tree.end(0), bytes, self.size);
        if at + bytes <= self.count * self.size {
            Some(at)
        } else {
            None
        }
    }

    // Puts an object where it fits, with a spare node.
    fn put(&mut self, object: Object)
        requires room { length self.old.objects < self.old.most }
        requires rounded { IsRounded object.size }
        requires fits { FitsAt self.old object.size object.at }
        ensures put { self.new ≡ record self.old { objects = with_object object self.old.objects } }
        ensures sound { IsSound self.new }
    {
        let Some(mut node) = self.spare.pop() else {
            unreachable!()
        };
        node.object = object;
        let tree = mem::replace(&mut self.tree, Tree::Empty);
        self.tree = Tree::Fork(insert(tree, node, self.size));
    }

    // Makes moves that keep the order, each next one at the object that it is of, in one walk. A list with room
    // for it gets whose the moved objects are.
    fn make_in_order(&mut self, moves: &[Move], owners: &mut Vec<u32>)
        requires { IsSound (record self.old { objects = walked moves.now self.old.objects }) }
        ensures made { self.new ≡ record self.old { objects = walked moves.now self.old.objects } }
        ensures owners { length owners.old.items + length moves.now ≤ vec_capacity owners.old → owners.new.items ≡ owners.old.items ++ owners_met moves.now self.old.objects }
        ensures capacity { vec_capacity owners.new ≡ vec_capacity owners.old }
        ensures sound { IsSound self.new }
    {
        let end = self.tree.end(0);
        walk(&mut self.tree, end, moves, self.size, owners);
    }

    // Takes the object that starts at `from` out, and puts it in again at `to`.
    fn put_again(&mut self, from: u32, to: u32)
        requires { IsSomeAnd (object_at from self.old.objects) (λ o. FitsAt (record self.old { objects = without from self.old.objects }) o.size to) }
        ensures moved { self.new ≡ record self.old { objects = shifted from to self.old.objects } }
        ensures sound { IsSound self.new }
    {
        let object = self.take(from);
        self.put(Object { at: to, ..object });
    }

    // Takes away the object that starts at `at`, and gives its node back.
    fn take(&mut self, at: u32) -> Object
        requires { IsSome (object_at at self.old.objects) }
        ensures object { object_at at self.old.objects ≡ Some result }
        ensures rounded { IsRounded result.size }
        ensures room { length self.new.objects < self.new.most }
        ensures taken { self.new ≡ record self.old { objects = without at self.old.objects } }
        ensures sound { IsSound self.new }
    {
        let tree = mem::replace(&mut self.tree, Tree::Empty);
        let (node, tree) = remove(tree, at, self.size);
        let object = node.object;
        self.tree = tree;
        give_back(&mut self.spare, node);
        object
    }
}

// Puts a node to the spare ones, among which there is room for it.
fn give_back(spare: &mut Vec<Box<Node>>, node: Box<Node>)
    requires { vec_len spare.old < vec_capacity spare.old }
    ensures more { vec_len spare.new ≡ vec_len spare.old + 1 }
    ensures capacity { vec_capacity spare.old ≤ vec_capacity spare.new }
{
    match spare.push(node) {
        Ok(()) => {}
        Err(_) => unreachable!(),
    }
}

// So many nodes that hold no object.
fn spare_nodes(alloc: Global, most: u32) -> Result<Vec<Box<Node>>, NoMemory>
    ensures { IfOk result (λ nodes. (vec_len nodes ≡ most) × (most ≤ vec_capacity nodes)) }
{
    let mut nodes = Vec::with_capacity(alloc, most as usize)?;
    for _made in 0..most {
        nodes.push(Box::new(alloc, Node::spare())?)?;
    }
    Ok(nodes)
}
