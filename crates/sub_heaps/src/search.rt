ghost use Rattle.std.specs.Prelude.{◌≡◌, ℕ, ◌+◌, ◌*◌, ◌%◌, ◌^◌, ◌<◌, ◌≤◌, nat_le, IfSome, IfNone, MatchOption};
ghost use Rattle.std.specs.List.{find};
ghost use Rattle.sub_heaps.specs.SubHeaps.{rounded, IsRounded};
ghost use Rattle.sub_heaps.specs.inner.Order.{InOrder, last_end};
ghost use Rattle.sub_heaps.specs.inner.Gaps.{IsGapBefore, IsLowestBefore};
ghost use Rattle.sub_heaps.specs.inner.Trees.{objects_of, IsTree};

use crate::objects::Object;
use crate::summary::widest;
use crate::tree::Tree;

/// The size that an object of so many bytes takes, where a sub-heap of `limit` bytes has that many.
pub fn size_within(bytes: u64, limit: u32) -> Option<u32>
    requires { IsRounded limit }
    ensures { MatchOption result (limit < rounded bytes) (λ size. (size ≡ rounded bytes) × (size ≤ limit)) }
{
    if bytes > u64::from(limit) {
        return None;
    }
    let units = ((bytes + 15) / 16).max(1);
    Some((units * 16) as u32)
}

/// The lowest place at or above `from` at which `bytes` bytes lie in one sub-heap of `size` bytes.
pub fn first_inside(from: u32, bytes: u32, size: u32) -> u32
    requires bytes { bytes ≤ size }
    requires size { 0 < size }
    requires bound { from + size < 2 ^ 32 }
    ensures above { from ≤ result }
    ensures bound { result < from + size }
    ensures inside { result % size + bytes ≤ size }
    ensures lowest { (at : ℕ) → from ≤ at → at % size + bytes ≤ size → result ≤ at }
{
    let offset = from % size;
    if offset + bytes <= size {
        from
    } else {
        from - offset + size
    }
}

/// The lowest object of the tree that starts at or above `from`.
pub fn next_from(tree: &Tree, from: u32) -> Option<Object>
    requires { InOrder 0 (objects_of tree.now) }
    ensures { result ≡ find (λ o. nat_le from o.at) (objects_of tree.now) }
{
    let Tree::Fork(node) = tree else {
        return None;
    };
    if node.object.at < from {
        next_from(&node.right, from)
    } else {
        next_from(&node.left, from).or(Some(node.object))
    }
}

/// The lowest place at which `bytes` bytes lie in one sub-heap of `size` bytes and in a gap before an object
/// of the tree, from `from` on.
pub fn lowest_before(tree: &Tree, from: u32, bytes: u32, size: u32) -> Option<u32>
    requires bytes { 1 ≤ bytes }
    requires within { bytes ≤ size }
    requires bounded { size ≤ 268435456 }
    requires tree { IsTree size tree.now }
    requires order { InOrder from (objects_of tree.now) }
    ensures lowest { IfSome result (IsLowestBefore size bytes from (objects_of tree.now)) }
    ensures none { IfNone result ((at : ℕ) → ¬ IsGapBefore size bytes from (objects_of tree.now) at) }
{
    let Tree::Fork(node) = tree else {
        return None;
    };
    let longest = widest(from, node.under.first, size).max(node.under.longest);
    if longest < bytes {
        return None;
    }
    if let Some(at) = lowest_before(&node.left, from, bytes, size) {
        return Some(at);
    }
    let at = first_inside(node.left.end(from), bytes, size);
    if at + bytes <= node.object.at {
        return Some(at);
    }
    let from = node.object.at + node.object.size;
    lowest_before(&node.right, from, bytes, size)
}
