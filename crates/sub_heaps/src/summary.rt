ghost use Rattle.std.specs.Prelude.{◌≡◌, ◌+◌, ◌*◌, ◌<◌, ◌≤◌, [], ◌∷◌};
ghost use Rattle.sub_heaps.specs.inner.Gaps.{widest};
ghost use Rattle.sub_heaps.specs.inner.Summaries.{summary_of, joined, AreInOrder};

use crate::objects::Object;

/// What a node of the tree knows of the objects under it, in bytes.
#[derive(Clone, Copy, Debug)]
pub struct Summary {
    /// The start of the first one.
    pub first: u32,
    /// The end of the last one.
    pub end: u32,
    /// The longest gap between two of them, within one sub-heap.
    pub longest: u32,
    /// What they take.
    pub bytes: u32,
    /// What they reach into their sub-heaps, from the start of the first one on.
    pub extent: u32,
}

impl Summary {
    /// What is known of one object.
    pub fn of(object: Object, size: u32) -> Summary
        requires size { 0 < size }
        requires end { object.at + object.size ≤ 268435456 }
        ensures { result ≡ summary_of size (object ∷ []) }
    {
        Summary {
            first: object.at,
            end: object.at + object.size,
            longest: 0,
            bytes: object.size,
            extent: object.size,
        }
    }

    /// What is known of these objects and of those behind them together, in sub-heaps of `size` bytes.
    pub fn joined(self, behind: Summary, size: u32) -> Summary
        requires size { 0 < size }
        requires bound { size ≤ 268435456 }
        requires order { AreInOrder self behind }
        ensures { result ≡ joined size self behind }
    {
        let gap = widest(self.end, behind.first, size);
        let start = behind.first - behind.first % size;
        Summary {
            first: self.first,
            end: behind.end,
            longest: self.longest.max(gap).max(behind.longest),
            bytes: self.bytes + behind.bytes,
            extent: self.extent + (behind.first - start.max(self.end)) + behind.extent,
        }
    }
}

/// The most bytes between two places that lie in one sub-heap of `size` bytes.
pub fn widest(from: u32, to: u32, size: u32) -> u32
    requires size { 0 < size }
    requires bound { from + size < 2 * 268435456 + 1 }
    requires order { from ≤ to }
    ensures { result ≡ widest size from to }
{
    let end = from - from % size + size;
    if to <= end {
        to - from
    } else {
        (end - from).max(size.min(to - end))
    }
}
