ghost use Rattle.std.specs.Prelude.{◌≡◌, ◌+◌, ◌*◌, ◌<◌, ◌≤◌, nat_le};
ghost use Rattle.std.specs.List.{find};
ghost use Rattle.sub_heaps.specs.SubHeaps.{extent_in, objects_in};
ghost use Rattle.move_plan.specs.Holding.{is_pinned};
ghost use Rattle.evacuate.specs.inner.Tails.{is_thin_at};

use move_plan::Pins;
use sub_heaps::{Heaps, Object};

/// The lowest object of the sub-heap of this number that starts at or above `from`.
pub fn next_within(heaps: &Heaps, number: u32, from: u32) -> Option<Object>
    requires { number * heaps.now.size ≤ from }
    ensures { result ≡ find (λ o. nat_le from o.at) (objects_in heaps.now number) }
{
    let object = heaps.next_object(from)?;
    (object.at / heaps.size() == number).then_some(object)
}

/// The distance from the start of the sub-heap of this number to the end of its highest object.
pub fn extent_within(heaps: &Heaps, number: u32) -> u32
    requires { number < heaps.now.count }
    ensures { result ≡ extent_in heaps.now number }
{
    let start = number * heaps.size();
    let mut at = start;
    while let Some(object) = next_within(heaps, number, at) {
        at = object.at + object.size;
    }
    at - start
}

/// Whether the sub-heap of this number is thin, where its tail starts at `tail` by now.
pub fn is_thin(heaps: &Heaps, pins: &Pins, number: u32, tail: u32) -> bool
    requires { number < heaps.now.count }
    ensures { result ≡ is_thin_at (is_pinned pins.now) heaps.now number tail }
{
    let size = heaps.size();
    let start = number * size;
    let mut at = start;
    let mut held = 0;
    while let Some(object) = next_within(heaps, number, at) {
        if pins.has(object.at) {
            return false;
        }
        held += object.size;
        at = object.at + object.size;
    }
    held > 0 && 4 * held <= size && at - start == tail
}
