ghost use Rattle.std.specs.Prelude.{◌≡◌, ◌*◌, ◌<◌, ◌≤◌, nat_le};
ghost use Rattle.std.specs.List.{find};
ghost use Rattle.sub_heaps.specs.SubHeaps.{objects_in};
ghost use Rattle.move_plan.specs.Holding.{is_pinned};
ghost use Rattle.move_plan.specs.Sliding.{IsSlid};
ghost use Rattle.move_plan.specs.Stretches.{room_in, room_of, IsLongestGap};

use crate::pinned::Pins;
use sub_heaps::{Heaps, Object, Reader};

/// The greatest room of a sub-heap, in bytes: the pinned objects and the two ends of a sub-heap bound
/// stretches, and its room is the greatest of a stretch's length less the sizes of the unpinned objects in it.
pub fn room(heaps: &Heaps, pins: &Pins) -> u64
    ensures room { result ≡ room_of (is_pinned pins.now) heaps.now }

    // Where the objects have slid, it is the longest gap within a sub-heap.
    ensures longest { IsSlid (is_pinned pins.now) heaps.now → IsLongestGap heaps.now result }
{
    let mut greatest: u32 = 0;
    for number in 0..heaps.count() {
        greatest = greatest.max(room_within(heaps, pins, number));
    }
    u64::from(greatest)
}

// The room of the sub-heap of this number.
fn room_within(heaps: &Heaps, pins: &Pins, number: u32) -> u32
    requires { number < heaps.now.count }
    ensures { result ≡ room_in (is_pinned pins.now) heaps.now number }
{
    let size = heaps.size();
    let mut reader = heaps.reader();
    let mut at = number * size;
    let end = at + size;
    let mut from = at;
    let mut held = 0;
    let mut greatest: u32 = 0;
    while let Some(object) = next_within(heaps, &mut reader, number, at) {
        if pins.has(object.at) {
            greatest = greatest.max(object.at - from - held);
            from = object.at + object.size;
            held = 0;
        } else {
            held += object.size;
        }
        at = object.at + object.size;
    }
    greatest.max(end - from - held)
}

// The lowest object of the sub-heap of this number that starts at or above `from`.
fn next_within(heaps: &Heaps, reader: &mut Reader<'_>, number: u32, from: u32) -> Option<Object>
    requires start { number * heaps.now.size ≤ from }
    requires objects { reader.old ≡ heaps.now.objects }
    ensures next { result ≡ find (λ o. nat_le from o.at) (objects_in heaps.now number) }
    ensures same { reader.new ≡ reader.old }
{
    let size = heaps.size();
    let object = reader.next_object(from)?;
    (object.at / size == number).then_some(object)
}
