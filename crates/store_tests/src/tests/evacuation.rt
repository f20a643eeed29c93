//! An evacuation of a thin sub-heap, and none where its object is pinned.
ghost use Rattle.std.specs.Prelude.{◌≡◌};

use ak_words::NoMemory;
use evacuate::evacuate;
use move_plan::{Move, Pins};
use std::alloc::Global;
use std::process::Abort;
use std::test::Fail;
use sub_heaps::Heaps;

// Places an object, which goes to this place.
fn place_at(rt: &impl Abort, heaps: &mut Heaps, bytes: u64, at: u32)
    requires { heaps.old.most ≡ 8 }
    ensures most { heaps.new.most ≡ 8 }
    ensures count { heaps.new.count ≡ heaps.old.count }
{
    assert!(rt; heaps.live().0 < 8);
    assert_eq!(rt; heaps.place(bytes, 0), Some(at));
}

// Frees the lowest object.
fn free_lowest(heaps: &mut Heaps)
    ensures most { heaps.new.most ≡ heaps.old.most }
    ensures count { heaps.new.count ≡ heaps.old.count }
{
    if let Some(object) = heaps.next_object(0) {
        heaps.free(object.at);
    }
}

// The first move of an evacuation, how many there are, and how many sub-heaps they empty.
fn evacuated(
    alloc: Global,
    heaps: &Heaps,
    pins: &Pins,
) -> Result<(Option<Move>, usize, u32), NoMemory>
    requires most { heaps.now.most ≡ 8 }
    requires count { heaps.now.count ≡ 3 }
{
    let mut tails = Vec::with_capacity(alloc, 3)?;
    let mut moves = Vec::with_capacity(alloc, 8)?;
    let _live = heaps.live();
    let emptied = evacuate(heaps, pins, &mut tails, &mut moves);
    Ok((moves.as_slice().first().copied(), moves.len(), emptied))
}

#[test]
fn an_object_leaves_a_thin_sub_heap(rt: HostRuntime) -> Result<(), Fail> {
    let mut heaps = Heaps::new(rt.alloc(), 3, 4096, 8)?;
    place_at(&rt, &mut heaps, 3200, 0);
    place_at(&rt, &mut heaps, 900, 4096);
    free_lowest(&mut heaps);
    place_at(&rt, &mut heaps, 2000, 0);
    let mut pins = Pins::with_room(rt.alloc(), 1)?;
    let down = Move {
        from: 4096,
        to: 2000,
        size: 912,
    };
    assert_eq!(rt; evacuated(rt.alloc(), &heaps, &pins)?, (Some(down), 1, 1));
    pins.add(4096);
    assert_eq!(rt; evacuated(rt.alloc(), &heaps, &pins)?, (None, 0, 0));
    Ok(())
}
