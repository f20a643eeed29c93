ghost use Rattle.std.specs.Prelude.{◌≡◌, ◌≤◌};

use std::process::Abort;
use std::test::Fail;
use sub_heaps::{Heaps, Object};

// Places an object where fewer than so many live.
fn place_below(heaps: &mut Heaps, most: u32, bytes: u64) -> Option<u32>
    requires { heaps.old.most ≡ most }
    ensures { heaps.new.most ≡ most }
{
    if heaps.live().0 < most {
        heaps.place(bytes, 0)
    } else {
        None
    }
}

// Frees the object that starts at a place, if there is one, and gives its size.
fn free_at(heaps: &mut Heaps, at: u32) -> Option<u32>
    ensures { heaps.new.most ≡ heaps.old.most }
{
    let object = heaps.next_object(at)?;
    if object.at != at {
        return None;
    }
    heaps.free(at);
    Some(object.size)
}

// Places objects of so many bytes in turn, of which eight may live, and compares each place.
fn check_places(rt: &impl Abort, heaps: &mut Heaps, rows: &[(u64, Option<u32>)])
    requires { heaps.old.most ≡ 8 }
{
    for (bytes, place) in rows {
        assert_eq!(rt; place_below(heaps, 8, *bytes), *place, "{bytes} bytes");
    }
}

#[test]
fn takes_the_lowest_places(rt: HostRuntime) -> Result<(), Fail> {
    let mut heaps = Heaps::new(rt.alloc(), 2, 64, 8)?;
    let rows = [
        (0, Some(0)),
        (49, Some(64)),
        (32, Some(16)),
        (1, Some(48)),
        (1, None),
        (65, None),
        (u64::MAX, None),
    ];
    check_places(&rt, &mut heaps, &rows);
    let shape = (heaps.count(), heaps.size());
    assert_eq!(rt;
        (shape, heaps.live(), heaps.extent()),
        ((2, 64), (4, 128), 128)
    );
    Ok(())
}

#[test]
fn moves_and_frees_an_object(rt: HostRuntime) -> Result<(), Fail> {
    let mut heaps = Heaps::new(rt.alloc(), 1, 4096, 1)?;
    assert_eq!(rt; heaps.place(16, 7), Some(0));
    heaps.shift(0, 64);
    let moved = Object {
        at: 64,
        size: 16,
        owner: 7,
    };
    let found = [heaps.next_object(1), heaps.next_object(65)];
    heaps.free(64);
    assert_eq!(rt; found, [Some(moved), None]);
    assert_eq!(rt; heaps.live(), (0, 0));
    Ok(())
}

// So many units of 16 bytes, as the lowest bits.
fn bits(units: u32) -> u64 {
    match units {
        1 => 0b1,
        2 => 0b11,
        _ => 0b111,
    }
}

// The place of the lowest unit from which so many are free, of 64 units in sub-heaps of eight.
fn plain_place(taken: u64, units: u32) -> Option<u32>
    requires { units ≤ 3 }
{
    (0..64)
        .find(|unit| unit % 8 + units <= 8 && taken >> *unit & bits(units) == 0)
        .map(|unit| unit * 16)
}

// Places so many units where the plain definition does.
fn place_plainly(heaps: &mut Heaps, taken: &mut u64, units: u32) -> bool
    requires most { heaps.old.most ≡ 64 }
    requires units { units ≤ 3 }
    ensures { heaps.new.most ≡ 64 }
{
    let place = place_below(heaps, 64, u64::from(units) * 16);
    if place != plain_place(*taken, units) {
        return false;
    }
    if let Some(at) = place {
        *taken |= bits(units).wrapping_shl(at / 16);
    }
    true
}

// Some hundred objects come and go, the lowest, the highest and others, so that the tree turns both ways.
#[test]
fn places_like_the_definition(rt: HostRuntime) -> Result<(), Fail> {
    let mut heaps = Heaps::new(rt.alloc(), 8, 128, 64)?;
    let mut taken: u64 = 0;
    let mut seed: u32 = 1;
    for _turn in 0..4000 {
        seed = seed.wrapping_mul(1_103_515_245).wrapping_add(12_345);
        let at = seed / 65_536 % 64 * 16;
        if seed / 16_384 % 4 < 2 {
            if let Some(size) = free_at(&mut heaps, at) {
                taken &= !bits(size / 16).wrapping_shl(at / 16);
            }
        } else {
            assert!(rt; place_plainly(&mut heaps, &mut taken, seed / 131_072 % 3 + 1));
        }
    }
    Ok(())
}

// How many objects of 16 bytes the large heap holds.
const MANY: u32 = 1_000_000;

// A million objects are placed one behind the other, every second one is freed, and the gaps are filled again
// from the lowest on: by a walk from gap to gap it would take hours.
#[test]
fn holds_a_million_objects(rt: HostRuntime) -> Result<(), Fail> {
    let mut heaps = Heaps::new(rt.alloc(), 1, 16_777_216, 1_000_001)?;
    for number in 0..MANY {
        assert_eq!(rt; place_below(&mut heaps, 1_000_001, 16), Some(number * 16));
    }
    for number in 0..MANY / 2 {
        assert_eq!(rt; free_at(&mut heaps, number * 32), Some(16));
    }
    for number in 0..MANY / 2 {
        assert_eq!(rt; place_below(&mut heaps, 1_000_001, 16), Some(number * 32));
    }
    assert_eq!(rt; place_below(&mut heaps, 1_000_001, 16), Some(16_000_000));
    Ok(())
}
