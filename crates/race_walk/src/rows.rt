ghost use Rattle.std.specs.Prelude.{◌≡◌, ℕ, max, false, nat_eq, Some, OnOk};
ghost use Rattle.std.specs.HashMap.{get};
ghost use Rattle.race_rules.specs.Clocks.{if_told, is_of, is_of_all};
ghost use Rattle.race_walk.specs.Keys.{two_eq, three_eq};
ghost use Rattle.race_walk.specs.Views.{told_by, row_of};

use crate::clock::join;
use race_rules::Touch;
use std::alloc::{AllocError, Global};
use std::collections::HashMap;
use std::hash::Hash;
use std::mem;

/// The row of a key, which is empty where there is none.
pub fn row<'a, K: Eq + Hash>(rows: &'a HashMap<K, Vec<u64>>, key: &K) -> &'a [u64]
    ensures { result.now ≡ row_of (get K.eq rows.now key.now) }
{
    match rows.get(key) {
        Some(row) => row.as_slice(),
        None => &[],
    }
}

/// Lets the row of a key know what the clock knows.
pub fn join_row<K: Eq + Hash + Copy + Drop>(
    alloc: Global,
    rows: &mut HashMap<K, Vec<u64>>,
    key: K,
    clock: &[u64],
) -> Result<(), AllocError>
    ensures here { OnOk result ((t : ℕ) → told_by (row_of (get K.eq rows.new key)) t ≡ max (told_by (row_of (get K.eq rows.old key)) t) (told_by clock.now t)) }
    ensures others { OnOk result ((q : K) → K.eq key q ≡ false → get K.eq rows.new q ≡ get K.eq rows.old q) }
{
    let mut row = match rows.remove(&key) {
        Some(row) => row,
        None => Vec::new(alloc),
    };
    join(&mut row, clock)?;
    rows.insert(key, row)?;
    Ok(())
}

/// Lets the row of a mutex that is given back know what the clock knows.
pub fn release(
    alloc: Global,
    rows: &mut HashMap<(u64, (u32, u32)), Vec<u64>>,
    touch: Touch,
    clock: &[u64],
) -> Result<(), AllocError>
    ensures { OnOk result ((b f e u : ℕ) → told_by (row_of (get three_eq rows.new (b, (f, e)))) u ≡ if_told (is_of_all touch b f e) (told_by clock.now) (told_by (row_of (get three_eq rows.old (b, (f, e))))) u) }
{
    join_row(alloc, rows, (touch.block, (touch.from, touch.to)), clock)?;
    Ok(())
}

/// Lets the row of each cell that is written atomically know what the clock knows.
pub fn write(
    alloc: Global,
    rows: &mut HashMap<(u64, u32), Vec<u64>>,
    touch: Touch,
    clock: &[u64],
) -> Result<(), AllocError>
    ensures { OnOk result ((b e u : ℕ) → told_by (row_of (get two_eq rows.new (b, e))) u ≡ if_told (is_of touch b e) (told_by clock.now) (told_by (row_of (get two_eq rows.old (b, e)))) u) }
{
    for cell in touch.from..touch.to {
        join_row(alloc, rows, (touch.block, cell), clock)?;
    }
    Ok(())
}

/// The clock is its thread's row from here on, and its place takes that of the row before.
pub fn replace(
    alloc: Global,
    rows: &mut HashMap<u32, Vec<u64>>,
    thread: u32,
    clock: &mut Vec<u64>,
) -> Result<(), AllocError>
    ensures here { OnOk result (get nat_eq rows.new thread ≡ Some clock.old) }
    ensures others { OnOk result ((q : ℕ) → nat_eq thread q ≡ false → get nat_eq rows.new q ≡ get nat_eq rows.old q) }
{
    let row = mem::replace(clock, Vec::new(alloc));
    if let Some(before) = rows.insert(thread, row)? {
        *clock = before;
    }
    Ok(())
}
