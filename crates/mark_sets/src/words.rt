//! Sets of numbers as words of 64. Words that aren't there have none.

ghost use Rattle.std.specs.Prelude.{◌≡◌, ◌≢◌, ◌<◌, ◌≤◌, ◌*◌, ◌||◌, ℕ, length, true, false, if◌then◌else◌, IfOk, OnOk, slice_index};
ghost use Rattle.mark_sets.specs.Words.{has};

use ak_words::NoMemory;
use std::alloc::Global;

/// The word of this number.
pub fn word(set: &[u64], k: usize) -> u64
    ensures { result ≡ slice_index set.now k }
{
    if k < set.len() { set[k] } else { 0 }
}

/// Whether the number is in the set.
pub fn contains(set: &[u64], i: usize) -> bool
    ensures { result ≡ has set.now i }
{
    word(set, i / 64) >> (i % 64) & 1 == 1
}

// Adds what a set of no more words has.
fn unite(into: &mut Vec<u64>, other: &[u64])
    requires { length other.now ≤ length into.old.items }
    ensures { (i : ℕ) → has into.new.items i ≡ (has into.old.items i || has other.now i) }
{
    'words: for k in 0..other.len() {
        into[k] |= other[k];
    }
}

fn with_fewer(long: Vec<u64>, short: &[u64]) -> Vec<u64>
    requires { length short.now ≤ length long.items }
    ensures { (i : ℕ) → has result.items i ≡ (has long.items i || has short.now i) }
{
    let mut out = long;
    unite(&mut out, short);
    out
}

/// What either set has.
pub fn united(a: Vec<u64>, b: Vec<u64>) -> Vec<u64>
    ensures { (i : ℕ) → has result.items i ≡ (has a.items i || has b.items i) }
{
    if a.len() < b.len() {
        with_fewer(b, &a)
    } else {
        with_fewer(a, &b)
    }
}

// Makes room for the number.
fn widen(set: &mut Vec<u64>, i: usize) -> Result<(), NoMemory>
    ensures wide { OnOk result (i < 64 * length set.new.items) }
    ensures same { OnOk result ((j : ℕ) → has set.new.items j ≡ has set.old.items j) }
{
    'words: for k in set.len()..i / 64 + 1 {
        set.push(0)?;
    }
    Ok(())
}

fn put(set: &mut Vec<u64>, i: usize)
    requires { i < 64 * length set.old.items }
    ensures there { has set.new.items i ≡ true }
    ensures others { (j : ℕ) → j ≢ i → has set.new.items j ≡ has set.old.items j }
{
    let at = i / 64;
    let changed = word(set, at) | (1u64 << (i % 64));
    set[at] = changed;
}

/// Puts a number into the set.
///
/// # Errors
///
/// Only want of memory.
pub fn insert(set: &mut Vec<u64>, i: usize) -> Result<(), NoMemory>
    ensures there { OnOk result (has set.new.items i ≡ true) }
    ensures others { OnOk result ((j : ℕ) → j ≢ i → has set.new.items j ≡ has set.old.items j) }
{
    widen(set, i)?;
    put(set, i);
    Ok(())
}

/// Takes a number out of the set.
pub fn remove(set: &mut Vec<u64>, i: usize)
    ensures gone { has set.new.items i ≡ false }
    ensures others { (j : ℕ) → j ≢ i → has set.new.items j ≡ has set.old.items j }
{
    let at = i / 64;
    if at < set.len() {
        let changed = word(set, at) & !(1u64 << (i % 64));
        set[at] = changed;
    }
}

/// All numbers below this, and maybe a few more.
///
/// # Errors
///
/// Only want of memory.
pub fn full(alloc: Global, count: usize) -> Result<Vec<u64>, NoMemory>
    ensures { IfOk result (λ v. (i : ℕ) → i < count → has v.items i ≡ true) }
{
    Ok(vec![in alloc; u64::MAX; count / 64 + 1]?)
}

fn greater(a: usize, b: usize) -> usize
    ensures first { a ≤ result }
    ensures second { b ≤ result }
{
    if a < b { b } else { a }
}

/// Of the numbers in the set those that are in `no`, and of the others those that are in `yes`.
///
/// # Errors
///
/// Only want of memory.
pub fn chosen(alloc: Global, set: &[u64], yes: &[u64], no: &[u64]) -> Result<Vec<u64>, NoMemory>
    ensures { IfOk result (λ v. (i : ℕ) → has v.items i ≡ (if has set.now i then has no.now i else has yes.now i)) }
{
    let most = greater(yes.len(), no.len());
    let mut out = Vec::with_capacity(alloc, most)?;
    'words: for k in 0..most {
        let first = word(yes, k);
        out.push(first ^ ((first ^ word(no, k)) & word(set, k)))?;
    }
    Ok(out)
}

/// Whether the set has no numbers.
pub fn is_empty(set: &[u64]) -> bool
    ensures { result ≡ true → (i : ℕ) → has set.now i ≡ false }
{
    for word in set {
        if *word != 0 {
            return false;
        }
    }
    true
}
