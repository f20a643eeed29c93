ghost use Rattle.std.specs.Prelude.{◌≡◌, Some, ◌≢◌, ℕ, ◌+◌, ◌-◌, ◌*◌, ◌^◌, ◌%◌, ◌<◌, ◌≤◌, ◌↔◌, ◌++◌, length, take, drop, slice_index, replicate, IsTrue, IsOk, OnOk, OnErr, IfOk, IfErr, IfSome, IfNone};
ghost use Rattle.flat_store.specs.Flat.{first_address, HasBytes, IsFirstOutside, first_outside, first_outside_of_both, bytes_from, with_bytes, ChangesOnly, IsTextLen, HasNoZero};
ghost use Rattle.flat_store.specs.Word.{is_word_size, number_of, low_bytes};

use crate::moving::move_bytes;
use crate::outside::OutsideFlat;
use ak_words::NoMemory;
use std::alloc::Global;
use std::marker::Model;

/// The address of the first byte.
pub const FIRST_ADDRESS: u64 = 4096;

/// Bytes with addresses from [`FIRST_ADDRESS`] on, one after the other.
#[derive(Debug, Drop)]
pub struct Flat {
    bytes: Vec<u8>,
}

// Clauses see the list of the bytes.
impl Model for Flat {
    ghost use Rattle.std.specs.Prelude.{ℕ, List, length, ◌≤◌, ◌^◌};

    ghost Value = { List ℕ };

    ghost view = { λ f. f.bytes.items };

    ghost invariant = { λ f. length f.bytes.items ≤ 2 ^ 32 };
}

impl Flat {
    /// Makes `size` zero bytes, of which [`FIRST_ADDRESS`] is the first's address. The error is
    /// want of memory.
    pub fn new(alloc: Global, size: u64) -> Result<Flat, NoMemory>
        requires { size ≤ 2 ^ 32 }
        ensures { IfOk result (λ f. f ≡ replicate size 0) }
    {
        let bytes = vec![in alloc; 0; size as usize]?;
        Ok(Flat { bytes })
    }

    /// The number that the `n` bytes from `at` on stand for, the least first. The error names the
    /// first of these addresses that has no byte.
    pub fn load(&self, at: u64, n: u8) -> Result<u64, OutsideFlat>
        requires { IsTrue (is_word_size n) }
        ensures within { IsOk result ↔ HasBytes self.now at n }
        ensures value { IfOk result (λ v. v ≡ number_of (bytes_from self.now at n)) }
        ensures fits { IfOk result (λ v. v < 256 ^ n) }
        ensures outside { IfErr result (λ e. first_outside self.now at n ≡ Some e.0) }
    {
        let start = index_of(&self.bytes, at, u64::from(n))?;
        Ok(number_at(&self.bytes, start, n))
    }

    /// Writes the `n` low bytes of `v` from `at` on, the least first. The error names the first of
    /// these addresses that has no byte, and nothing is written.
    pub fn store(&mut self, at: u64, n: u8, v: u64) -> Result<(), OutsideFlat>
        requires { IsTrue (is_word_size n) }
        ensures within { IsOk result ↔ HasBytes self.old at n }
        ensures stored { OnOk result (self.new ≡ with_bytes self.old at (low_bytes n v)) }
        ensures others { OnOk result (ChangesOnly self.old self.new at n) }
        ensures read_back { OnOk result (number_of (bytes_from self.new at n) ≡ v % 256 ^ n) }
        ensures outside { IfErr result (λ e. first_outside self.old at n ≡ Some e.0) }
        ensures unchanged { OnErr result (self.new ≡ self.old) }
    {
        let start = index_of(&self.bytes, at, u64::from(n))?;
        put_number(&mut self.bytes, start, n, v);
        Ok(())
    }

    /// Leaves at `to` the `n` bytes that stood at `from`, also where the two overlap. The error
    /// names the first address from `to` on that has no byte, and if there is none the first from
    /// `from` on; nothing is written then.
    pub fn copy(&mut self, to: u64, from: u64, n: u64) -> Result<(), OutsideFlat>
        ensures within { IsOk result ↔ (HasBytes self.old to n × HasBytes self.old from n) }
        ensures copied { OnOk result (self.new ≡ with_bytes self.old to (bytes_from self.old from n)) }
        ensures there { OnOk result (bytes_from self.new to n ≡ bytes_from self.old from n) }
        ensures others { OnOk result (ChangesOnly self.old self.new to n) }
        ensures outside { IfErr result (λ e. first_outside_of_both self.old to from n ≡ Some e.0) }
        ensures unchanged { OnErr result (self.new ≡ self.old) }
    {
        if n == 0 {
            return Ok(());
        }
        let target = index_of(&self.bytes, to, n)?;
        let source = index_of(&self.bytes, from, n)?;
        move_bytes(&mut self.bytes, target, source, n as usize);
        Ok(())
    }

    /// Makes the `n` bytes from `at` on 0. The error names the first of these addresses that has no
    /// byte, and nothing is written.
    pub fn clear(&mut self, at: u64, n: u64) -> Result<(), OutsideFlat>
        ensures within { IsOk result ↔ HasBytes self.old at n }
        ensures cleared { OnOk result (self.new ≡ with_bytes self.old at (replicate n 0)) }
        ensures others { OnOk result (ChangesOnly self.old self.new at n) }
        ensures outside { IfErr result (λ e. first_outside self.old at n ≡ Some e.0) }
        ensures unchanged { OnErr result (self.new ≡ self.old) }
    {
        if n == 0 {
            return Ok(());
        }
        let start = index_of(&self.bytes, at, n)?;
        self.bytes[start..start + n as usize].fill(0);
        Ok(())
    }

    /// How many bytes stand from `at` on before the first zero byte, or none where the first
    /// `most + 1` bytes hold no zero. The error names the first address that has no byte, where
    /// that comes before either.
    pub fn text_len(&self, at: u64, most: u64) -> Result<Option<u64>, OutsideFlat>
        // No two of these hold at once, so each answer comes exactly where its own does.
        ensures ended { IfOk result (λ text. IfSome text (λ len. (len ≤ most) × IsTextLen self.now at len)) }
        ensures longer { IfOk result (λ text. IfNone text (HasNoZero self.now at (most + 1))) }
        ensures outside { IfErr result (λ e. (first_outside self.now at (most + 1) ≡ Some e.0) × HasNoZero self.now at (e.0 - at)) }
    {
        let start = index_of(&self.bytes, at, 1)?;
        let left = self.bytes.len() - start;
        let reached = left.min(most.saturating_add(1) as usize);
        match first_zero(&self.bytes[start..start + reached]) {
            Some(len) => Ok(Some(len as u64)),
            None if most < reached as u64 => Ok(None),
            None => Err(OutsideFlat(at + reached as u64)),
        }
    }
}

// The index of the byte at `at`, where there are `n` bytes from there on.
fn index_of(bytes: &[u8], at: u64, n: u64) -> Result<usize, OutsideFlat>
    requires size { length bytes.now ≤ 2 ^ 32 }
    requires some { 1 ≤ n }
    ensures index { IfOk result (λ i. at ≡ first_address + i) }
    ensures within { IfOk result (λ i. i + n ≤ length bytes.now) }
    ensures outside { IfErr result (λ e. IsFirstOutside bytes.now at n e.0) }
{
    // From below the first address this wraps to more than there are bytes.
    let index = at.wrapping_sub(FIRST_ADDRESS);
    let len = bytes.len() as u64;
    if len <= index {
        Err(OutsideFlat(at))
    } else if len - index < n {
        Err(OutsideFlat(FIRST_ADDRESS + len))
    } else {
        Ok(index as usize)
    }
}

// The index of the first zero byte.
fn first_zero(bytes: &[u8]) -> Option<usize>
    ensures zero { IfSome result (λ i. (i < length bytes.now) × (slice_index bytes.now i ≡ 0)) }
    ensures before { IfSome result (λ i. (k : ℕ) → k < i → slice_index bytes.now k ≢ 0) }
    ensures none { IfNone result ((k : ℕ) → k < length bytes.now → slice_index bytes.now k ≢ 0) }
{
    bytes.iter().position(|byte| *byte == 0)
}

// The number that the `n` bytes from index `start` on stand for, the least first.
#[inline(always)]
fn number_at(bytes: &[u8], start: usize, n: u8) -> u64
    requires size { IsTrue (is_word_size n) }
    requires within { start + n ≤ length bytes.now }
    ensures value { result ≡ number_of (take n (drop start bytes.now)) }
    ensures fits { result < 256 ^ n }
{
    // Each size has a case of its own, so that it is one read.
    match n {
        1 => u64::from(bytes[start]),
        2 => u64::from(u16::from_le_bytes(bytes_at(bytes, start))),
        4 => u64::from(u32::from_le_bytes(bytes_at(bytes, start))),
        _ => u64::from_le_bytes(bytes_at(bytes, start)),
    }
}

// The `N` bytes from index `start` on.
#[inline(always)]
fn bytes_at<const N: usize>(bytes: &[u8], start: usize) -> [u8; N]
    requires { start + N ≤ length bytes.now }
    ensures { result ≡ take N (drop start bytes.now) }
{
    let mut word = [0; N];
    word.copy_from_slice(&bytes[start..start + N]);
    word
}

// Writes the `n` low bytes of `v` from index `start` on, the least first.
#[inline(always)]
fn put_number(bytes: &mut [u8], start: usize, n: u8, v: u64)
    requires size { IsTrue (is_word_size n) }
    requires within { start + n ≤ length bytes.old }
    ensures { bytes.new ≡ take start bytes.old ++ low_bytes n v ++ drop (start + n) bytes.old }
{
    let word = v.to_le_bytes();
    // Each size has a case of its own, so that it is one write.
    match n {
        1 => bytes[start] = word[0],
        2 => bytes[start..start + 2].copy_from_slice(&word[..2]),
        4 => bytes[start..start + 4].copy_from_slice(&word[..4]),
        _ => bytes[start..start + 8].copy_from_slice(&word),
    }
}
