ghost use Rattle.std.specs.Prelude.{◌≡◌, ◌^◌, ◌<◌, ◌≤◌, IfSome, IfNone, pos, neg_ℤ, ◌+ℤ◌, ◌<ℤ◌};
ghost use Rattle.ak_words.specs.IntType.{least};
ghost use Rattle.flat_words.specs.Words.{applied, number_in, number_word, word_in};

use ak_words::{IntType, Num, Op, wrap_apply};

/// The word of a number.
pub fn number_word(n: Num) -> u64
    ensures { result ≡ number_word n }
{
    IntType::unsigned_long().bit_pattern(n.value)
}

/// The number of a type that a word stands for.
pub fn number_of_word(t: IntType, word: u64) -> Num
    ensures { result ≡ number_in t word }
{
    Num::from_bits(t, word)
}

/// The word of the number of a type that a word stands for.
#[inline]
pub fn word_in(t: IntType, word: u64) -> u64
    ensures { result ≡ word_in t word }
{
    above_least(t, word).wrapping_sub(half(t))
}

// An operation on the numbers that the words stand for.
pub(crate) fn by_numbers(op: Op, t: IntType, a: u64, b: u64) -> u64
    ensures { result ≡ applied op t a b }
{
    number_word(wrap_apply(op, number_of_word(t, a), number_of_word(t, b)))
}

// How far the least number of the type is below 0.
#[inline]
pub(crate) fn half(t: IntType) -> u64
    ensures far { least t ≡ neg_ℤ (pos result) }
    ensures small { result ≤ 2 ^ 63 }
{
    if t.signed { 1u64 << (t.bits - 1) } else { 0 }
}

// How far the number of a type that a word stands for is above the least one.
#[inline]
pub(crate) fn above_least(t: IntType, word: u64) -> u64
    ensures above { (number_in t word).value ≡ least t +ℤ pos result }
    ensures below { result < 2 ^ t.bits }
{
    let mask = u64::MAX >> (64 - t.bits);
    word.wrapping_add(half(t)) & mask
}

// The number that a word stands for, unless it is negative.
#[inline]
pub(crate) fn natural(t: IntType, word: u64) -> Option<u64>
    ensures some { IfSome result (λ n. (number_in t word).value ≡ pos n) }
    ensures none { IfNone result ((number_in t word).value <ℤ pos 0) }
{
    let above = above_least(t, word);
    let zero = half(t);
    if above < zero {
        None
    } else {
        Some(above - zero)
    }
}
