ghost use Rattle.std.specs.Prelude.{◌≡◌};
ghost use Rattle.ak_words.specs.declared.operation.Op.TheVariants.{And, Or, Xor};
ghost use Rattle.flat_words.specs.Words.{applied};

use crate::words::word_in;
use ak_words::IntType;

/// The bits that both have.
#[inline]
pub fn and_bits(t: IntType, a: u64, b: u64) -> u64
    ensures { result ≡ applied And t a b }
{
    word_in(t, a & b)
}

/// The bits that one of them has.
#[inline]
pub fn or_bits(t: IntType, a: u64, b: u64) -> u64
    ensures { result ≡ applied Or t a b }
{
    word_in(t, a | b)
}

/// The bits that just one of them has.
#[inline]
pub fn xor_bits(t: IntType, a: u64, b: u64) -> u64
    ensures { result ≡ applied Xor t a b }
{
    word_in(t, a ^ b)
}
