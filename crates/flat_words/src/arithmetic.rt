ghost use Rattle.std.specs.Prelude.{◌≡◌};
ghost use Rattle.ak_words.specs.declared.operation.Op.TheVariants.{Add, Sub, Mul};
ghost use Rattle.flat_words.specs.Words.{applied};

use crate::words::word_in;
use ak_words::IntType;

/// The sum.
#[inline]
pub fn add(t: IntType, a: u64, b: u64) -> u64
    ensures { result ≡ applied Add t a b }
{
    word_in(t, a.wrapping_add(b))
}

/// The difference.
#[inline]
pub fn sub(t: IntType, a: u64, b: u64) -> u64
    ensures { result ≡ applied Sub t a b }
{
    word_in(t, a.wrapping_sub(b))
}

/// The product.
#[inline]
pub fn mul(t: IntType, a: u64, b: u64) -> u64
    ensures { result ≡ applied Mul t a b }
{
    word_in(t, a.wrapping_mul(b))
}
