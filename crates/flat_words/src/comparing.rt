ghost use Rattle.std.specs.Prelude.{◌≡◌};
ghost use Rattle.ak_words.specs.declared.operation.Op.TheVariants.{Eq, Ne, Lt, Le, Gt, Ge};
ghost use Rattle.flat_words.specs.Words.{applied};

use crate::words::above_least;
use ak_words::IntType;

/// Whether the two are equal.
#[inline]
pub fn equal(t: IntType, a: u64, b: u64) -> u64
    ensures { result ≡ applied Eq t a b }
{
    u64::from(above_least(t, a) == above_least(t, b))
}

/// Whether the two aren't equal.
#[inline]
pub fn unequal(t: IntType, a: u64, b: u64) -> u64
    ensures { result ≡ applied Ne t a b }
{
    u64::from(above_least(t, a) != above_least(t, b))
}

/// Whether the first is below the second.
#[inline]
pub fn below(t: IntType, a: u64, b: u64) -> u64
    ensures less { result ≡ applied Lt t a b }
    ensures greater { result ≡ applied Gt t b a }
{
    u64::from(above_least(t, a) < above_least(t, b))
}

/// Whether the first is at most the second.
#[inline]
pub fn at_most(t: IntType, a: u64, b: u64) -> u64
    ensures less { result ≡ applied Le t a b }
    ensures greater { result ≡ applied Ge t b a }
{
    u64::from(above_least(t, a) <= above_least(t, b))
}
