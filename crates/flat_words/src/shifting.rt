ghost use Rattle.std.specs.Prelude.{◌≡◌, ◌<◌};
ghost use Rattle.ak_words.specs.declared.operation.Op.TheVariants.{Shl, Shr};
ghost use Rattle.ak_words.specs.Wrapped.{residue};
ghost use Rattle.flat_words.specs.Words.{applied, number_in};

use crate::words::{by_numbers, natural, word_in};
use ak_words::{IntType, Op};

/// The first shifted to the left, by the second modulo the width.
#[inline]
pub fn shift_left(t: IntType, a: u64, b: u64) -> u64
    ensures { result ≡ applied Shl t a b }
{
    word_in(t, a << places(t, b))
}

/// The first shifted to the right, by the second modulo the width: a negative number stays one.
pub fn shift_right(t: IntType, a: u64, b: u64) -> u64
    ensures { result ≡ applied Shr t a b }
{
    match natural(t, a) {
        Some(x) => word_in(t, x >> places(t, b)),
        None => by_numbers(Op::Shr, t, a, b),
    }
}

// A shift's count modulo the width: a width divides 2^bits, so the word tells it as the number does.
#[inline]
fn places(t: IntType, b: u64) -> u32
    ensures value { result ≡ residue t.bits (number_in t b).value }
    ensures below { result < 64 }
{
    (b % u64::from(t.bits)) as u32
}
