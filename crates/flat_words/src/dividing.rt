ghost use Rattle.std.specs.Prelude.{◌≡◌};
ghost use Rattle.ak_words.specs.declared.operation.Op.TheVariants.{Div, Rem};
ghost use Rattle.flat_words.specs.Words.{applied};

use crate::words::{by_numbers, natural, word_in};
use ak_words::{IntType, Op};

/// The quotient, and 0 where the second is 0.
pub fn divide(t: IntType, a: u64, b: u64) -> u64
    ensures { result ≡ applied Div t a b }
{
    let Some(x) = natural(t, a) else {
        return by_numbers(Op::Div, t, a, b);
    };
    let Some(y) = natural(t, b) else {
        return by_numbers(Op::Div, t, a, b);
    };
    if y == 0 {
        return word_in(t, 0);
    }
    word_in(t, x / y)
}

/// The remainder, and 0 where the second is 0.
pub fn remainder(t: IntType, a: u64, b: u64) -> u64
    ensures { result ≡ applied Rem t a b }
{
    let Some(x) = natural(t, a) else {
        return by_numbers(Op::Rem, t, a, b);
    };
    let Some(y) = natural(t, b) else {
        return by_numbers(Op::Rem, t, a, b);
    };
    if y == 0 {
        return word_in(t, 0);
    }
    word_in(t, x % y)
}
