ghost use Rattle.std.specs.Prelude.{◌≡◌};
ghost use Rattle.flat_words.specs.Words.{applied};

use crate::arithmetic::{add, mul, sub};
use crate::bitwise::{and_bits, or_bits, xor_bits};
use crate::comparing::{at_most, below, equal, unequal};
use crate::dividing::{divide, remainder};
use crate::shifting::{shift_left, shift_right};
use ak_words::{IntType, Op};

/// Carries out an operation of C on the numbers of a type that two words stand for ([`ak_words::wrap_apply`]), by the function that is named
/// for it.
pub fn apply(op: Op, t: IntType, a: u64, b: u64) -> u64
    ensures { result ≡ applied op t a b }
{
    match op {
        Op::Add => add(t, a, b),
        Op::Sub => sub(t, a, b),
        Op::Mul => mul(t, a, b),
        Op::Div => divide(t, a, b),
        Op::Rem => remainder(t, a, b),
        Op::Shl => shift_left(t, a, b),
        Op::Shr => shift_right(t, a, b),
        Op::And => and_bits(t, a, b),
        Op::Or => or_bits(t, a, b),
        Op::Xor => xor_bits(t, a, b),
        Op::Eq => equal(t, a, b),
        Op::Ne => unequal(t, a, b),
        Op::Lt => below(t, a, b),
        Op::Le => at_most(t, a, b),
        Op::Gt => below(t, b, a),
        Op::Ge => at_most(t, b, a),
    }
}
