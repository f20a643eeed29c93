ghost use Rattle.std.specs.Prelude.{◌≡◌, ◌^◌};
ghost use Rattle.ak_words.specs.IntType.{IsInRange, promoted_type, common_type};
ghost use Rattle.ak_words.specs.Num.{num};
ghost use Rattle.ak_words.specs.Wrapped.{AreCongruent};

use crate::int_type::IntType;
use crate::number::Num;

/// The type that a value of this type has in an expression: `int` below 32 bits, and else the
/// type itself (C11 6.3.1.1).
pub fn promote(t: IntType) -> IntType
    ensures { result ≡ promoted_type t }
{
    if t.bits < 32 { IntType::INT } else { t }
}

/// The type in which an operation on operands of these types is done: each type is promoted, and
/// the wider is taken, at equal width the unsigned one (C11 6.3.1.8).
pub fn common(a: IntType, b: IntType) -> IntType
    ensures { result ≡ common_type a b }
{
    let left = promote(a);
    let right = promote(b);
    if left.bits < right.bits {
        right
    } else if right.bits < left.bits || !left.signed {
        left
    } else {
        right
    }
}

/// The number that `n` becomes at another type: the one that is congruent to it modulo 2^bits
/// (C11 6.3.1.3; for signed types this project's profile).
pub fn convert(n: Num, to: IntType) -> Num
    ensures value { result ≡ num to n.value }
    ensures congruent { AreCongruent (2 ^ to.bits) result.value n.value }
    ensures kept { IsInRange to n.value → result.value ≡ n.value }
{
    Num::wrapping(to, n.value)
}
