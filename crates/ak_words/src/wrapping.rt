ghost use Rattle.std.specs.Prelude.{◌≡◌, ◌<◌};
ghost use Rattle.ak_words.specs.Num.{num};
ghost use Rattle.ak_words.specs.Op.{result_of, result_type, replacement, wrapped_result};
ghost use Rattle.ak_words.specs.Wrapped.{residue};
ghost use Rattle.ak_words.specs.declared.number.Num.{Num};

use crate::evaluation::apply;
use crate::int_type::IntType;
use crate::number::Num;
use crate::operation::Op;

/// Carries out an operation and always gives a number: that of [`apply`] where no rule of C is
/// broken. Else sums, differences, products, quotients and left shifts wrap, a zero divisor gives
/// 0, a quotient that overflows has the remainder 0, and a shift's count is taken modulo the
/// width (this project's profile).
pub fn wrap_apply(op: Op, a: Num, b: Num) -> Num
    ensures value { result ≡ wrapped_result op a b }
    ensures ty { result.ty ≡ result_type op a.ty }
    ensures agrees { (n : Num) → result_of op a b ≡ Ok n → result ≡ n }
{
    match apply(op, a, b) {
        Ok(number) => number,
        Err(_) => replacement(op, a, b),
    }
}

// What stands for the result where a rule is broken. Only the operators that are named here, and
// the remainder, can break one.
fn replacement(op: Op, a: Num, b: Num) -> Num
    ensures { result ≡ num a.ty (replacement op a.ty a.value b.value) }
{
    match op {
        Op::Add => Num::wrapping(a.ty, a.value + b.value),
        Op::Sub => Num::wrapping(a.ty, a.value - b.value),
        Op::Mul => Num::wrapping(a.ty, a.value.wrapping_mul(b.value)),
        Op::Div => quotient(a, b),
        Op::Shl => Num::wrapping(a.ty, a.value << places(a.ty, b)),
        Op::Shr => Num::wrapping(a.ty, a.value >> places(a.ty, b)),
        _ => Num::wrapping(a.ty, 0),
    }
}

fn quotient(a: Num, b: Num) -> Num
    ensures { result ≡ num a.ty (replacement Op.Div a.ty a.value b.value) }
{
    if b.value == 0 {
        Num::wrapping(a.ty, 0)
    } else {
        Num::wrapping(a.ty, a.value / b.value)
    }
}

// A shift's count modulo the width.
fn places(ty: IntType, count: Num) -> u32
    ensures value { result ≡ residue ty.bits count.value }
    ensures below { result < ty.bits }
{
    count.value.rem_euclid(i128::from(ty.bits)) as u32
}
