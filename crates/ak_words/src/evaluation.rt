ghost use Rattle.std.specs.Prelude.{◌≡◌, IsTrue, IsFalse, IfSome, IfNone, ◌&&◌, ◌||◌, int_lt, pos, unsigned_abs};
ghost use Rattle.ak_words.specs.IntType.{int};
ghost use Rattle.ak_words.specs.Num.{num};
ghost use Rattle.ak_words.specs.Op.{truth, is_count, overflows, arithmetic_result, result_of};

use crate::int_type::IntType;
use crate::number::Num;
use crate::operation::Op;
use crate::rule::Rule;

/// Carries out an operation, or names the rule of C that it breaks (C11 6.5.5 to 6.5.12). In C
/// both operands are of one promoted type or, at a shift, each is of a promoted one; the
/// definition gives an answer for others too, so this is no condition of the call.
pub fn apply(op: Op, a: Num, b: Num) -> Result<Num, Rule>
    ensures { result ≡ result_of op a b }
{
    match op {
        Op::Add => at_type(a.ty, a.value + b.value),
        Op::Sub => at_type(a.ty, a.value - b.value),
        Op::Mul => product(a, b),
        Op::Div => quotient(a, b),
        Op::Rem => remainder(a, b),
        Op::Shl => shift_left(a, b),
        Op::Shr => shift_right(a, b),
        Op::And => Ok(Num::from_bits(a.ty, a.to_bits() & a.ty.bit_pattern(b.value))),
        Op::Or => Ok(Num::from_bits(a.ty, a.to_bits() | a.ty.bit_pattern(b.value))),
        Op::Xor => Ok(Num::from_bits(a.ty, a.to_bits() ^ a.ty.bit_pattern(b.value))),
        Op::Eq => Ok(truth(a.value == b.value)),
        Op::Ne => Ok(truth(a.value != b.value)),
        Op::Lt => Ok(truth(a.value < b.value)),
        Op::Le => Ok(truth(a.value <= b.value)),
        Op::Gt => Ok(truth(a.value > b.value)),
        Op::Ge => Ok(truth(a.value >= b.value)),
    }
}

// A comparison's answer.
fn truth(holds: bool) -> Num
    ensures { result ≡ num int (truth holds) }
{
    Num::int(i32::from(holds))
}

// A signed type does not hold the result; an unsigned type reduces it.
fn overflows(ty: IntType, value: i128) -> bool
    ensures { result ≡ overflows ty value }
{
    ty.signed && !ty.holds(value)
}

// The result of + - * /.
fn at_type(ty: IntType, value: i128) -> Result<Num, Rule>
    ensures { result ≡ arithmetic_result ty value }
{
    if overflows(ty, value) {
        Err(Rule::C1)
    } else {
        Ok(Num::wrapping(ty, value))
    }
}

// A product of unsigned numbers may pass i128: what wraps then lies above the type's bits.
fn product(a: Num, b: Num) -> Result<Num, Rule>
    ensures { result ≡ result_of Op.Mul a b }
{
    at_type(a.ty, a.value.wrapping_mul(b.value))
}

fn quotient(a: Num, b: Num) -> Result<Num, Rule>
    ensures { result ≡ result_of Op.Div a b }
{
    if b.value == 0 {
        Err(Rule::C2)
    } else {
        at_type(a.ty, a.value / b.value)
    }
}

// A remainder is defined where the quotient is.
fn remainder(a: Num, b: Num) -> Result<Num, Rule>
    ensures { result ≡ result_of Op.Rem a b }
{
    if b.value == 0 {
        Err(Rule::C2)
    } else if overflows(a.ty, a.value / b.value) {
        Err(Rule::C1)
    } else {
        Ok(Num::wrapping(a.ty, a.value % b.value))
    }
}

// A shift's count, where it is from 0 to below the width.
fn shift_count(ty: IntType, count: Num) -> Option<u32>
    ensures none { IfNone result (IsFalse (is_count ty count.value)) }
    ensures within { IfSome result (λ places. IsTrue (is_count ty count.value)) }
    ensures value { IfSome result (λ places. places ≡ unsigned_abs count.value) }
{
    if 0 <= count.value && count.value < i128::from(ty.bits) {
        Some(count.value as u32)
    } else {
        None
    }
}

// A left shift of a signed number breaks a rule where the number is negative, and where its type
// does not hold the result.
fn loses_sign(a: Num, shifted: i128) -> bool
    ensures { result ≡ (a.ty.signed && int_lt a.value (pos 0) || overflows a.ty shifted) }
{
    a.ty.signed && (a.value < 0 || !a.ty.holds(shifted))
}

fn shift_left(a: Num, b: Num) -> Result<Num, Rule>
    ensures { result ≡ result_of Op.Shl a b }
{
    let Some(count) = shift_count(a.ty, b) else {
        return Err(Rule::C3);
    };
    let shifted = a.value << count;
    if loses_sign(a, shifted) {
        Err(Rule::C3)
    } else {
        Ok(Num::wrapping(a.ty, shifted))
    }
}

fn shift_right(a: Num, b: Num) -> Result<Num, Rule>
    ensures { result ≡ result_of Op.Shr a b }
{
    match shift_count(a.ty, b) {
        Some(count) => Ok(Num::wrapping(a.ty, a.value >> count)),
        None => Err(Rule::C3),
    }
}
