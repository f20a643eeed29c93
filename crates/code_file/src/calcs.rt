//! Reading what a register is set to.

ghost use Rattle.std.specs.Prelude.{◌≡◌, ◌<◌};
ghost use Rattle.ak_words.specs.declared.operation.Op.TheVariants as ops;
ghost use Rattle.struct_ir.specs.Views.{calc_view};
ghost use Rattle.formats.specs.Formats.{at_number, behind_tag};
ghost use Rattle.code_file.specs.inner.Gives.{Gives};
ghost use Rattle.code_file.specs.Calcs as calcs;
ghost use Rattle.code_file.specs.Calcs.{other_ops, operation, other_calcs, calc_fields, make_calc, calc};

use crate::fault::Fault;
use crate::numbers::{tag_at, type_at, u32_at, value_at};
use ak_words::Op;
use struct_ir::code::Calc;

/// The operation that has this number.
fn op_of(number: u8) -> Op
    requires { number < 16 }
    ensures { result ≡ at_number ops.Add other_ops number }
{
    match number {
        0 => Op::Add,
        1 => Op::Sub,
        2 => Op::Mul,
        3 => Op::Div,
        4 => Op::Rem,
        5 => Op::Shl,
        6 => Op::Shr,
        7 => Op::And,
        8 => Op::Or,
        9 => Op::Xor,
        10 => Op::Eq,
        11 => Op::Ne,
        12 => Op::Lt,
        13 => Op::Le,
        14 => Op::Gt,
        _ => Op::Ge,
    }
}

/// An operation.
#[tactic(auto, unfolding(crate::specs::Calcs::operation))]
pub fn op_at(bytes: &[u8]) -> Result<(Op, &[u8]), Fault>
    ensures { Gives (λ x. (x.0, x.1.now)) result (operation.read bytes.now) }
{
    let (number, rest) = tag_at(16, bytes)?;
    Ok((op_of(number), rest))
}

/// A number.
fn constant_at(bytes: &[u8]) -> Result<(Calc, &[u8]), Fault>
    ensures { Gives (λ x. (calc_view x.0, x.1.now)) result (behind_tag calc_fields make_calc calcs.constant bytes.now) }
{
    let (ty, rest) = type_at(bytes)?;
    let (number, rest) = value_at(ty, rest)?;
    Ok((Calc::number(number), rest))
}

/// The address of a global.
fn global_at(bytes: &[u8]) -> Result<(Calc, &[u8]), Fault>
    ensures { Gives (λ x. (calc_view x.0, x.1.now)) result (behind_tag calc_fields make_calc calcs.global bytes.now) }
{
    let (number, rest) = u32_at(bytes)?;
    Ok((Calc::Global(number), rest))
}

/// The address of a literal.
fn literal_at(bytes: &[u8]) -> Result<(Calc, &[u8]), Fault>
    ensures { Gives (λ x. (calc_view x.0, x.1.now)) result (behind_tag calc_fields make_calc calcs.literal bytes.now) }
{
    let (number, rest) = u32_at(bytes)?;
    Ok((Calc::Literal(number), rest))
}

/// The address of a stack object.
fn object_at(bytes: &[u8]) -> Result<(Calc, &[u8]), Fault>
    ensures { Gives (λ x. (calc_view x.0, x.1.now)) result (behind_tag calc_fields make_calc calcs.object bytes.now) }
{
    let (number, rest) = u32_at(bytes)?;
    Ok((Calc::Object(number), rest))
}

/// What another register holds.
fn copy_at(bytes: &[u8]) -> Result<(Calc, &[u8]), Fault>
    ensures { Gives (λ x. (calc_view x.0, x.1.now)) result (behind_tag calc_fields make_calc calcs.copy bytes.now) }
{
    let (number, rest) = u32_at(bytes)?;
    Ok((Calc::Copy(number), rest))
}

/// Whether a pointer is not null.
fn pointer_test_at(bytes: &[u8]) -> Result<(Calc, &[u8]), Fault>
    ensures { Gives (λ x. (calc_view x.0, x.1.now)) result (behind_tag calc_fields make_calc calcs.pointer_test bytes.now) }
{
    let (number, rest) = u32_at(bytes)?;
    Ok((Calc::PtrTest(number), rest))
}

/// A conversion.
fn convert_at(bytes: &[u8]) -> Result<(Calc, &[u8]), Fault>
    ensures { Gives (λ x. (calc_view x.0, x.1.now)) result (behind_tag calc_fields make_calc calcs.convert bytes.now) }
{
    let (ty, rest) = type_at(bytes)?;
    let (temp, rest) = u32_at(rest)?;
    Ok((Calc::Convert(ty, temp), rest))
}

/// An operation on numbers.
fn apply_at(bytes: &[u8]) -> Result<(Calc, &[u8]), Fault>
    ensures { Gives (λ x. (calc_view x.0, x.1.now)) result (behind_tag calc_fields make_calc calcs.apply bytes.now) }
{
    let (op, rest) = op_at(bytes)?;
    let (ty, rest) = type_at(rest)?;
    let (left, rest) = u32_at(rest)?;
    let (right, rest) = u32_at(rest)?;
    Ok((Calc::Apply(op, ty, left, right), rest))
}

/// A pointer plus a number of elements.
fn pointer_add_at(bytes: &[u8]) -> Result<(Calc, &[u8]), Fault>
    ensures { Gives (λ x. (calc_view x.0, x.1.now)) result (behind_tag calc_fields make_calc calcs.pointer_add bytes.now) }
{
    let (left, rest) = u32_at(bytes)?;
    let (right, rest) = u32_at(rest)?;
    let (scale, rest) = u32_at(rest)?;
    Ok((Calc::PtrAdd(left, right, scale), rest))
}

/// The elements between two pointers.
fn pointer_diff_at(bytes: &[u8]) -> Result<(Calc, &[u8]), Fault>
    ensures { Gives (λ x. (calc_view x.0, x.1.now)) result (behind_tag calc_fields make_calc calcs.pointer_diff bytes.now) }
{
    let (left, rest) = u32_at(bytes)?;
    let (right, rest) = u32_at(rest)?;
    let (scale, rest) = u32_at(rest)?;
    Ok((Calc::PtrDiff(left, right, scale), rest))
}

/// A pointer minus a number of elements.
fn pointer_sub_at(bytes: &[u8]) -> Result<(Calc, &[u8]), Fault>
    ensures { Gives (λ x. (calc_view x.0, x.1.now)) result (behind_tag calc_fields make_calc calcs.pointer_sub bytes.now) }
{
    let (left, rest) = u32_at(bytes)?;
    let (right, rest) = u32_at(rest)?;
    let (scale, rest) = u32_at(rest)?;
    Ok((Calc::PtrSub(left, right, scale), rest))
}

/// A comparison of two pointers.
fn pointer_compare_at(bytes: &[u8]) -> Result<(Calc, &[u8]), Fault>
    ensures { Gives (λ x. (calc_view x.0, x.1.now)) result (behind_tag calc_fields make_calc calcs.pointer_compare bytes.now) }
{
    let (op, rest) = op_at(bytes)?;
    let (left, rest) = u32_at(rest)?;
    let (right, rest) = u32_at(rest)?;
    Ok((Calc::PtrCompare(op, left, right), rest))
}

/// The calc behind a tag of this number.
fn calc_of(tag: u8, bytes: &[u8]) -> Result<(Calc, &[u8]), Fault>
    requires { tag < 14 }
    ensures { Gives (λ x. (calc_view x.0, x.1.now)) result (behind_tag calc_fields make_calc (at_number calcs.constant other_calcs tag) bytes.now) }
{
    match tag {
        0 => constant_at(bytes),
        1 => global_at(bytes),
        2 => literal_at(bytes),
        3 => object_at(bytes),
        4 => copy_at(bytes),
        5 => convert_at(bytes),
        6 => apply_at(bytes),
        7 => pointer_add_at(bytes),
        8 => pointer_diff_at(bytes),
        9 => pointer_compare_at(bytes),
        10 => pointer_test_at(bytes),
        11 => Ok((Calc::Null, bytes)),
        12 => Ok((Calc::Unset, bytes)),
        _ => pointer_sub_at(bytes),
    }
}

/// What a register is set to.
#[tactic(auto, using(crate::proofs::Tagged::calc_read, crate::proofs::Tagged::calc_not_read))]
pub fn calc_at(bytes: &[u8]) -> Result<(Calc, &[u8]), Fault>
    ensures { Gives (λ x. (calc_view x.0, x.1.now)) result (calc.read bytes.now) }
{
    let (tag, rest) = tag_at(14, bytes)?;
    calc_of(tag, rest)
}
