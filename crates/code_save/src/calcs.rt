//! Writing what a register is set to.

ghost use Rattle.std.specs.Prelude.{◌≡◌, true, OnOk};
ghost use Rattle.struct_ir.specs.Views.{calc_view};
ghost use Rattle.formats.specs.Formats.{◌▸◌, u32};
ghost use Rattle.code_file.specs.Numbers.{int_type};
ghost use Rattle.code_file.specs.Calcs as formats;
ghost use Rattle.code_file.specs.Calcs.{op_number, operation, calc_number, calc_fields, calc_parts};
ghost use Rattle.code_save.specs.inner.Written.{Wrote};

use crate::numbers::{put_number, put_type, put_u32};
use crate::output::Output;
use ak_words::{IntType, NoMemory, Num, Op};
use struct_ir::code::Calc;

/// The number of an operation.
fn op_number(op: Op) -> u8
    ensures { result ≡ op_number op }
{
    match op {
        Op::Add => 0,
        Op::Sub => 1,
        Op::Mul => 2,
        Op::Div => 3,
        Op::Rem => 4,
        Op::Shl => 5,
        Op::Shr => 6,
        Op::And => 7,
        Op::Or => 8,
        Op::Xor => 9,
        Op::Eq => 10,
        Op::Ne => 11,
        Op::Lt => 12,
        Op::Le => 13,
        Op::Gt => 14,
        Op::Ge => 15,
    }
}

/// An operation.
fn put_op(out: &mut Output, op: Op) -> Result<(), NoMemory>
    ensures { OnOk result (Wrote operation op true out.old out.new) }
{
    out.put(&[op_number(op)])
}

/// The tag of a calc.
fn tag_of(calc: &Calc) -> u8
    ensures { result ≡ calc_number (calc_parts (calc_view calc.now)).0 }
{
    match calc {
        Calc::Num(..) => 0,
        Calc::Global(_) => 1,
        Calc::Literal(_) => 2,
        Calc::Object(_) => 3,
        Calc::Copy(_) => 4,
        Calc::Convert(_, _) => 5,
        Calc::Apply(_, _, _, _) => 6,
        Calc::PtrAdd(_, _, _) => 7,
        Calc::PtrDiff(_, _, _) => 8,
        Calc::PtrCompare(_, _, _) => 9,
        Calc::PtrTest(_) => 10,
        Calc::Null => 11,
        Calc::Unset => 12,
        Calc::PtrSub(_, _, _) => 13,
    }
}

/// Two numbers.
pub fn put_two(out: &mut Output, a: u32, b: u32) -> Result<(), NoMemory>
    ensures { OnOk result (Wrote (u32 ▸ u32) (a, b) true out.old out.new) }
{
    put_u32(out, a)?;
    put_u32(out, b)
}

/// Three numbers.
fn put_three(out: &mut Output, a: u32, b: u32, c: u32) -> Result<(), NoMemory>
    ensures { OnOk result (Wrote (u32 ▸ u32 ▸ u32) (a, (b, c)) true out.old out.new) }
{
    put_u32(out, a)?;
    put_two(out, b, c)
}

/// A type and a register.
fn put_convert(out: &mut Output, ty: IntType, temp: u32) -> Result<(), NoMemory>
    ensures { OnOk result (Wrote (int_type ▸ u32) (ty, temp) true out.old out.new) }
{
    put_type(out, ty)?;
    put_u32(out, temp)
}

/// An operation, its type and two registers.
fn put_apply(out: &mut Output, op: Op, ty: IntType, a: u32, b: u32) -> Result<(), NoMemory>
    ensures { OnOk result (Wrote (operation ▸ int_type ▸ u32 ▸ u32) (op, (ty, (a, b))) true out.old out.new) }
{
    put_op(out, op)?;
    put_type(out, ty)?;
    put_two(out, a, b)
}

/// An operation and two registers.
fn put_compare(out: &mut Output, op: Op, a: u32, b: u32) -> Result<(), NoMemory>
    ensures { OnOk result (Wrote (operation ▸ u32 ▸ u32) (op, (a, b)) true out.old out.new) }
{
    put_op(out, op)?;
    put_two(out, a, b)
}

/// What stands behind the tag.
fn put_fields(out: &mut Output, calc: &Calc) -> Result<(), NoMemory>
    ensures { OnOk result (Wrote (calc_fields (calc_parts (calc_view calc.now)).0) (calc_parts (calc_view calc.now)).1 true out.old out.new) }
{
    match calc {
        Calc::Num(ty, bits) => put_number(out, Num::from_bits(*ty, *bits)),
        Calc::Global(n) => put_u32(out, *n),
        Calc::Literal(n) => put_u32(out, *n),
        Calc::Object(n) => put_u32(out, *n),
        Calc::Copy(n) => put_u32(out, *n),
        Calc::Convert(ty, temp) => put_convert(out, *ty, *temp),
        Calc::Apply(op, ty, a, b) => put_apply(out, *op, *ty, *a, *b),
        Calc::PtrAdd(p, n, scale) => put_three(out, *p, *n, *scale),
        Calc::PtrSub(p, n, scale) => put_three(out, *p, *n, *scale),
        Calc::PtrDiff(p, q, scale) => put_three(out, *p, *q, *scale),
        Calc::PtrCompare(op, p, q) => put_compare(out, *op, *p, *q),
        Calc::PtrTest(n) => put_u32(out, *n),
        Calc::Null => Ok(()),
        Calc::Unset => Ok(()),
    }
}

/// What a register is set to.
pub fn put_calc(out: &mut Output, calc: &Calc) -> Result<(), NoMemory>
    ensures { OnOk result (Wrote formats.calc (calc_view calc.now) true out.old out.new) }
{
    out.put(&[tag_of(calc)])?;
    put_fields(out, calc)
}
