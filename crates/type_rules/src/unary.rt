//! Operators on one typed operand (C11 6.5.3).
ghost use Rattle.std.specs.Prelude.{◌≡◌, pos, negsuc};
ghost use Rattle.ak_words.specs.Wrapped.{wrapped_value};
ghost use Rattle.c_tree.specs.Typed.{integer, at, num, node_of, type_of};
ghost use Rattle.c_tree.specs.TypedViews.{expr_view, boxed_expr_view};
ghost use Rattle.c_typing.specs.Faults.{Gives, typed};
ghost use Rattle.c_typing.specs.Rules.{is_lvalue, target, address, minus_by, plus_by, not_by, complement_by};

use crate::conversions::converted;
use crate::trees::made;
use ak_words::{IntType, Num, Op, promote};
use c_lex::{CompileFault, Kind};
use c_tree::typed::{CType, Expr, ExprNode};
use std::alloc::Global;
use type_context::faults::refused;
use c_tree::copies::copy_type;

/// Whether it designates an object (C11 6.3.2.1 p1).
pub fn is_lvalue(e: &Expr) -> bool
    ensures { result ≡ is_lvalue (node_of (expr_view e.now)) }
{
    match &e.node {
        ExprNode::Literal(_) | ExprNode::Global(_) | ExprNode::Local(_) => true,
        ExprNode::Deref(_) | ExprNode::Member(_, _) => true,
        _ => false,
    }
}

/// `*p` (C11 6.5.3.2).
pub fn target(alloc: Global, place: u32, p: Box<Expr>) -> Result<Box<Expr>, CompileFault>
    ensures { Gives boxed_expr_view result (target place (boxed_expr_view p)) }
{
    match &p.ty {
        CType::Pointer(ty) => made(alloc, place, copy_type(alloc, ty)?, ExprNode::Deref(p)),
        _ => refused(place, Kind::TypeMismatch),
    }
}

/// `&e` (C11 6.5.3.2).
pub fn address(alloc: Global, place: u32, e: Box<Expr>) -> Result<Box<Expr>, CompileFault>
    ensures { Gives boxed_expr_view result (address place (boxed_expr_view e)) }
{
    if !is_lvalue(&e) {
        return refused(place, Kind::NotAnLvalue);
    }
    let ty = copy_type(alloc, &e.ty)?;
    made(
        alloc,
        place,
        CType::Pointer(Box::new(alloc, ty)?),
        ExprNode::AddrOf(e),
    )
}

// A number of a type, which it becomes there.
fn number(alloc: Global, place: u32, ty: IntType, value: i128) -> Result<Box<Expr>, CompileFault>
    ensures { Gives boxed_expr_view result (typed (at place (integer ty) (num ty (wrapped_value ty value)))) }
{
    let value = Num::wrapping(ty, value);
    made(alloc, place, CType::Int(ty), ExprNode::Num(value))
}

// The constant 0 of a type.
fn zero(alloc: Global, place: u32, ty: IntType) -> Result<Box<Expr>, CompileFault>
    ensures { Gives boxed_expr_view result (typed (at place (integer ty) (num ty (pos 0)))) }
{
    made(
        alloc,
        place,
        CType::Int(ty),
        ExprNode::Num(Num { ty, value: 0 }),
    )
}

/// `-e` is `0 - e`, promoted (C11 6.5.3.3).
pub fn minus(alloc: Global, place: u32, e: Box<Expr>) -> Result<Box<Expr>, CompileFault>
    ensures { Gives boxed_expr_view result (minus_by place (type_of (boxed_expr_view e)) (boxed_expr_view e)) }
{
    match &e.ty {
        CType::Int(t) => {
            let t = *t;
            let promoted = promote(t);
            let e = converted(alloc, t, promoted, e)?;
            let zero = zero(alloc, place, promoted)?;
            made(
                alloc,
                place,
                CType::Int(promoted),
                ExprNode::Binary(Op::Sub, zero, e),
            )
        }
        _ => refused(place, Kind::TypeMismatch),
    }
}

/// `+e` is `e`, promoted, and no object (C11 6.5.3.3).
pub fn plus(alloc: Global, place: u32, e: Box<Expr>) -> Result<Box<Expr>, CompileFault>
    ensures { Gives boxed_expr_view result (plus_by place (type_of (boxed_expr_view e)) (boxed_expr_view e)) }
{
    match &e.ty {
        CType::Int(t) => made(alloc, place, CType::Int(promote(*t)), ExprNode::Convert(e)),
        _ => refused(place, Kind::TypeMismatch),
    }
}

/// `!e` is whether a number is 0 or a pointer is null (C11 6.5.3.3).
pub fn not(alloc: Global, place: u32, e: Box<Expr>) -> Result<Box<Expr>, CompileFault>
    ensures { Gives boxed_expr_view result (not_by place (type_of (boxed_expr_view e)) (boxed_expr_view e)) }
{
    let operand = match &e.ty {
        CType::Int(_) => e,
        CType::Pointer(_) => {
            made(
                alloc,
                place,
                CType::Int(IntType::int()),
                ExprNode::PtrTest(e),
            )?
        }
        _ => return refused(place, Kind::TypeMismatch),
    };
    made(
        alloc,
        place,
        CType::Int(IntType::int()),
        ExprNode::Not(operand),
    )
}

/// `~e` is `e` exclusive or all ones, promoted (C11 6.5.3.3).
pub fn complement(alloc: Global, place: u32, e: Box<Expr>) -> Result<Box<Expr>, CompileFault>
    ensures { Gives boxed_expr_view result (complement_by place (type_of (boxed_expr_view e)) (boxed_expr_view e)) }
{
    match &e.ty {
        CType::Int(t) => {
            let t = *t;
            let promoted = promote(t);
            let e = converted(alloc, t, promoted, e)?;
            let ones = number(alloc, place, promoted, -1)?;
            made(
                alloc,
                place,
                CType::Int(promoted),
                ExprNode::Binary(Op::Xor, e, ones),
            )
        }
        _ => refused(place, Kind::TypeMismatch),
    }
}
