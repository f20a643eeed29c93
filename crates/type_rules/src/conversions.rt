//! Conversions of typed operands (C11 6.3).
ghost use Rattle.std.specs.Prelude.{◌≡◌, map};
ghost use Rattle.c_tree.specs.Typed.{pointer, at, convert, place_of, node_of};
ghost use Rattle.c_tree.specs.TypedViews.{type_view, expr_view, boxed_expr_view};
ghost use Rattle.c_typing.specs.Faults.{Gives, typed};
ghost use Rattle.c_typing.specs.Rules.{value_of, converted, is_zero, null_for, fitted, or_mismatch, tested};

use crate::trees::made;
use ak_words::IntType;
use c_lex::{CompileFault, Kind};
use c_tree::copies::copy_type;
use c_tree::typed::{CType, Expr, ExprNode};
use std::alloc::Global;
use type_context::faults::refused;
use type_context::kinds::{is_void, same_int, same_type};

/// The value of an operand: an array becomes a pointer to its first element, and an atomic number is read as the number (C11
/// 6.3.2.1 p2, p3).
pub fn value_of(alloc: Global, e: Box<Expr>) -> Result<Box<Expr>, CompileFault>
    ensures { Gives boxed_expr_view result (typed (value_of (boxed_expr_view e))) }
{
    match &e.ty {
        CType::Array(element, _) => {
            let place = e.place;
            let element = copy_type(alloc, element)?;
            made(
                alloc,
                place,
                CType::Pointer(Box::new(alloc, element)?),
                ExprNode::Decay(e),
            )
        }
        CType::Atomic(t) => made(alloc, e.place, CType::Int(*t), ExprNode::Convert(e)),
        _ => Ok(e),
    }
}

/// A number of type `s`, converted to type `t` where that is another (C11 6.3.1.3).
pub fn converted(
    alloc: Global,
    s: IntType,
    t: IntType,
    e: Box<Expr>,
) -> Result<Box<Expr>, CompileFault>
    ensures { Gives boxed_expr_view result (typed (converted s t (boxed_expr_view e))) }
{
    if same_int(s, t) {
        return Ok(e);
    }
    made(alloc, e.place, CType::Int(t), ExprNode::Convert(e))
}

/// Whether it is the constant 0 (C11 6.3.2.3 p3).
pub fn is_zero(e: &Expr) -> bool
    ensures { result ≡ is_zero (node_of (expr_view e.now)) }
{
    match &e.node {
        ExprNode::Num(n) => n.value == 0,
        _ => false,
    }
}

/// The null pointer to a type, in the place of the constant 0.
pub fn null_for(alloc: Global, target: &CType, e: &Expr) -> Result<Box<Expr>, CompileFault>
    ensures { Gives boxed_expr_view result (typed (null_for (type_view target.now) (expr_view e.now))) }
{
    let target = copy_type(alloc, target)?;
    made(
        alloc,
        e.place,
        CType::Pointer(Box::new(alloc, target)?),
        ExprNode::Null,
    )
}

// A pointer as one to another type.
fn pointer_to(alloc: Global, target: &CType, e: Box<Expr>) -> Result<Box<Expr>, CompileFault>
    ensures { Gives boxed_expr_view result (typed (at (place_of (boxed_expr_view e)) (pointer (type_view target.now)) (convert (boxed_expr_view e)))) }
{
    let target = copy_type(alloc, target)?;
    made(
        alloc,
        e.place,
        CType::Pointer(Box::new(alloc, target)?),
        ExprNode::Convert(e),
    )
}

/// A value where one of type `t` is wanted, as by assignment (C11 6.5.16.1).
pub fn fitted(alloc: Global, place: u32, t: &CType, e: Box<Expr>) -> Result<Box<Expr>, CompileFault>
    ensures { Gives boxed_expr_view result (or_mismatch place (fitted (type_view t.now) (boxed_expr_view e))) }
{
    match (&e.ty, t) {
        (CType::Int(s), CType::Int(t) | CType::Atomic(t)) => converted(alloc, *s, *t, e),
        (CType::Int(_), CType::Pointer(target)) => {
            if is_zero(&e) {
                null_for(alloc, target, &e)
            } else {
                refused(place, Kind::TypeMismatch)
            }
        }
        (CType::Pointer(s), CType::Pointer(target)) => {
            if same_type(s, target) {
                Ok(e)
            } else if is_void(s) || is_void(target) {
                pointer_to(alloc, target, e)
            } else {
                refused(place, Kind::TypeMismatch)
            }
        }
        (CType::Struct(m), CType::Struct(n)) => {
            if m == n {
                Ok(e)
            } else {
                refused(place, Kind::TypeMismatch)
            }
        }
        _ => refused(place, Kind::TypeMismatch),
    }
}

/// A condition: a number, or whether a pointer isn't null (C11 6.8.4.1, 6.5.13 to 6.5.15).
pub fn tested(alloc: Global, place: u32, e: Box<Expr>) -> Result<Box<Expr>, CompileFault>
    ensures { Gives boxed_expr_view result (tested place (boxed_expr_view e)) }
{
    match &e.ty {
        CType::Int(_) => Ok(e),
        CType::Pointer(_) => made(
            alloc,
            e.place,
            CType::Int(IntType::int()),
            ExprNode::PtrTest(e),
        ),
        _ => refused(place, Kind::TypeMismatch),
    }
}
