//! Casts (C11 6.5.4).
ghost use Rattle.c_tree.specs.Typed.{at, convert};
ghost use Rattle.c_tree.specs.TypedViews.{type_view, boxed_expr_view};
ghost use Rattle.c_typing.specs.Faults.{Gives, typed};
ghost use Rattle.c_typing.specs.Rules.{cast};

use crate::conversions::is_zero;
use crate::trees::made;
use c_lex::{CompileFault, Kind};
use c_tree::typed::{CType, Expr, ExprNode};
use std::alloc::Global;
use type_context::faults::refused;
use type_context::kinds::value_type;

/// `(t)e`: anything to `void`, a number to a number, a pointer to a pointer, and the constant 0 to
/// a pointer, where an atomic number stands for the number; between other numbers and pointers there are no casts in the language.
pub fn cast(alloc: Global, place: u32, t: CType, e: Box<Expr>) -> Result<Box<Expr>, CompileFault>
    ensures { Gives boxed_expr_view result (cast place (type_view t) (boxed_expr_view e)) }
{
    let t = value_type(t);
    match (&e.ty, &t) {
        (_, CType::Void) => converted_to(alloc, place, t, e),
        (CType::Int(_), CType::Int(_)) => converted_to(alloc, place, t, e),
        (CType::Pointer(_), CType::Pointer(_)) => converted_to(alloc, place, t, e),
        (CType::Int(_), CType::Pointer(_)) => {
            if is_zero(&e) {
                made(alloc, e.place, t, ExprNode::Null)
            } else {
                refused(place, Kind::OutsideSubset(11))
            }
        }
        (CType::Pointer(_), CType::Int(_)) => refused(place, Kind::OutsideSubset(11)),
        _ => refused(place, Kind::TypeMismatch),
    }
}

// The conversion, at the place of the cast.
fn converted_to(
    alloc: Global,
    place: u32,
    t: CType,
    e: Box<Expr>,
) -> Result<Box<Expr>, CompileFault>
    ensures { Gives boxed_expr_view result (typed (at place (type_view t) (convert (boxed_expr_view e)))) }
{
    made(alloc, place, t, ExprNode::Convert(e))
}
