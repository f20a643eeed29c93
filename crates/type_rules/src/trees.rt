//! Expressions in boxes of their own.
ghost use Rattle.c_tree.specs.Typed.{at};
ghost use Rattle.c_tree.specs.TypedViews.{type_view, expr_node_view, boxed_expr_view};
ghost use Rattle.c_typing.specs.Faults.{Gives, typed};

use c_lex::CompileFault;
use c_tree::typed::{CType, Expr, ExprNode};
use std::alloc::Global;

/// The expression of this type at this place that does this.
pub fn made(alloc: Global, place: u32, ty: CType, node: ExprNode) -> Result<Box<Expr>, CompileFault>
    ensures { Gives boxed_expr_view result (typed (at place (type_view ty) (expr_node_view node))) }
{
    let all = Expr { place, ty, node };
    Ok(Box::new(alloc, all)?)
}
