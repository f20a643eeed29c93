//! `&&` and `||`, and any binary operator (C11 6.5.13, 6.5.14).
ghost use Rattle.c_tree.specs.declared.syntax.BinaryOp.TheVariants.{AndAnd, OrOr};
ghost use Rattle.c_tree.specs.TypedViews.{boxed_expr_view};
ghost use Rattle.type_context.specs.ContextViews.{context_view};
ghost use Rattle.c_typing.specs.Faults.{Gives, both};
ghost use Rattle.c_typing.specs.Scope as scopes;
ghost use Rattle.c_typing.specs.Rules.{tested};
ghost use Rattle.c_typing.specs.Judgement.{combined};
ghost use Rattle.type_rules.specs.inner.Pairs.{expr_pair_view};

use crate::conversions::tested;
use crate::operators::operated;
use crate::trees::made;
use ak_words::IntType;
use c_lex::CompileFault;
use c_tree::syntax::BinaryOp;
use c_tree::typed::{CType, Expr, ExprNode};
use std::alloc::Global;
use type_context::context::Context;
use type_context::faults::both;

// Both operands are conditions.
fn conditions(
    alloc: Global,
    place: u32,
    a: Box<Expr>,
    b: Box<Expr>,
) -> Result<(Box<Expr>, Box<Expr>), CompileFault>
    ensures { Gives expr_pair_view result (both (tested place (boxed_expr_view a)) (tested place (boxed_expr_view b))) }
{
    both(tested(alloc, place, a), tested(alloc, place, b))
}

// `a && b`.
#[tactic(auto, using(type_context::proofs::Judging::fails_part))]
fn and_also(
    alloc: Global,
    place: u32,
    a: Box<Expr>,
    b: Box<Expr>,
) -> Result<Box<Expr>, CompileFault>
    ensures { (c : scopes.Context) → Gives boxed_expr_view result (combined c place AndAnd (boxed_expr_view a) (boxed_expr_view b)) }
{
    let (a, b) = conditions(alloc, place, a, b)?;
    made(
        alloc,
        place,
        CType::Int(IntType::int()),
        ExprNode::AndAlso(a, b),
    )
}

// `a || b`.
#[tactic(auto, using(type_context::proofs::Judging::fails_part))]
fn or_else(alloc: Global, place: u32, a: Box<Expr>, b: Box<Expr>) -> Result<Box<Expr>, CompileFault>
    ensures { (c : scopes.Context) → Gives boxed_expr_view result (combined c place OrOr (boxed_expr_view a) (boxed_expr_view b)) }
{
    let (a, b) = conditions(alloc, place, a, b)?;
    made(
        alloc,
        place,
        CType::Int(IntType::int()),
        ExprNode::OrElse(a, b),
    )
}

/// A binary operator on two values; the operands of `&&` and `||` are conditions.
pub fn combined(
    context: &Context<'_>,
    place: u32,
    op: BinaryOp,
    a: Box<Expr>,
    b: Box<Expr>,
) -> Result<Box<Expr>, CompileFault>
    ensures { Gives boxed_expr_view result (combined (context_view context.now) place op (boxed_expr_view a) (boxed_expr_view b)) }
{
    match op {
        BinaryOp::Value(op) => operated(context, place, op, a, b),
        BinaryOp::AndAnd => and_also(context.alloc, place, a, b),
        BinaryOp::OrOr => or_else(context.alloc, place, a, b),
    }
}
