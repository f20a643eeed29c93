//! Assignments and expressions that are statements (C11 6.5.16, 6.5.2.4, 6.5.3.1, 6.8.3).
ghost use Rattle.c_tree.specs.Syntax as trees;
ghost use Rattle.c_tree.specs.SyntaxViews as source;
ghost use Rattle.c_tree.specs.TypedViews.{stmt_view};
ghost use Rattle.c_typing.specs.Judgement.{judged};
ghost use Rattle.c_typing.specs.Statements.{stepped_by, judged_simple};
ghost use Rattle.type_context.specs.ContextViews.{context_view};
ghost use Rattle.type_context.specs.Telling.{Tells};

use crate::expressions::{expression, value};
use c_lex::CompileFault;
use c_tree::syntax as tree;
use c_tree::syntax::{AssignOp, StepOp};
use c_tree::typed::{Stmt, StmtNode};
use type_context::context::Context;
use type_context::faults::both;
use type_rules::assignments::{assign_op, assigned_by, stepped};
use type_rules::places::node_place;

// `++` or `--`.
fn step(
    context: &mut Context<'_>,
    place: u32,
    op: StepOp,
    target: &tree::Expr,
) -> Result<Stmt, CompileFault>
    ensures { Tells stmt_view result context.new (stepped_by place op (judged (source.expr_view target.now)) (context_view context.old)) }
{
    let target = expression(context, target)?;
    stepped(context, place, op, target)
}

// An assignment.
fn assignment(
    context: &mut Context<'_>,
    place: u32,
    op: AssignOp,
    target: &tree::Expr,
    value: &tree::Expr,
) -> Result<Stmt, CompileFault>
    ensures { Tells stmt_view result context.new (judged_simple (trees.assign place op (source.expr_view target.now) (source.expr_view value.now)) (context_view context.old)) }
{
    let left = expression(context, target);
    let right = expression(context, value);
    let (left, right) = both(left, right)?;
    assigned_by(context, place, assign_op(op), left, right)
}

// An expression whose value is dropped.
fn evaluation(context: &mut Context<'_>, e: &tree::Expr) -> Result<Stmt, CompileFault>
    ensures { Tells stmt_view result context.new (judged_simple (trees.eval (source.expr_view e.now)) (context_view context.old)) }
{
    let value = value(context, e)?;
    Ok(Stmt {
        place: node_place(e),
        node: StmtNode::Eval(Box::into_inner(value)),
    })
}

/// An expression statement, an assignment, `++` or `--`.
pub(crate) fn simple(context: &mut Context<'_>, s: &tree::Simple) -> Result<Stmt, CompileFault>
    ensures { Tells stmt_view result context.new (judged_simple (source.simple_view s.now) (context_view context.old)) }
{
    match s {
        tree::Simple::Before { place, op, target } => step(context, *place, *op, target),
        tree::Simple::After { place, op, target } => step(context, *place, *op, target),
        tree::Simple::Assign {
            place,
            op,
            target,
            value,
        } => assignment(context, *place, *op, target, value),
        tree::Simple::Eval(e) => evaluation(context, e),
    }
}
