//! Callers of what types expressions.

ghost use Rattle.c_tree.specs.Syntax as trees;
ghost use Rattle.c_tree.specs.SyntaxViews as source;
ghost use Rattle.c_tree.specs.TypedViews.{boxed_expr_view};
ghost use Rattle.c_typing.specs.Faults.{Gives};
ghost use Rattle.c_typing.specs.Formats.{pieces_of};
ghost use Rattle.c_typing.specs.Judgement.{format_by, judged, lone, printed, ruled};
ghost use Rattle.c_typing.specs.Literals.{joined_bytes};
ghost use Rattle.c_typing.specs.Scope as scopes;
ghost use Rattle.c_typing.specs.Scope.{at_start};
ghost use Rattle.type_context.specs.ContextViews.{context_view};
ghost use Rattle.type_context.specs.Telling.{Tells};
ghost use Rattle.type_rules.specs.ListViews.{exprs_view};

use c_lex::CompileFault;
use c_tree::syntax as tree;
use c_tree::syntax::{Name, Span};
use c_tree::typed::Expr;
use c_types::expressions::expression;
use std::alloc::Global;
use type_context::context::Context;
use type_nodes::formats::printed;
use type_nodes::leaves::named;
use type_nodes::literals::format_of;
use type_nodes::operators::{element_of, valued};

/// An expression at the beginning of a text, as a layer above judges it.
pub fn judged_at_start(
    alloc: Global,
    text: &[u8],
    e: &tree::Expr,
) -> Result<Box<Expr>, CompileFault>
    ensures { Gives boxed_expr_view result (judged (source.expr_view e.now) (at_start text.now)).0 }
{
    let mut context = Context::at_start(alloc, text);
    expression(&mut context, e)
}

/// An element of an array, both by their names.
pub fn element_named(
    context: &Context<'_>,
    place: u32,
    base: Name,
    index: Name,
) -> Result<Box<Expr>, CompileFault>
    ensures { Tells boxed_expr_view result context.now (judged (trees.index place (trees.name base) (trees.name index)) (context_view context.now)) }
{
    let base_found = named(context, base);
    let base_value = valued(context.alloc, base_found);
    let index_found = named(context, index);
    let index_value = valued(context.alloc, index_found);
    element_of(context, place, base_value, index_value)
}

/// A call of printf, by the parts of its format and its arguments.
#[tactic(auto, using(type_context::proofs::Judging::fails_part))]
pub fn written(
    alloc: Global,
    place: u32,
    text: &[u8],
    parts: &[Span],
    args: Vec<Expr>,
) -> Result<Box<Expr>, CompileFault>
    ensures { (c : scopes.Context) → Gives boxed_expr_view result (ruled (lone (format_by place (pieces_of (joined_bytes text.now parts.now)))) (λ d pieces. printed place (pieces, exprs_view args)) c).0 }
{
    let pieces = format_of(alloc, place, text, parts)?;
    printed(alloc, place, pieces, args)
}
