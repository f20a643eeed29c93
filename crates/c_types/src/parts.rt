//! The parts of statements (C11 6.8.4, 6.8.5, 6.8.6).
ghost use Rattle.std.specs.Prelude.{◌∷◌, [], Some};
ghost use Rattle.std.specs.Option.{option_map};
ghost use Rattle.c_tree.specs.Syntax as trees;
ghost use Rattle.c_tree.specs.SyntaxViews as source;
ghost use Rattle.c_tree.specs.TypedForm as forms;
ghost use Rattle.c_tree.specs.TypedViews.{type_view, boxed_expr_view, stmt_view, boxed_stmt_view, stmt_node_view};
ghost use Rattle.c_typing.specs.Faults.{Gives, typed};
ghost use Rattle.c_typing.specs.Judgement.{judged, valued, ruled};
ghost use Rattle.c_typing.specs.Constants.{constant_value};
ghost use Rattle.c_typing.specs.Statements as rules;
ghost use Rattle.c_typing.specs.Statements.{judged_simple, returned, returned_none, judged_first, judged_condition, judged_step, judged_stmt};
ghost use Rattle.type_context.specs.ContextViews.{context_view};
ghost use Rattle.type_context.specs.Telling.{Tells, Says};
ghost use Rattle.type_declared.specs.Gathering.{each};

use crate::declarations::declaration;
use crate::expressions::value;
use crate::simples::simple;
use crate::switches::switched_by;
use ak_words::Num;
use c_lex::{CompileFault, Kind, Refusal};
use c_tree::syntax as tree;
use c_tree::typed::{CType, Expr, Stmt, StmtNode};
use std::alloc::Global;
use type_context::context::Context;
use type_context::faults::{as_fault, unless};
use type_context::kinds::is_void;
use type_locals::headers::nothing;
use type_rules::assignments::returned_by;
use type_rules::constants::constant_value;
use type_rules::conversions::tested;

// One statement.
pub(crate) fn alone(alloc: Global, s: Stmt) -> Result<Vec<Stmt>, CompileFault>
    ensures { Gives (each stmt_view) result (typed (stmt_view s ∷ [])) }
{
    let mut all = Vec::new(alloc);
    all.push(s)?;
    Ok(all)
}

// A condition, at the place of a word.
pub(crate) fn condition(
    context: &mut Context<'_>,
    place: u32,
    e: &tree::Expr,
) -> Result<Box<Expr>, CompileFault>
    ensures { Tells boxed_expr_view result context.new (rules.condition place (source.expr_view e.now) (context_view context.old)) }
{
    let e = value(context, e)?;
    tested(context.alloc, place, e)
}

// The expression of a switch, at the word.
pub(crate) fn switched(
    context: &mut Context<'_>,
    place: u32,
    e: &tree::Expr,
) -> Result<Box<Expr>, CompileFault>
    ensures { Tells boxed_expr_view result context.new (rules.switched place (source.expr_view e.now) (context_view context.old)) }
{
    let e = value(context, e)?;
    switched_by(context.alloc, place, e)
}

// The value of a label's expression, if it is an integer constant expression.
pub(crate) fn constant(
    context: &mut Context<'_>,
    e: &tree::Expr,
) -> Result<Option<Num>, CompileFault>
    ensures { Tells (λ n. n) result context.new (ruled (valued (judged (source.expr_view e.now))) (λ d x. typed (constant_value d (source.expr_view e.now) x)) (context_view context.old)) }
{
    let x = value(context, e)?;
    Ok(constant_value(context, e, &x))
}

// What a function returns that returns something.
fn returned_value(
    context: &mut Context<'_>,
    place: u32,
    t: &CType,
    e: &tree::Expr,
) -> Result<Stmt, CompileFault>
    ensures { Tells stmt_view result context.new (rules.returned place (type_view t.now) (Some (source.expr_view e.now)) (context_view context.old)) }
{
    let e = value(context, e)?;
    returned_by(context.alloc, place, t, e)
}

// A `return` with no value.
#[tactic(auto, using(type_context::proofs::Judging::refused_part))]
fn returned_nothing(place: u32, t: &CType) -> Result<Stmt, Refusal>
    ensures { Says stmt_view result (returned_none place (type_view t.now)) }
{
    unless(place, Kind::TypeMismatch, is_void(t))?;
    Ok(Stmt {
        place,
        node: StmtNode::Return(None),
    })
}

/// What a function returns, at the word.
fn returned(
    context: &mut Context<'_>,
    place: u32,
    t: &CType,
    value: &Option<Box<tree::Expr>>,
) -> Result<Stmt, CompileFault>
    ensures { Tells stmt_view result context.new (returned place (type_view t.now) (option_map source.boxed_expr_view value.now) (context_view context.old)) }
{
    match value {
        Some(e) => returned_value(context, place, t, e),
        None => as_fault(returned_nothing(place, t)),
    }
}

// A `break` or a `continue`, where it may stand.
pub(crate) fn jump(
    alloc: Global,
    place: u32,
    may: bool,
    node: StmtNode,
) -> Result<Vec<Stmt>, CompileFault>
    ensures { Gives (each stmt_view) result (rules.jump place may (stmt_node_view node)) }
{
    let all = alone(alloc, Stmt { place, node })?;
    as_fault(unless(place, Kind::TypeMismatch, may))?;
    Ok(all)
}

// What stands first in a `for`, where it is no declaration.
pub(crate) fn first_simple(
    context: &mut Context<'_>,
    s: &tree::Simple,
) -> Result<Vec<Stmt>, CompileFault>
    ensures { Tells (each stmt_view) result context.new (ruled (judged_simple (source.simple_view s.now)) (λ c x. typed (x ∷ [])) (context_view context.old)) }
{
    let s = simple(context, s)?;
    alone(context.alloc, s)
}

// What stands first in a `for`.
pub(crate) fn first(
    context: &mut Context<'_>,
    place: u32,
    first: &tree::ForFirst,
) -> Result<Vec<Stmt>, CompileFault>
    ensures { Tells (each stmt_view) result context.new (judged_first place (source.for_first_view first.now) (context_view context.old)) }
{
    match first {
        tree::ForFirst::Declare(d) => declaration(context, d),
        tree::ForFirst::Simple(s) => first_simple(context, s),
        tree::ForFirst::Nothing => Ok(Vec::new(context.alloc)),
    }
}

// The condition of a `for` that has one.
fn some_condition(
    context: &mut Context<'_>,
    place: u32,
    e: &tree::Expr,
) -> Result<Option<Box<Expr>>, CompileFault>
    ensures { Tells (option_map boxed_expr_view) result context.new (judged_condition place (Some (source.expr_view e.now)) (context_view context.old)) }
{
    let e = condition(context, place, e)?;
    Ok(Some(e))
}

// The condition of a `for`, if it has one.
pub(crate) fn for_condition(
    context: &mut Context<'_>,
    place: u32,
    e: &Option<tree::Expr>,
) -> Result<Option<Box<Expr>>, CompileFault>
    ensures { Tells (option_map boxed_expr_view) result context.new (judged_condition place (option_map source.expr_view e.now) (context_view context.old)) }
{
    match e {
        Some(e) => some_condition(context, place, e),
        None => Ok(None),
    }
}

// The step of a `for` that has one.
fn some_step(context: &mut Context<'_>, s: &tree::Simple) -> Result<Box<Stmt>, CompileFault>
    ensures { Tells boxed_stmt_view result context.new (judged_simple (source.simple_view s.now) (context_view context.old)) }
{
    let s = simple(context, s)?;
    Ok(Box::new(context.alloc, s)?)
}

// The step of a `for`.
pub(crate) fn for_step(
    context: &mut Context<'_>,
    place: u32,
    s: &Option<tree::Simple>,
) -> Result<Box<Stmt>, CompileFault>
    ensures { Tells boxed_stmt_view result context.new (judged_step place (option_map source.simple_view s.now) (context_view context.old)) }
{
    match s {
        Some(s) => some_step(context, s),
        None => Ok(Box::new(context.alloc, nothing(place))?),
    }
}

// A `return`.
pub(crate) fn return_of(
    context: &mut Context<'_>,
    t: &CType,
    place: u32,
    value: &Option<Box<tree::Expr>>,
) -> Result<Vec<Stmt>, CompileFault>
    ensures { (j : forms.Jumps) → Tells (each stmt_view) result context.new (judged_stmt (type_view t.now) j (trees.return place (option_map source.boxed_expr_view value.now)) (context_view context.old)) }
{
    let s = returned(context, place, t, value)?;
    alone(context.alloc, s)
}
