//! A node of an expression, by what its parts came to (C11 6.5.2 to 6.5.15).
ghost use Rattle.std.specs.Prelude.{◌∷◌, [], None};
ghost use Rattle.c_lex.specs.declared.refusal.Kind.TheVariants.{OutsideSubset};
ghost use Rattle.c_tree.specs.Typed.{type_of};
ghost use Rattle.c_tree.specs.TypedViews.{type_view, expr_view, boxed_expr_view};
ghost use Rattle.c_typing.specs.Faults.{Gives, typed, refuse};
ghost use Rattle.c_typing.specs.Rules.{value_of, address, selected, pointed, element, cast, size_number};
ghost use Rattle.c_typing.specs.Judgement.{prefixed_by, combined, choice, printed, started};
ghost use Rattle.type_context.specs.ContextViews.{context_view};
ghost use Rattle.type_context.specs.inner.Outcomes.{joined};
ghost use Rattle.type_rules.specs.ListViews.{exprs_view, pieces_view};
ghost use Rattle.type_nodes.specs.Nodes.{Finishes};

use crate::formats::printed;
use crate::library::started;
use c_lex::{CompileFault, Kind};
use c_tree::syntax::{BinaryOp, Name, PrefixOp};
use c_tree::typed::{CType, Expr, Piece};
use std::alloc::Global;
use type_context::context::Context;
use type_context::faults::{both, refused};
use type_rules::casts::cast;
use type_rules::conversions::{tested, value_of};
use type_rules::logical::combined;
use type_rules::members::{pointed, selected, size_number};
use type_rules::operators::{chosen, element};
use type_rules::unary::{address, complement, minus, not, plus, target};

/// What came in a box, without the box.
pub fn unboxed(e: Result<Box<Expr>, CompileFault>) -> Result<Expr, CompileFault>
    ensures { Finishes expr_view e (λ x. typed (boxed_expr_view x)) result }
{
    let e = e?;
    Ok(Box::into_inner(e))
}

/// The value of an expression (C11 6.3.2.1 p3).
pub fn valued(alloc: Global, e: Result<Box<Expr>, CompileFault>) -> Result<Box<Expr>, CompileFault>
    ensures { Finishes boxed_expr_view e (λ x. typed (value_of (boxed_expr_view x))) result }
{
    let e = e?;
    value_of(alloc, e)
}

// A prefix operator on a value; `&` of a value that is an object takes its address.
fn operated(
    alloc: Global,
    place: u32,
    op: PrefixOp,
    e: Box<Expr>,
) -> Result<Box<Expr>, CompileFault>
    ensures { Gives boxed_expr_view result (prefixed_by place op (boxed_expr_view e)) }
{
    match op {
        PrefixOp::Minus => minus(alloc, place, e),
        PrefixOp::Plus => plus(alloc, place, e),
        PrefixOp::Not => not(alloc, place, e),
        PrefixOp::Complement => complement(alloc, place, e),
        PrefixOp::Deref => target(alloc, place, e),
        PrefixOp::AddressOf => address(alloc, place, e),
    }
}

/// A prefix operator on what a value came to (C11 6.5.3.2, 6.5.3.3).
pub fn prefixed(
    alloc: Global,
    place: u32,
    op: PrefixOp,
    e: Result<Box<Expr>, CompileFault>,
) -> Result<Box<Expr>, CompileFault>
    ensures { Finishes boxed_expr_view e (λ x. prefixed_by place op (boxed_expr_view x)) result }
{
    let e = e?;
    operated(alloc, place, op, e)
}

/// `&e` (C11 6.5.3.2).
pub fn addressed(
    alloc: Global,
    place: u32,
    e: Result<Box<Expr>, CompileFault>,
) -> Result<Box<Expr>, CompileFault>
    ensures { Finishes boxed_expr_view e (λ x. address place (boxed_expr_view x)) result }
{
    let e = e?;
    address(alloc, place, e)
}

/// `sizeof` of a type (C11 6.5.3.4).
pub fn size_of_type(
    context: &Context<'_>,
    place: u32,
    of: Result<CType, CompileFault>,
) -> Result<Box<Expr>, CompileFault>
    ensures { Finishes boxed_expr_view of (λ t. size_number (context_view context.now) place (type_view t)) result }
{
    let of = of?;
    size_number(context, place, &of)
}

/// `sizeof` of an expression (C11 6.5.3.4).
pub fn size_of_expression(
    context: &Context<'_>,
    place: u32,
    e: Result<Box<Expr>, CompileFault>,
) -> Result<Box<Expr>, CompileFault>
    ensures { Finishes boxed_expr_view e (λ x. size_number (context_view context.now) place (type_of (boxed_expr_view x))) result }
{
    let e = e?;
    size_number(context, place, &e.ty)
}

/// `e.m` (C11 6.5.2.3).
pub fn member_of(
    context: &Context<'_>,
    place: u32,
    base: Result<Box<Expr>, CompileFault>,
    member: Name,
) -> Result<Box<Expr>, CompileFault>
    ensures { Finishes boxed_expr_view base (λ x. selected (context_view context.now) place (boxed_expr_view x) member) result }
{
    let base = base?;
    selected(context, place, base, member)
}

/// `p->m` (C11 6.5.2.3).
pub fn pointed_by(
    context: &Context<'_>,
    place: u32,
    base: Result<Box<Expr>, CompileFault>,
    member: Name,
) -> Result<Box<Expr>, CompileFault>
    ensures { Finishes boxed_expr_view base (λ x. pointed (context_view context.now) place (boxed_expr_view x) member) result }
{
    let base = base?;
    pointed(context, place, base, member)
}

/// A cast (C11 6.5.4).
pub fn cast_to(
    alloc: Global,
    place: u32,
    to: Result<CType, CompileFault>,
    e: Result<Box<Expr>, CompileFault>,
) -> Result<Box<Expr>, CompileFault>
    ensures { Finishes boxed_expr_view (joined to e) (λ p. cast place (type_view p.0) (boxed_expr_view p.1)) result }
{
    let (to, e) = both(to, e)?;
    cast(alloc, place, to, e)
}

/// `a[i]` (C11 6.5.2.1).
pub fn element_of(
    context: &Context<'_>,
    place: u32,
    base: Result<Box<Expr>, CompileFault>,
    index: Result<Box<Expr>, CompileFault>,
) -> Result<Box<Expr>, CompileFault>
    ensures { Finishes boxed_expr_view (joined base index) (λ p. element (context_view context.now) place (boxed_expr_view p.0) (boxed_expr_view p.1)) result }
{
    let (base, index) = both(base, index)?;
    element(context, place, base, index)
}

/// A binary operator (C11 6.5.5 to 6.5.14).
pub fn combination(
    context: &Context<'_>,
    place: u32,
    op: BinaryOp,
    left: Result<Box<Expr>, CompileFault>,
    right: Result<Box<Expr>, CompileFault>,
) -> Result<Box<Expr>, CompileFault>
    ensures { Finishes boxed_expr_view (joined left right) (λ p. combined (context_view context.now) place op (boxed_expr_view p.0) (boxed_expr_view p.1)) result }
{
    let (left, right) = both(left, right)?;
    combined(context, place, op, left, right)
}

// A choice between two by a condition.
#[tactic(auto, using(type_context::proofs::Judging::fails_part))]
fn choice(
    alloc: Global,
    place: u32,
    e: Box<Expr>,
    a: Box<Expr>,
    b: Box<Expr>,
) -> Result<Box<Expr>, CompileFault>
    ensures { Gives boxed_expr_view result (choice place (boxed_expr_view e) (boxed_expr_view a) (boxed_expr_view b)) }
{
    let condition = tested(alloc, place, e)?;
    chosen(alloc, place, condition, a, b)
}

/// `e ? a : b` (C11 6.5.15).
pub fn choice_of(
    alloc: Global,
    place: u32,
    condition: Result<Box<Expr>, CompileFault>,
    then: Result<Box<Expr>, CompileFault>,
    otherwise: Result<Box<Expr>, CompileFault>,
) -> Result<Box<Expr>, CompileFault>
    ensures { Finishes boxed_expr_view (joined condition (joined then otherwise)) (λ p. choice place (boxed_expr_view p.0) (boxed_expr_view p.1.0) (boxed_expr_view p.1.1)) result }
{
    let (condition, (then, otherwise)) = both(condition, both(then, otherwise))?;
    choice(alloc, place, condition, then, otherwise)
}

/// `printf` of a format and the arguments behind it, if they are few enough (C11 7.21.6.3).
pub fn print_of(
    alloc: Global,
    place: u32,
    few: Result<(), CompileFault>,
    format: Result<Vec<Piece>, CompileFault>,
    args: Result<Vec<Expr>, CompileFault>,
) -> Result<Box<Expr>, CompileFault>
    ensures { Finishes boxed_expr_view (joined few (joined format args)) (λ p. printed place (pieces_view p.1.0, exprs_view p.1.1)) result }
{
    let (_, (format, args)) = both(few, both(format, args))?;
    printed(alloc, place, format, args)
}

/// What stands for a format, and is none.
pub fn no_format(place: u32, e: Result<Box<Expr>, CompileFault>) -> Result<Vec<Piece>, CompileFault>
    ensures { Finishes pieces_view e (λ _. refuse place (OutsideSubset 15)) result }
{
    e?;
    refused(place, Kind::OutsideSubset(15))
}

/// `thrd_create` of its first argument, and of the function and the arguments behind it (C11
/// 7.26.5.1).
pub fn start_of(
    alloc: Global,
    place: u32,
    first: Result<Box<Expr>, CompileFault>,
    rest: Result<(Option<u32>, Vec<Expr>), CompileFault>,
) -> Result<Box<Expr>, CompileFault>
    ensures { Finishes boxed_expr_view (joined first rest) (λ p. started place (boxed_expr_view p.0 ∷ []) p.1.0 (exprs_view p.1.1)) result }
{
    let (first, (function, rest)) = both(first, rest)?;
    started(alloc, place, first, function, rest)
}

/// What stands for a function that a thread begins with, and names none.
pub fn no_function(e: Result<Box<Expr>, CompileFault>) -> Result<Option<u32>, CompileFault>
    ensures { Finishes (λ f. f) e (λ _. typed None) result }
{
    e?;
    Ok(None)
}
