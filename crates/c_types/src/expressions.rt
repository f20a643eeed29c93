//! Expressions, judged where they stand, from left to right (C11 6.5).
ghost use Rattle.std.specs.Prelude.{map};
ghost use Rattle.c_tree.specs.Syntax as trees;
ghost use Rattle.c_tree.specs.SyntaxViews as source;
ghost use Rattle.c_tree.specs.TypedViews.{boxed_expr_view};
ghost use Rattle.c_typing.specs.Judgement.{judged, judged_all, judged_print, judged_start, judged_started, valued, prefixed, name_in, text_in, node_place, starting_or, meaning_in, format_or};
ghost use Rattle.type_context.specs.ContextViews.{context_view};
ghost use Rattle.type_rules.specs.ListViews.{exprs_view, pieces_view};
ghost use Rattle.type_context.specs.Telling.{Tells};
ghost use Rattle.type_nodes.specs.Nodes.{started_view};

use crate::declarators::type_name;
use c_lex::{CompileFault, Kind};
use c_tree::syntax as tree;
use c_tree::syntax::{Name, PrefixOp};
use c_tree::typed::{Expr, Piece};
use type_context::context::Context;
use type_context::faults::{as_fault, both, refused};
use type_context::outcomes::pushed;
use type_nodes::callees::{begun, called_by, few_enough, is_printf, is_thrd_create};
use type_nodes::leaves::{named, null, number, text};
use type_nodes::literals::format_of;
use type_nodes::operators::{
    addressed, cast_to, choice_of, combination, element_of, member_of, no_format, no_function,
    pointed_by, prefixed, print_of, size_of_expression, size_of_type, start_of, unboxed, valued,
};
use type_rules::places::{name_in, node_place, text_in};

/// An expression, judged where it stands.
#[cycle(nodes)]
pub fn expression(context: &mut Context<'_>, e: &tree::Expr) -> Result<Box<Expr>, CompileFault>
    ensures { Tells boxed_expr_view result context.new (judged (source.expr_view e.now) (context_view context.old)) }
{
    match e {
        tree::Expr::Name(name) => named(context, *name),
        tree::Expr::Int { place, value } => number(context.alloc, *place, *value),
        tree::Expr::Char { place, value } => number(context.alloc, *place, *value),
        tree::Expr::Text(parts) => text(context, parts),
        tree::Expr::Null { place } => null(context.alloc, *place),
        tree::Expr::Group(e) => expression(context, e),
        tree::Expr::Call { callee, args } => call(context, *callee, args),
        tree::Expr::Prefix { place, op, operand } => prefix(context, *place, *op, operand),
        tree::Expr::SizeofType { place, of } => type_size(context, *place, of),
        tree::Expr::SizeofExpr { place, operand } => expression_size(context, *place, operand),
        tree::Expr::Member {
            place,
            base,
            member,
        } => selection(context, *place, base, *member),
        tree::Expr::Arrow {
            place,
            base,
            member,
        } => arrow(context, *place, base, *member),
        tree::Expr::Cast { place, to, operand } => {
            let to = type_name(context, to);
            let operand = value(context, operand);
            cast_to(context.alloc, *place, to, operand)
        }
        tree::Expr::Index { place, base, index } => {
            let base = value(context, base);
            let index = value(context, index);
            element_of(context, *place, base, index)
        }
        tree::Expr::Binary {
            place,
            op,
            left,
            right,
        } => {
            let left = value(context, left);
            let right = value(context, right);
            combination(context, *place, *op, left, right)
        }
        tree::Expr::Conditional {
            place,
            condition,
            then,
            otherwise,
        } => {
            let condition = value(context, condition);
            let then = value(context, then);
            let otherwise = value(context, otherwise);
            choice_of(context.alloc, *place, condition, then, otherwise)
        }
    }
}

/// The value of an expression: of an array a pointer to its first element (C11 6.3.2.1 p3).
#[cycle(nodes)]
pub fn value(context: &mut Context<'_>, e: &tree::Expr) -> Result<Box<Expr>, CompileFault>
    ensures { Tells boxed_expr_view result context.new (valued (judged (source.expr_view e.now)) (context_view context.old)) }
{
    let e = expression(context, e);
    valued(context.alloc, e)
}

// `sizeof` of a type (C11 6.5.3.4).
#[cycle(nodes)]
fn type_size(
    context: &mut Context<'_>,
    place: u32,
    of: &tree::TypeName,
) -> Result<Box<Expr>, CompileFault>
    ensures { Tells boxed_expr_view result context.new (judged (trees.sizeof_type place (source.type_name_view of.now)) (context_view context.old)) }
{
    let of = type_name(context, of);
    size_of_type(context, place, of)
}

// `sizeof` of an expression (C11 6.5.3.4).
#[cycle(nodes)]
fn expression_size(
    context: &mut Context<'_>,
    place: u32,
    e: &tree::Expr,
) -> Result<Box<Expr>, CompileFault>
    ensures { Tells boxed_expr_view result context.new (judged (trees.sizeof_expr place (source.expr_view e.now)) (context_view context.old)) }
{
    let operand = expression(context, e);
    size_of_expression(context, place, operand)
}

// `e.m` (C11 6.5.2.3).
#[cycle(nodes)]
fn selection(
    context: &mut Context<'_>,
    place: u32,
    e: &tree::Expr,
    member: Name,
) -> Result<Box<Expr>, CompileFault>
    ensures { Tells boxed_expr_view result context.new (judged (trees.member place (source.expr_view e.now) member) (context_view context.old)) }
{
    let base = expression(context, e);
    member_of(context, place, base, member)
}

// `p->m` (C11 6.5.2.3).
#[cycle(nodes)]
fn arrow(
    context: &mut Context<'_>,
    place: u32,
    e: &tree::Expr,
    member: Name,
) -> Result<Box<Expr>, CompileFault>
    ensures { Tells boxed_expr_view result context.new (judged (trees.arrow place (source.expr_view e.now) member) (context_view context.old)) }
{
    let base = value(context, e);
    pointed_by(context, place, base, member)
}

// A prefix operator on an expression; a local whose address is taken is in memory (C11 6.5.3).
#[cycle(nodes)]
fn prefix(
    context: &mut Context<'_>,
    place: u32,
    op: PrefixOp,
    e: &tree::Expr,
) -> Result<Box<Expr>, CompileFault>
    ensures { Tells boxed_expr_view result context.new (prefixed place op (name_in (source.expr_view e.now)) (judged (source.expr_view e.now)) (context_view context.old)) }
{
    match op {
        PrefixOp::AddressOf => {
            let operand = expression(context, e);
            context.mark_addressed(name_in(e))?;
            addressed(context.alloc, place, operand)
        }
        _ => {
            let operand = value(context, e);
            prefixed(context.alloc, place, op, operand)
        }
    }
}

// A call of a name (C11 6.5.2.2).
#[cycle(nodes)]
fn call(
    context: &mut Context<'_>,
    callee: Name,
    args: &[tree::Expr],
) -> Result<Box<Expr>, CompileFault>
    ensures { Tells boxed_expr_view result context.new (judged (trees.call callee (trees.exprs_of (map source.expr_view args.now))) (context_view context.old)) }
{
    let meaning = context.meaning_of(callee)?;
    if is_printf(&meaning) {
        return print(context, callee.from, args);
    }
    if is_thrd_create(&meaning) {
        return start(context, callee.from, args);
    }
    let args = arguments(context, args);
    called_by(context.alloc, callee.from, meaning, args)
}

// Arguments, from left to right.
#[cycle(nodes)]
fn arguments(context: &mut Context<'_>, args: &[tree::Expr]) -> Result<Vec<Expr>, CompileFault>
    ensures { Tells exprs_view result context.new (judged_all (trees.exprs_of (map source.expr_view args.now)) (context_view context.old)) }
{
    let mut all = Ok(Vec::new(context.alloc));
    'arguments: for e in args {
        let next = value(context, e);
        all = pushed(all, unboxed(next));
    }
    all
}

// `printf`: its format, and then the arguments behind it (C11 7.21.6.3).
#[cycle(nodes)]
fn print(
    context: &mut Context<'_>,
    place: u32,
    args: &[tree::Expr],
) -> Result<Box<Expr>, CompileFault>
    ensures { Tells boxed_expr_view result context.new (judged_print place (trees.exprs_of (map source.expr_view args.now)) (context_view context.old)) }
{
    let [first, rest @ ..] = args else {
        arguments(context, args)?;
        return refused(place, Kind::TypeMismatch);
    };
    let few = as_fault(few_enough(rest));
    let format = format(context, first);
    let rest = arguments(context, rest);
    print_of(context.alloc, place, few, format, rest)
}

// A format, which is a string literal and makes no block.
#[cycle(nodes)]
fn format(context: &mut Context<'_>, e: &tree::Expr) -> Result<Vec<Piece>, CompileFault>
    ensures { Tells pieces_view result context.new (format_or (text_in (source.expr_view e.now)) (node_place (source.expr_view e.now)) (judged (source.expr_view e.now)) (context_view context.old)) }
{
    let place = node_place(e);
    match text_in(e) {
        Some(parts) => format_of(context.alloc, place, context.text, parts),
        None => {
            let other = expression(context, e);
            no_format(place, other)
        }
    }
}

// `thrd_create`: the function is its second argument (C11 7.26.5.1).
#[cycle(nodes)]
fn start(
    context: &mut Context<'_>,
    place: u32,
    args: &[tree::Expr],
) -> Result<Box<Expr>, CompileFault>
    ensures { Tells boxed_expr_view result context.new (judged_start place (trees.exprs_of (map source.expr_view args.now)) (context_view context.old)) }
{
    let [first, rest @ ..] = args else {
        function_and_rest(context, args)?;
        return refused(place, Kind::TypeMismatch);
    };
    let first = value(context, first);
    let rest = function_and_rest(context, rest);
    start_of(context.alloc, place, first, rest)
}

// The function that a thread begins with, and the arguments behind it.
#[cycle(nodes)]
fn function_and_rest(
    context: &mut Context<'_>,
    args: &[tree::Expr],
) -> Result<(Option<u32>, Vec<Expr>), CompileFault>
    ensures { Tells started_view result context.new (judged_started (trees.exprs_of (map source.expr_view args.now)) (context_view context.old)) }
{
    let [first, rest @ ..] = args else {
        let none = arguments(context, args)?;
        return Ok((None, none));
    };
    let function = starting(context, first);
    let rest = arguments(context, rest);
    both(function, rest)
}

// The function that a thread begins with, if it is named and fits.
#[cycle(nodes)]
fn starting(context: &mut Context<'_>, e: &tree::Expr) -> Result<Option<u32>, CompileFault>
    ensures { Tells (λ f. f) result context.new (starting_or (meaning_in (context_view context.old) (name_in (source.expr_view e.now))) (judged (source.expr_view e.now)) (context_view context.old)) }
{
    match begun(context, name_in(e))? {
        Some(function) => Ok(function),
        None => {
            let other = expression(context, e);
            no_function(other)
        }
    }
}
