//! Expressions with no parts (C11 6.5.1).
ghost use Rattle.ak_words.specs.IntType.{int};
ghost use Rattle.c_tree.specs.Typed.{at, integer, num, null, pointer, void};
ghost use Rattle.c_tree.specs.TypedViews.{boxed_expr_view};
ghost use Rattle.c_typing.specs.Faults.{Gives, typed};
ghost use Rattle.c_typing.specs.Scope.{meaning_of};
ghost use Rattle.c_typing.specs.Literals.{joined_bytes, place_of_parts};
ghost use Rattle.c_typing.specs.Judgement.{named, spelled};
ghost use Rattle.type_context.specs.ContextViews.{context_view};
ghost use Rattle.type_context.specs.Telling.{Tells};

use crate::literals::joined;
use ak_words::{IntType, Num};
use c_lex::{CompileFault, Kind};
use c_tree::syntax::{Name, Span};
use c_tree::typed::{CType, Expr, ExprNode};
use std::alloc::Global;
use type_context::context::{Context, count};
use type_context::faults::{as_fault, refused};
use type_context::names::{Binding, Library};
use type_rules::places::place_of_parts;
use type_rules::trees::made;

/// A name is an object or a constant, and no type.
pub fn named(context: &Context<'_>, name: Name) -> Result<Box<Expr>, CompileFault>
    ensures { Gives boxed_expr_view result (named name.from (meaning_of (context_view context.now) name)) }
{
    let place = name.from;
    match context.meaning_of(name)? {
        Some(Binding::Global(n, ty)) => made(context.alloc, place, ty, ExprNode::Global(n)),
        Some(Binding::Local(n, ty)) => made(context.alloc, place, ty, ExprNode::Local(n)),
        Some(Binding::Library(Library::Constant(value))) => number(
            context.alloc,
            place,
            Num::int(value),
        ),
        Some(Binding::Enumerator(value)) => number(context.alloc, place, Num::int(value)),
        Some(Binding::Type(_)) => refused(place, Kind::UnknownName),
        Some(_) => refused(place, Kind::OutsideSubset(12)),
        None => refused(place, Kind::UnknownName),
    }
}

/// A string literal is an array of char, and a block of its own (C11 6.4.5 p6).
pub fn text(context: &mut Context<'_>, parts: &[Span]) -> Result<Box<Expr>, CompileFault>
    ensures { Tells boxed_expr_view result context.new (spelled (place_of_parts parts.now) (joined_bytes (context_view context.old).text parts.now) (context_view context.old)) }
{
    let bytes = joined(context.alloc, context.text, parts)?;
    spelled(context, place_of_parts(parts), bytes)
}

// A literal of these bytes.
fn spelled(context: &mut Context<'_>, place: u32, bytes: Vec<u8>) -> Result<Box<Expr>, CompileFault>
    ensures { Tells boxed_expr_view result context.new (spelled place bytes.items (context_view context.old)) }
{
    let length = count(bytes.len())?;
    let fits = as_fault(context.fits_plain(place, length));
    let number = context.add_literal(bytes)?;
    let element = Box::new(context.alloc, CType::Int(IntType::char()))?;
    fits?;
    let ty = CType::Array(element, length);
    made(context.alloc, place, ty, ExprNode::Literal(number))
}

/// A number.
pub fn number(alloc: Global, place: u32, value: Num) -> Result<Box<Expr>, CompileFault>
    ensures { Gives boxed_expr_view result (typed (at place (integer value.ty) (num value.ty value.value))) }
{
    made(alloc, place, CType::Int(value.ty), ExprNode::Num(value))
}

/// `NULL`.
pub fn null(alloc: Global, place: u32) -> Result<Box<Expr>, CompileFault>
    ensures { Gives boxed_expr_view result (typed (at place (pointer void) null)) }
{
    made(
        alloc,
        place,
        CType::Pointer(Box::new(alloc, CType::Void)?),
        ExprNode::Null,
    )
}
