//! Members of structs, and sizes of types (C11 6.5.2.3, 6.5.3.4).
ghost use Rattle.std.specs.Prelude.{◌≡◌};
ghost use Rattle.c_tree.specs.TypedViews.{type_view, boxed_expr_view};
ghost use Rattle.c_typing.specs.Faults.{Gives};
ghost use Rattle.c_typing.specs.Rules.{selected, pointed, size_number};
ghost use Rattle.type_context.specs.ContextViews.{context_view};

use crate::trees::made;
use crate::unary::target;
use ak_words::{IntType, Num};
use c_lex::{CompileFault, Kind};
use c_tree::syntax::Name;
use c_tree::typed::{CType, Expr, ExprNode};
use type_context::context::Context;
use type_context::faults::{as_fault, refused, unless};
use type_context::kinds::has_size;
use type_context::layouts::size_in;

/// `e.m`: of a struct that has the member (C11 6.5.2.3).
pub fn selected(
    context: &Context<'_>,
    place: u32,
    e: Box<Expr>,
    name: Name,
) -> Result<Box<Expr>, CompileFault>
    ensures { Gives boxed_expr_view result (selected (context_view context.now) place (boxed_expr_view e) name) }
{
    let CType::Struct(number) = &e.ty else {
        return refused(place, Kind::TypeMismatch);
    };
    match context.member_of(*number, name)? {
        Some((member, ty)) => made(context.alloc, place, ty, ExprNode::Member(e, member)),
        None => refused(place, Kind::UnknownName),
    }
}

/// `p->m` is `(*p).m`.
#[tactic(auto, using(type_context::proofs::Judging::fails_part))]
pub fn pointed(
    context: &Context<'_>,
    place: u32,
    p: Box<Expr>,
    name: Name,
) -> Result<Box<Expr>, CompileFault>
    ensures { Gives boxed_expr_view result (pointed (context_view context.now) place (boxed_expr_view p) name) }
{
    let e = target(context.alloc, place, p)?;
    selected(context, place, e, name)
}

/// `sizeof`, of a type that has a size (C11 6.5.3.4). No type is so large that its size passes 64
/// bits; there the answer would be want of memory.
#[tactic(auto, using(type_context::proofs::Judging::fails_part))]
pub fn size_number(context: &Context<'_>, place: u32, t: &CType) -> Result<Box<Expr>, CompileFault>
    ensures { Gives boxed_expr_view result (size_number (context_view context.now) place (type_view t.now)) }
{
    as_fault(unless(place, Kind::BadSize, has_size(&context.structs, t)))?;
    let Some(size) = size_in(&context.structs, t) else {
        return Err(CompileFault::NoMemory);
    };
    let size = Num {
        ty: IntType::unsigned_long(),
        value: i128::from(size),
    };
    made(
        context.alloc,
        place,
        CType::Int(size.ty),
        ExprNode::Num(size),
    )
}
