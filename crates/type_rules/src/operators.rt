//! Operators on two typed operands (C11 6.5.5 to 6.5.15).
ghost use Rattle.std.specs.Prelude.{◌≡◌};
ghost use Rattle.ak_words.specs.IntType.{long};
ghost use Rattle.ak_words.specs.Op.{result_type};
ghost use Rattle.c_tree.specs.Typed.{at, integer, pointer_diff};
ghost use Rattle.c_tree.specs.TypedViews.{type_view, boxed_expr_view};
ghost use Rattle.type_context.specs.ContextViews.{context_view};
ghost use Rattle.type_context.specs.Telling.{Says};
ghost use Rattle.c_typing.specs.Faults.{Gives, typed};
ghost use Rattle.c_typing.specs.Rules.{numbers, operands, arithmetic, shifted, sized, moved_up, moved_down, sum, difference, compared, equality, order, shift, on_numbers, operated, element, chosen_by, chosen};
ghost use Rattle.type_rules.specs.inner.Operands.{operands_view};

use crate::conversions::{converted, is_zero, null_for};
use crate::trees::made;
use crate::unary::target;
use ak_words::{IntType, Op, common, promote};
use c_lex::{CompileFault, Kind, Refusal};
use c_tree::typed::{CType, Expr, ExprNode};
use std::alloc::Global;
use type_context::context::Context;
use type_context::faults::{as_fault, refused, unless};
use type_context::kinds::{has_size, is_void, same_type};
use c_tree::copies::copy_type;

/// What two operands are.
#[derive(Clone, Copy)]
pub enum Operands<'a> {
    Numbers(IntType, IntType),
    PointerNumber(&'a CType, IntType),
    NumberPointer(IntType, &'a CType),
    Pointers(&'a CType, &'a CType),
    Others,
}

/// What operands of these types are.
pub fn operands_of<'a>(s: &'a CType, t: &'a CType) -> Operands<'a>
    ensures { operands_view result ≡ operands (type_view s.now) (type_view t.now) }
{
    match (s, t) {
        (CType::Int(s), CType::Int(t)) => Operands::Numbers(*s, *t),
        (CType::Int(s), CType::Pointer(t)) => Operands::NumberPointer(*s, t),
        (CType::Pointer(t), CType::Int(s)) => Operands::PointerNumber(t, *s),
        (CType::Pointer(s), CType::Pointer(t)) => Operands::Pointers(s, t),
        _ => Operands::Others,
    }
}

// The type of an operation on operands of type `t`.
fn result_type(op: Op, t: IntType) -> IntType
    ensures { result ≡ result_type op t }
{
    match op {
        Op::Eq | Op::Ne | Op::Lt | Op::Le | Op::Gt | Op::Ge => IntType::int(),
        _ => t,
    }
}

/// An operation on numbers is done in their common type (C11 6.3.1.8).
pub fn arithmetic(
    alloc: Global,
    place: u32,
    op: Op,
    s: IntType,
    a: Box<Expr>,
    t: IntType,
    b: Box<Expr>,
) -> Result<Box<Expr>, CompileFault>
    ensures { Gives boxed_expr_view result (typed (arithmetic place op s (boxed_expr_view a) t (boxed_expr_view b))) }
{
    let both = common(s, t);
    let left = converted(alloc, s, both, a)?;
    let right = converted(alloc, t, both, b)?;
    made(
        alloc,
        place,
        CType::Int(result_type(op, both)),
        ExprNode::Binary(op, left, right),
    )
}

// A shift: each operand is promoted by itself, and the left one has the result's type (C11 6.5.7 p3).
fn shifted(
    alloc: Global,
    place: u32,
    op: Op,
    s: IntType,
    a: Box<Expr>,
    t: IntType,
    b: Box<Expr>,
) -> Result<Box<Expr>, CompileFault>
    ensures { Gives boxed_expr_view result (typed (shifted place op s (boxed_expr_view a) t (boxed_expr_view b))) }
{
    let left = converted(alloc, s, promote(s), a)?;
    let right = converted(alloc, t, promote(t), b)?;
    made(
        alloc,
        place,
        CType::Int(promote(s)),
        ExprNode::Binary(op, left, right),
    )
}

// Two pointers compared, if they fit.
fn compared(
    alloc: Global,
    place: u32,
    op: Op,
    fits: bool,
    p: Box<Expr>,
    q: Box<Expr>,
) -> Result<Box<Expr>, CompileFault>
    ensures { Gives boxed_expr_view result (compared place op fits (boxed_expr_view p) (boxed_expr_view q)) }
{
    if !fits {
        return refused(place, Kind::TypeMismatch);
    }
    made(
        alloc,
        place,
        CType::Int(IntType::int()),
        ExprNode::PtrCompare(op, p, q),
    )
}

// Whether a pointer leads to elements that have a size, and so can be counted (C11 6.5.6 p2).
fn sized(context: &Context<'_>, place: u32, target: &CType) -> Result<(), Refusal>
    ensures { Says (λ _. tt) result (sized (context_view context.now) place (type_view target.now)) }
{
    unless(place, Kind::BadSize, has_size(&context.structs, target))
}

// A pointer moved up by a number of elements, whichever of the two stands first.
#[tactic(auto, using(type_context::proofs::Judging::fails_part))]
fn moved_up(
    context: &Context<'_>,
    place: u32,
    target: &CType,
    a: Box<Expr>,
    b: Box<Expr>,
) -> Result<Box<Expr>, CompileFault>
    ensures { Gives boxed_expr_view result (moved_up (context_view context.now) place (type_view target.now) (boxed_expr_view a) (boxed_expr_view b)) }
{
    let alloc = context.alloc;
    as_fault(sized(context, place, target))?;
    let target = copy_type(alloc, target)?;
    made(
        alloc,
        place,
        CType::Pointer(Box::new(alloc, target)?),
        ExprNode::PtrAdd(a, b),
    )
}

// A pointer moved down by a number of elements.
#[tactic(auto, using(type_context::proofs::Judging::fails_part))]
fn moved_down(
    context: &Context<'_>,
    place: u32,
    target: &CType,
    p: Box<Expr>,
    n: Box<Expr>,
) -> Result<Box<Expr>, CompileFault>
    ensures { Gives boxed_expr_view result (moved_down (context_view context.now) place (type_view target.now) (boxed_expr_view p) (boxed_expr_view n)) }
{
    let alloc = context.alloc;
    as_fault(sized(context, place, target))?;
    let target = copy_type(alloc, target)?;
    made(
        alloc,
        place,
        CType::Pointer(Box::new(alloc, target)?),
        ExprNode::PtrSub(p, n),
    )
}

// The number of elements between two pointers.
fn between(alloc: Global, place: u32, p: Box<Expr>, q: Box<Expr>) -> Result<Box<Expr>, CompileFault>
    ensures { Gives boxed_expr_view result (typed (at place (integer long) (pointer_diff (boxed_expr_view p) (boxed_expr_view q)))) }
{
    made(
        alloc,
        place,
        CType::Int(IntType::long()),
        ExprNode::PtrDiff(p, q),
    )
}

/// `a + b` (C11 6.5.6).
#[tactic(auto, using(type_context::proofs::Judging::fails_part))]
pub fn sum(
    context: &Context<'_>,
    place: u32,
    a: Box<Expr>,
    b: Box<Expr>,
) -> Result<Box<Expr>, CompileFault>
    ensures { Gives boxed_expr_view result (sum (context_view context.now) place (operands (type_view a.value.ty) (type_view b.value.ty)) (boxed_expr_view a) (boxed_expr_view b)) }
{
    match operands_of(&a.ty, &b.ty) {
        Operands::Numbers(s, t) => arithmetic(context.alloc, place, Op::Add, s, a, t, b),
        Operands::PointerNumber(target, _) => {
            let target = copy_type(context.alloc, target)?;
            moved_up(context, place, &target, a, b)
        }
        Operands::NumberPointer(_, target) => {
            let target = copy_type(context.alloc, target)?;
            moved_up(context, place, &target, a, b)
        }
        _ => refused(place, Kind::TypeMismatch),
    }
}

/// `a - b` (C11 6.5.6).
#[tactic(auto, using(type_context::proofs::Judging::fails_part))]
pub fn difference(
    context: &Context<'_>,
    place: u32,
    a: Box<Expr>,
    b: Box<Expr>,
) -> Result<Box<Expr>, CompileFault>
    ensures { Gives boxed_expr_view result (difference (context_view context.now) place (operands (type_view a.value.ty) (type_view b.value.ty)) (boxed_expr_view a) (boxed_expr_view b)) }
{
    match operands_of(&a.ty, &b.ty) {
        Operands::Numbers(s, t) => arithmetic(context.alloc, place, Op::Sub, s, a, t, b),
        Operands::PointerNumber(target, _) => {
            let target = copy_type(context.alloc, target)?;
            moved_down(context, place, &target, a, b)
        }
        Operands::Pointers(s, t) => {
            as_fault(unless(place, Kind::TypeMismatch, same_type(s, t)))?;
            as_fault(sized(context, place, s))?;
            between(context.alloc, place, a, b)
        }
        _ => refused(place, Kind::TypeMismatch),
    }
}

/// `a == b` and `a != b` (C11 6.5.9).
pub fn equality(
    alloc: Global,
    place: u32,
    op: Op,
    a: Box<Expr>,
    b: Box<Expr>,
) -> Result<Box<Expr>, CompileFault>
    ensures { Gives boxed_expr_view result (equality place op (operands (type_view a.value.ty) (type_view b.value.ty)) (boxed_expr_view a) (boxed_expr_view b)) }
{
    match operands_of(&a.ty, &b.ty) {
        Operands::Numbers(s, t) => arithmetic(alloc, place, op, s, a, t, b),
        Operands::Pointers(s, t) => {
            let fits = same_type(s, t) || is_void(s) || is_void(t);
            compared(alloc, place, op, fits, a, b)
        }
        Operands::PointerNumber(target, _) => {
            let fits = is_zero(&b);
            let null = null_for(alloc, target, &b)?;
            compared(alloc, place, op, fits, a, null)
        }
        Operands::NumberPointer(_, target) => {
            let fits = is_zero(&a);
            let null = null_for(alloc, target, &a)?;
            compared(alloc, place, op, fits, null, b)
        }
        Operands::Others => refused(place, Kind::TypeMismatch),
    }
}

/// `a < b` and its kin (C11 6.5.8).
pub fn order(
    alloc: Global,
    place: u32,
    op: Op,
    a: Box<Expr>,
    b: Box<Expr>,
) -> Result<Box<Expr>, CompileFault>
    ensures { Gives boxed_expr_view result (order place op (operands (type_view a.value.ty) (type_view b.value.ty)) (boxed_expr_view a) (boxed_expr_view b)) }
{
    match operands_of(&a.ty, &b.ty) {
        Operands::Numbers(s, t) => arithmetic(alloc, place, op, s, a, t, b),
        Operands::Pointers(s, t) => {
            let fits = same_type(s, t);
            compared(alloc, place, op, fits, a, b)
        }
        _ => refused(place, Kind::TypeMismatch),
    }
}

/// A shift of numbers (C11 6.5.7).
pub fn shift(
    alloc: Global,
    place: u32,
    op: Op,
    a: Box<Expr>,
    b: Box<Expr>,
) -> Result<Box<Expr>, CompileFault>
    ensures { Gives boxed_expr_view result (shift place op (operands (type_view a.value.ty) (type_view b.value.ty)) (boxed_expr_view a) (boxed_expr_view b)) }
{
    match operands_of(&a.ty, &b.ty) {
        Operands::Numbers(s, t) => shifted(alloc, place, op, s, a, t, b),
        _ => refused(place, Kind::TypeMismatch),
    }
}

/// The operators that are for numbers alone (C11 6.5.5, 6.5.10 to 6.5.12).
pub fn on_numbers(
    alloc: Global,
    place: u32,
    op: Op,
    a: Box<Expr>,
    b: Box<Expr>,
) -> Result<Box<Expr>, CompileFault>
    ensures { Gives boxed_expr_view result (on_numbers place op (operands (type_view a.value.ty) (type_view b.value.ty)) (boxed_expr_view a) (boxed_expr_view b)) }
{
    match operands_of(&a.ty, &b.ty) {
        Operands::Numbers(s, t) => arithmetic(alloc, place, op, s, a, t, b),
        _ => refused(place, Kind::TypeMismatch),
    }
}

// A choice of two numbers, in their common type.
fn choice(
    alloc: Global,
    place: u32,
    e: Box<Expr>,
    s: IntType,
    a: Box<Expr>,
    t: IntType,
    b: Box<Expr>,
) -> Result<Box<Expr>, CompileFault>
    ensures { Gives boxed_expr_view result (chosen_by place (numbers s t) (boxed_expr_view e) (boxed_expr_view a) (boxed_expr_view b)) }
{
    let both = common(s, t);
    let then = converted(alloc, s, both, a)?;
    let otherwise = converted(alloc, t, both, b)?;
    made(
        alloc,
        place,
        CType::Int(both),
        ExprNode::Choose(e, then, otherwise),
    )
}

/// `e ? a : b`, where both are numbers (C11 6.5.15).
pub fn chosen(
    alloc: Global,
    place: u32,
    e: Box<Expr>,
    a: Box<Expr>,
    b: Box<Expr>,
) -> Result<Box<Expr>, CompileFault>
    ensures { Gives boxed_expr_view result (chosen place (boxed_expr_view e) (boxed_expr_view a) (boxed_expr_view b)) }
{
    match operands_of(&a.ty, &b.ty) {
        Operands::Numbers(s, t) => choice(alloc, place, e, s, a, t, b),
        _ => refused(place, Kind::TypeMismatch),
    }
}

/// A binary operator on two values, by what they are.
#[tactic(auto, unfolding(c_typing::specs::Rules::operated_by))]
pub fn operated(
    context: &Context<'_>,
    place: u32,
    op: Op,
    a: Box<Expr>,
    b: Box<Expr>,
) -> Result<Box<Expr>, CompileFault>
    ensures { Gives boxed_expr_view result (operated (context_view context.now) place op (boxed_expr_view a) (boxed_expr_view b)) }
{
    let alloc = context.alloc;
    match op {
        Op::Add => sum(context, place, a, b),
        Op::Sub => difference(context, place, a, b),
        Op::Eq | Op::Ne => equality(alloc, place, op, a, b),
        Op::Lt | Op::Le | Op::Gt | Op::Ge => order(alloc, place, op, a, b),
        Op::Shl | Op::Shr => shift(alloc, place, op, a, b),
        _ => on_numbers(alloc, place, op, a, b),
    }
}

/// `a[b]` is `*(a + b)` (C11 6.5.2.1).
#[tactic(auto, using(type_context::proofs::Judging::fails_part))]
pub fn element(
    context: &Context<'_>,
    place: u32,
    a: Box<Expr>,
    b: Box<Expr>,
) -> Result<Box<Expr>, CompileFault>
    ensures { Gives boxed_expr_view result (element (context_view context.now) place (boxed_expr_view a) (boxed_expr_view b)) }
{
    let sum = sum(context, place, a, b)?;
    target(context.alloc, place, sum)
}
