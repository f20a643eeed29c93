//! Assignments, initialisers and what a function returns (C11 6.5.16, 6.5.2.4, 6.5.3.1, 6.7.9, 6.8.6.4).
ghost use Rattle.std.specs.Prelude.{◌≡◌, pos};
ghost use Rattle.ak_words.specs.IntType.{int};
ghost use Rattle.c_tree.specs.Typed.{integer, at, num, type_of};
ghost use Rattle.c_tree.specs.TypedViews.{type_view, expr_view, stmt_view, boxed_expr_view};
ghost use Rattle.c_typing.specs.Faults.{Gives, typed};
ghost use Rattle.c_typing.specs.Statements.{assignable, assigned, moves, updates, operand_by, updated, step_op, stepped, assign_op, assigned_by, initialised, returned_by};
ghost use Rattle.type_context.specs.ContextViews.{context_view};
ghost use Rattle.type_context.specs.Telling.{Says};

use crate::conversions::{converted, fitted, value_of};
use crate::trees::made;
use crate::unary::is_lvalue;
use ak_words::{IntType, Num, Op};
use c_lex::{CompileFault, Kind, Refusal};
use c_tree::syntax::{AssignOp, StepOp};
use c_tree::typed::{CType, Expr, ExprNode, Stmt, StmtNode};
use std::alloc::Global;
use type_context::context::Context;
use type_context::faults::{as_fault, unless};
use type_context::kinds::{has_size, is_array, is_declared, is_scalar, is_void};

// Whether it may be assigned: it is an object, no array, and no struct that isn't complete there.
#[tactic(auto, using(type_context::proofs::Judging::refused_part))]
fn assignable(context: &Context<'_>, place: u32, e: &Expr) -> Result<(), Refusal>
    ensures { Says (λ _. tt) result (assignable (context_view context.now) place (expr_view e.now)) }
{
    let fine = if is_array(&e.ty) { false } else { is_lvalue(e) };
    unless(place, Kind::NotAnLvalue, fine)?;
    let declared = is_declared(&context.structs, &e.ty);
    unless(e.place, Kind::NotAnLvalue, declared)
}

// `left = right` (C11 6.5.16.1).
#[tactic(auto, using(type_context::proofs::Judging::fails_part))]
fn assigned(
    context: &Context<'_>,
    place: u32,
    left: Box<Expr>,
    right: Box<Expr>,
) -> Result<Stmt, CompileFault>
    ensures { Gives stmt_view result (assigned (context_view context.now) place (boxed_expr_view left) (boxed_expr_view right)) }
{
    as_fault(assignable(context, place, &left))?;
    let right = value_of(context.alloc, right)?;
    let right = fitted(context.alloc, place, &left.ty, right)?;
    Ok(Stmt {
        place,
        node: StmtNode::Assign(left, right),
    })
}

// Whether the operator also moves a pointer, and changes an atomic number.
fn moves(op: Op) -> bool
    ensures { result ≡ moves op }
{
    matches!(op, Op::Add | Op::Sub)
}

// What a compound assignment takes: two numbers, an atomic number and a number, or a pointer and a number (C11 6.5.16.2).
#[tactic(auto, using(type_context::proofs::Judging::refused_part))]
fn updates(context: &Context<'_>, place: u32, op: Op, s: &CType, t: &CType) -> Result<(), Refusal>
    ensures { Says (λ _. tt) result (updates (context_view context.now) place op (type_view s.now) (type_view t.now)) }
{
    match (s, t) {
        (CType::Int(_), CType::Int(_)) => Ok(()),
        (CType::Atomic(_), CType::Int(_)) => unless(place, Kind::TypeMismatch, moves(op)),
        (CType::Pointer(target), CType::Int(_)) => {
            unless(place, Kind::TypeMismatch, moves(op))?;
            unless(place, Kind::BadSize, has_size(&context.structs, target))
        }
        _ => Err(Refusal {
            place,
            kind: Kind::TypeMismatch,
        }),
    }
}

// What is added to an atomic number, or taken away, is converted to its type.
fn operand_for(alloc: Global, left: &CType, right: Box<Expr>) -> Result<Box<Expr>, CompileFault>
    ensures { Gives boxed_expr_view result (typed (operand_by (type_view left.now) (type_of (boxed_expr_view right)) (boxed_expr_view right))) }
{
    match (left, &right.ty) {
        (CType::Atomic(s), CType::Int(t)) => converted(alloc, *t, *s, right),
        _ => Ok(right),
    }
}

// `left op= right` (C11 6.5.16.2).
#[tactic(auto, using(type_context::proofs::Judging::fails_part))]
fn updated(
    context: &Context<'_>,
    place: u32,
    op: Op,
    left: Box<Expr>,
    right: Box<Expr>,
) -> Result<Stmt, CompileFault>
    ensures { Gives stmt_view result (updated (context_view context.now) place op (boxed_expr_view left) (boxed_expr_view right)) }
{
    as_fault(assignable(context, place, &left))?;
    as_fault(updates(context, place, op, &left.ty, &right.ty))?;
    let right = operand_for(context.alloc, &left.ty, right)?;
    Ok(Stmt {
        place,
        node: StmtNode::Update(left, op, right),
    })
}

// `++` and `--` add and subtract 1.
fn step_op(op: StepOp) -> Op
    ensures { result ≡ step_op op }
{
    match op {
        StepOp::Increment => Op::Add,
        StepOp::Decrement => Op::Sub,
    }
}

// The number 1.
fn one(alloc: Global, place: u32) -> Result<Box<Expr>, CompileFault>
    ensures { Gives boxed_expr_view result (typed (at place (integer int) (num int (pos 1)))) }
{
    made(
        alloc,
        place,
        CType::Int(IntType::int()),
        ExprNode::Num(Num::int(1)),
    )
}

/// `e++` and its kin (C11 6.5.2.4, 6.5.3.1).
pub fn stepped(
    context: &Context<'_>,
    place: u32,
    op: StepOp,
    e: Box<Expr>,
) -> Result<Stmt, CompileFault>
    ensures { Gives stmt_view result (stepped (context_view context.now) place op (boxed_expr_view e)) }
{
    let one = one(context.alloc, place)?;
    updated(context, place, step_op(op), e, one)
}

/// The operation of an assignment: `=` has none.
pub fn assign_op(op: AssignOp) -> Option<Op>
    ensures { result ≡ assign_op op }
{
    match op {
        AssignOp::Plain => None,
        AssignOp::Add => Some(Op::Add),
        AssignOp::Sub => Some(Op::Sub),
        AssignOp::Mul => Some(Op::Mul),
        AssignOp::Div => Some(Op::Div),
        AssignOp::Rem => Some(Op::Rem),
        AssignOp::And => Some(Op::And),
        AssignOp::Or => Some(Op::Or),
        AssignOp::Xor => Some(Op::Xor),
        AssignOp::Shl => Some(Op::Shl),
        AssignOp::Shr => Some(Op::Shr),
    }
}

/// An assignment, simple or compound (C11 6.5.16).
pub fn assigned_by(
    context: &Context<'_>,
    place: u32,
    op: Option<Op>,
    left: Box<Expr>,
    right: Box<Expr>,
) -> Result<Stmt, CompileFault>
    ensures { Gives stmt_view result (assigned_by (context_view context.now) place op (boxed_expr_view left) (boxed_expr_view right)) }
{
    match op {
        None => assigned(context, place, left, right),
        Some(op) => {
            let right = value_of(context.alloc, right)?;
            updated(context, place, op, left, right)
        }
    }
}

/// An initialiser, of a number or a pointer (C11 6.7.9 p11).
#[tactic(auto, using(type_context::proofs::Judging::fails_part))]
pub fn initialised(
    alloc: Global,
    place: u32,
    t: &CType,
    value: Box<Expr>,
) -> Result<Box<Expr>, CompileFault>
    ensures { Gives boxed_expr_view result (initialised place (type_view t.now) (boxed_expr_view value)) }
{
    as_fault(unless(place, Kind::TypeMismatch, is_scalar(t)))?;
    fitted(alloc, place, t, value)
}

/// What a function returns that has a result (C11 6.8.6.4).
#[tactic(auto, using(type_context::proofs::Judging::fails_part))]
pub fn returned_by(
    alloc: Global,
    place: u32,
    returned: &CType,
    value: Box<Expr>,
) -> Result<Stmt, CompileFault>
    ensures { Gives stmt_view result (returned_by place (type_view returned.now) (boxed_expr_view value)) }
{
    as_fault(unless(place, Kind::TypeMismatch, !is_void(returned)))?;
    let value = fitted(alloc, place, returned, value)?;
    Ok(Stmt {
        place,
        node: StmtNode::Return(Some(Box::into_inner(value))),
    })
}
