//! The header of a `for` (C11 6.8.5.3).
ghost use Rattle.std.specs.Prelude.{◌≡◌, IfOk, map};
ghost use Rattle.std.specs.Option.{option_map};
ghost use Rattle.c_tree.specs.Typed as typed_trees;
ghost use Rattle.c_tree.specs.Typed.{at_stmt, for_, empty};
ghost use Rattle.c_tree.specs.TypedViews.{optional_expr_view, boxed_expr_view, stmt_view, boxed_stmt_view};
ghost use Rattle.c_typing.specs.Statements.{headed};
ghost use Rattle.type_locals.specs.inner.Blocks.{enclosed};

use crate::boxes::{boxed, put};
use c_tree::typed::{Expr, Stmt, StmtNode};
use std::alloc::{AllocError, Global};

/// A statement that does nothing.
pub fn nothing(place: u32) -> Stmt
    ensures { stmt_view result ≡ at_stmt place empty }
{
    Stmt {
        place,
        node: StmtNode::Empty,
    }
}

/// An expression that may be there, without its box.
pub fn unboxed(e: Option<Box<Expr>>) -> Option<Expr>
    ensures { optional_expr_view result ≡ option_map boxed_expr_view e }
{
    match e {
        Some(e) => Some(Box::into_inner(e)),
        None => None,
    }
}

// Declarations, and a statement behind them, in one block, if there are any.
fn enclosed(
    alloc: Global,
    place: u32,
    mut before: Vec<Stmt>,
    last: Box<Stmt>,
) -> Result<Box<Stmt>, AllocError>
    ensures { IfOk result (λ s. boxed_stmt_view s ≡ enclosed place (map stmt_view before.items) (boxed_stmt_view last)) }
{
    if before.is_empty() {
        return Ok(last);
    }
    put(&mut before, Box::into_inner(last))?;
    let node = StmtNode::Block(before);
    boxed(alloc, Stmt { place, node })
}

// A `for` with its first clause.
fn loop_of(
    alloc: Global,
    place: u32,
    first: Box<Stmt>,
    condition: Option<Box<Expr>>,
    step: Box<Stmt>,
    body: Box<Stmt>,
) -> Result<Box<Stmt>, AllocError>
    ensures { IfOk result (λ s. boxed_stmt_view s ≡ at_stmt place (for_ (boxed_stmt_view first) (option_map boxed_expr_view condition) (boxed_stmt_view step) (boxed_stmt_view body))) }
{
    let node = StmtNode::For(first, unboxed(condition), step, body);
    boxed(alloc, Stmt { place, node })
}

// The last statement of a header, which is its loop's first clause; nothing where it has none.
fn first_of(alloc: Global, place: u32, header: &mut Vec<Stmt>) -> Result<Box<Stmt>, AllocError>
    ensures { IfOk result (λ first. (loop : typed_trees.Stmt → typed_trees.Stmt) → enclosed place (map stmt_view header.new.items) (loop (boxed_stmt_view first)) ≡ headed place (map stmt_view header.old.items) loop) }
{
    match header.pop() {
        Some(first) => boxed(alloc, first),
        None => boxed(alloc, nothing(place)),
    }
}

/// A `for` with its header: where that declares several locals, one block holds them all.
pub fn headed(
    alloc: Global,
    place: u32,
    mut header: Vec<Stmt>,
    condition: Option<Box<Expr>>,
    step: Box<Stmt>,
    body: Box<Stmt>,
) -> Result<Box<Stmt>, AllocError>
    ensures { IfOk result (λ s. boxed_stmt_view s ≡ headed place (map stmt_view header.items) (λ first. at_stmt place (for_ first (option_map boxed_expr_view condition) (boxed_stmt_view step) (boxed_stmt_view body)))) }
{
    let first = first_of(alloc, place, &mut header)?;
    let inside = loop_of(alloc, place, first, condition, step, body)?;
    enclosed(alloc, place, header, inside)
}
