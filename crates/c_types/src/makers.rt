//! Statements of several parts, made (C11 6.8.2, 6.8.4, 6.8.5).
ghost use Rattle.std.specs.Prelude.{◌≡◌, ◌∷◌, []};
ghost use Rattle.std.specs.Option.{option_map};
ghost use Rattle.c_tree.specs.Typed.{at_stmt, block, if_, if_else, while_, for_, do_while, switch};
ghost use Rattle.c_tree.specs.TypedViews.{boxed_expr_view, stmt_view, boxed_stmt_view};
ghost use Rattle.c_typing.specs.Faults.{Gives, typed};
ghost use Rattle.c_tree.specs.Typed as typed_trees;
ghost use Rattle.c_typing.specs.Statements as rules;
ghost use Rattle.type_declared.specs.Gathering.{each};
ghost use Rattle.c_types.specs.inner.Switches.{entries_view};

use crate::parts::alone;
use crate::switches::Entries;
use c_lex::CompileFault;
use c_tree::typed::{Expr, Stmt, StmtNode};
use std::alloc::Global;
use type_locals::headers::{headed, nothing};

// A block.
fn block(place: u32, items: Vec<Stmt>) -> Stmt
    ensures { stmt_view result ≡ at_stmt place (block (typed_trees.stmts_of (each stmt_view items))) }
{
    Stmt {
        place,
        node: StmtNode::Block(items),
    }
}

// An `if` without an `else`.
fn if_then(place: u32, condition: Box<Expr>, then: Box<Stmt>) -> Stmt
    ensures { stmt_view result ≡ at_stmt place (if_ (boxed_expr_view condition) (boxed_stmt_view then)) }
{
    Stmt {
        place,
        node: StmtNode::If(Box::into_inner(condition), then, None),
    }
}

// An `if` with an `else`.
fn if_otherwise(place: u32, condition: Box<Expr>, then: Box<Stmt>, otherwise: Box<Stmt>) -> Stmt
    ensures { stmt_view result ≡ at_stmt place (if_else (boxed_expr_view condition) (boxed_stmt_view then) (boxed_stmt_view otherwise)) }
{
    Stmt {
        place,
        node: StmtNode::If(Box::into_inner(condition), then, Some(otherwise)),
    }
}

// A `while`.
fn while_true(place: u32, condition: Box<Expr>, body: Box<Stmt>) -> Stmt
    ensures { stmt_view result ≡ at_stmt place (while_ (boxed_expr_view condition) (boxed_stmt_view body)) }
{
    Stmt {
        place,
        node: StmtNode::While(Box::into_inner(condition), body),
    }
}

// A `do`.
fn do_while(place: u32, body: Box<Stmt>, condition: Box<Expr>) -> Stmt
    ensures { stmt_view result ≡ at_stmt place (do_while (boxed_stmt_view body) (boxed_expr_view condition)) }
{
    Stmt {
        place,
        node: StmtNode::DoWhile(body, Box::into_inner(condition)),
    }
}

// A `switch`.
fn switch(place: u32, e: Box<Expr>, entries: Entries) -> Stmt
    ensures { stmt_view result ≡ at_stmt place (switch (boxed_expr_view e) (entries_view entries).labels (typed_trees.stmts_of (entries_view entries).body)) }
{
    Stmt {
        place,
        node: StmtNode::Switch(Box::into_inner(e), entries.labels, entries.body),
    }
}

/// A block, in a list.
pub(crate) fn block_made(
    alloc: Global,
    place: u32,
    items: Vec<Stmt>,
) -> Result<Vec<Stmt>, CompileFault>
    ensures { Gives (each stmt_view) result (typed (at_stmt place (block (typed_trees.stmts_of (each stmt_view items))) ∷ [])) }
{
    alone(alloc, block(place, items))
}

/// An `if` without an `else`, in a list.
pub(crate) fn if_made(
    alloc: Global,
    place: u32,
    condition: Box<Expr>,
    then: Box<Stmt>,
) -> Result<Vec<Stmt>, CompileFault>
    ensures { Gives (each stmt_view) result (typed (at_stmt place (if_ (boxed_expr_view condition) (boxed_stmt_view then)) ∷ [])) }
{
    alone(alloc, if_then(place, condition, then))
}

/// An `if` with an `else`, in a list.
pub(crate) fn if_else_made(
    alloc: Global,
    place: u32,
    condition: Box<Expr>,
    then: Box<Stmt>,
    otherwise: Box<Stmt>,
) -> Result<Vec<Stmt>, CompileFault>
    ensures { Gives (each stmt_view) result (typed (at_stmt place (if_else (boxed_expr_view condition) (boxed_stmt_view then) (boxed_stmt_view otherwise)) ∷ [])) }
{
    alone(alloc, if_otherwise(place, condition, then, otherwise))
}

/// A `while`, in a list.
pub(crate) fn while_made(
    alloc: Global,
    place: u32,
    condition: Box<Expr>,
    body: Box<Stmt>,
) -> Result<Vec<Stmt>, CompileFault>
    ensures { Gives (each stmt_view) result (typed (at_stmt place (while_ (boxed_expr_view condition) (boxed_stmt_view body)) ∷ [])) }
{
    alone(alloc, while_true(place, condition, body))
}

/// A `do`, in a list.
pub(crate) fn do_made(
    alloc: Global,
    place: u32,
    body: Box<Stmt>,
    condition: Box<Expr>,
) -> Result<Vec<Stmt>, CompileFault>
    ensures { Gives (each stmt_view) result (typed (at_stmt place (do_while (boxed_stmt_view body) (boxed_expr_view condition)) ∷ [])) }
{
    alone(alloc, do_while(place, body, condition))
}

/// A `switch`, in a list.
pub(crate) fn switch_made(
    alloc: Global,
    place: u32,
    e: Box<Expr>,
    entries: Entries,
) -> Result<Vec<Stmt>, CompileFault>
    ensures { Gives (each stmt_view) result (typed (at_stmt place (switch (boxed_expr_view e) (entries_view entries).labels (typed_trees.stmts_of (entries_view entries).body)) ∷ [])) }
{
    alone(alloc, switch(place, e, entries))
}

/// A `for`, with its header.
pub(crate) fn for_made(
    alloc: Global,
    place: u32,
    header: Vec<Stmt>,
    condition: Option<Box<Expr>>,
    step: Box<Stmt>,
    body: Box<Stmt>,
) -> Result<Box<Stmt>, CompileFault>
    ensures { Gives boxed_stmt_view result (typed (rules.headed place (each stmt_view header) (λ s. at_stmt place (for_ s (option_map boxed_expr_view condition) (boxed_stmt_view step) (boxed_stmt_view body))))) }
{
    let whole = headed(alloc, place, header, condition, step, body)?;
    Ok(whole)
}

/// The statement under an `if` or a loop: it is one, and no declaration.
pub(crate) fn only(mut all: Vec<Stmt>) -> Stmt
    ensures { stmt_view result ≡ rules.only (each stmt_view all) }
{
    if all.is_empty() {
        nothing(0)
    } else {
        all.remove(0)
    }
}
