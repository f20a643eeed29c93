//! Statements, functions and programs with shared parts.

ghost use Rattle.std.specs.Prelude.{◌≡◌, IfOk, map};
ghost use Rattle.c_tree.specs.Typed as tree;
ghost use Rattle.c_tree.specs.TypedViews.{expr_view, optional_expr_view, label_view, stmt_view, stmt_node_view, func_view, typed_view};
ghost use Rattle.source_tree.specs.SharedViews.{stmt_of, row_of, these, expr_of, labels_of, func_of, program_of};
ghost use Rattle.c_tree.specs.Typed.{stmts_of};

use crate::share_exprs::{share_expr, share_optional};
use crate::tree::{SharedExpr, SharedFunc, SharedLabels, SharedProgram, SharedRow, SharedStmt};
use ak_words::{NoMemory, Op};
use c_tree::typed::{Expr, Func, Label, Stmt, StmtNode, Typed};
use std::alloc::Global;
use std::rc::Rc;

// A statement.
#[cycle(share_stmts)]
fn share_stmt(alloc: Global, s: &Stmt) -> Result<Rc<SharedStmt>, NoMemory>
    ensures { IfOk result (λ shared. stmt_of shared.value ≡ stmt_view s.now) }
{
    let shared = share_node(alloc, s.place, &s.node)?;
    Ok(Rc::new(alloc, shared)?)
}

// What a statement does, at its place.
#[cycle(share_stmts)]
#[tactic(auto, using(c_tree::proofs::ListedViews::block_view, c_tree::proofs::ListedViews::switch_view))]
fn share_node(alloc: Global, place: u32, node: &StmtNode) -> Result<SharedStmt, NoMemory>
    ensures { IfOk result (λ shared. stmt_of shared ≡ tree.at_stmt place (stmt_node_view node.now)) }
{
    match node {
        StmtNode::Block(body) => {
            let body = share_row(alloc, body)?;
            Ok(shared_block(place, body))
        }
        StmtNode::Declare(n, init) => Ok(SharedStmt::Declare(
            place,
            *n,
            share_optional(alloc, init)?,
        )),
        StmtNode::If(e, one, None) => {
            let e = share_expr(alloc, e)?;
            let one = share_stmt(alloc, one)?;
            Ok(SharedStmt::If(place, e, one))
        }
        StmtNode::If(e, one, Some(other)) => share_if_else(alloc, place, e, one, other),
        StmtNode::While(e, body) => {
            let e = share_expr(alloc, e)?;
            let body = share_stmt(alloc, body)?;
            Ok(SharedStmt::While(place, e, body))
        }
        StmtNode::For(first, e, step, body) => share_for(alloc, place, first, e, step, body),
        StmtNode::DoWhile(body, e) => {
            let body = share_stmt(alloc, body)?;
            let e = share_expr(alloc, e)?;
            Ok(SharedStmt::DoWhile(place, body, e))
        }
        StmtNode::Switch(e, labels, body) => share_switch(alloc, place, body, e, labels),
        StmtNode::Break => Ok(SharedStmt::Break(place)),
        StmtNode::Continue => Ok(SharedStmt::Continue(place)),
        StmtNode::Return(value) => Ok(SharedStmt::Return(place, share_optional(alloc, value)?)),
        StmtNode::Assign(left, right) => share_assign(alloc, place, left, right),
        StmtNode::Update(left, op, right) => share_update(alloc, place, left, *op, right),
        StmtNode::Eval(e) => Ok(SharedStmt::Eval(place, share_expr(alloc, e)?)),
        StmtNode::Empty => Ok(SharedStmt::Empty(place)),
    }
}

// A block.
fn shared_block(place: u32, body: Rc<SharedRow>) -> SharedStmt
    ensures { stmt_of result ≡ tree.at_stmt place (tree.block (row_of body.value)) }
{
    SharedStmt::Block(place, body)
}

// An `if` with its `else`.
#[cycle(share_stmts)]
fn share_if_else(
    alloc: Global,
    place: u32,
    e: &Expr,
    one: &Stmt,
    other: &Stmt,
) -> Result<SharedStmt, NoMemory>
    ensures { IfOk result (λ shared. stmt_of shared ≡ tree.at_stmt place (tree.if_else (expr_view e.now) (stmt_view one.now) (stmt_view other.now))) }
{
    let e = share_expr(alloc, e)?;
    let one = share_stmt(alloc, one)?;
    let other = share_stmt(alloc, other)?;
    Ok(SharedStmt::IfElse(place, e, one, other))
}

// A `for`.
#[cycle(share_stmts)]
fn share_for(
    alloc: Global,
    place: u32,
    first: &Stmt,
    e: &Option<Expr>,
    step: &Stmt,
    body: &Stmt,
) -> Result<SharedStmt, NoMemory>
    ensures { IfOk result (λ shared.
        stmt_of shared ≡ tree.at_stmt place (tree.for_ (stmt_view first.now) (optional_expr_view e.now) (stmt_view step.now) (stmt_view body.now))) }
{
    let first = share_stmt(alloc, first)?;
    let e = share_optional(alloc, e)?;
    let step = share_stmt(alloc, step)?;
    let body = share_stmt(alloc, body)?;
    Ok(SharedStmt::For(place, first, e, step, body))
}

// A `switch`.
#[cycle(share_stmts)]
fn share_switch(
    alloc: Global,
    place: u32,
    body: &[Stmt],
    e: &Expr,
    labels: &[Label],
) -> Result<SharedStmt, NoMemory>
    ensures { IfOk result (λ shared.
        stmt_of shared ≡ tree.at_stmt place (tree.switch (expr_view e.now) (map label_view labels.now) (stmts_of (map stmt_view body.now)))) }
{
    let e = share_expr(alloc, e)?;
    let labels = share_labels(alloc, labels)?;
    let body = share_row(alloc, body)?;
    Ok(shared_switch(place, e, labels, body))
}

// A simple assignment.
fn share_assign(
    alloc: Global,
    place: u32,
    left: &Expr,
    right: &Expr,
) -> Result<SharedStmt, NoMemory>
    ensures { IfOk result (λ shared. stmt_of shared ≡ tree.at_stmt place (tree.assign (expr_view left.now) (expr_view right.now))) }
{
    let left = share_expr(alloc, left)?;
    let right = share_expr(alloc, right)?;
    Ok(SharedStmt::Assign(place, left, right))
}

// A compound assignment, or `++` or `--`.
fn share_update(
    alloc: Global,
    place: u32,
    left: &Expr,
    op: Op,
    right: &Expr,
) -> Result<SharedStmt, NoMemory>
    ensures { IfOk result (λ shared. stmt_of shared ≡ tree.at_stmt place (tree.update (expr_view left.now) op (expr_view right.now))) }
{
    let left = share_expr(alloc, left)?;
    let right = share_expr(alloc, right)?;
    Ok(SharedStmt::Update(place, left, op, right))
}

// A switch.
fn shared_switch(
    place: u32,
    e: Rc<SharedExpr>,
    labels: Rc<SharedLabels>,
    body: Rc<SharedRow>,
) -> SharedStmt
    ensures { stmt_of result ≡ tree.at_stmt place (tree.switch (expr_of e.value) (labels_of labels.value) (row_of body.value)) }
{
    SharedStmt::Switch(place, e, labels, body)
}

// The labels of a switch.
fn share_labels(alloc: Global, all: &[Label]) -> Result<Rc<SharedLabels>, NoMemory>
    ensures { IfOk result (λ shared. labels_of shared.value ≡ map label_view all.now) }
{
    let mut labels = Vec::new(alloc);
    for label in all {
        labels.push(*label)?;
    }
    Ok(Rc::new(alloc, SharedLabels { labels })?)
}

// Statements in a row.
#[cycle(share_stmts)]
fn share_row(alloc: Global, all: &[Stmt]) -> Result<Rc<SharedRow>, NoMemory>
    ensures { IfOk result (λ shared. row_of shared.value ≡ stmts_of (map stmt_view all.now)) }
{
    let mut stmts = Vec::new(alloc);
    'each: for s in all {
        let shared = share_stmt(alloc, s)?;
        stmts.push(shared)?;
    }
    boxed_row(alloc, stmts)
}

fn boxed_row(alloc: Global, stmts: Vec<Rc<SharedStmt>>) -> Result<Rc<SharedRow>, NoMemory>
    ensures { IfOk result (λ shared. row_of shared.value ≡ these stmts.items) }
{
    Ok(Rc::new(alloc, SharedRow { stmts })?)
}

// A function.
fn share_func(alloc: Global, f: Func) -> Result<SharedFunc, NoMemory>
    ensures { IfOk result (λ shared. func_of shared ≡ func_view f) }
{
    let Func {
        params,
        locals,
        result,
        body,
    } = f;
    let body = share_row(alloc, &body)?;
    Ok(SharedFunc {
        params,
        locals,
        result,
        body,
    })
}

fn share_funcs(alloc: Global, funcs: Vec<Func>) -> Result<Vec<SharedFunc>, NoMemory>
    ensures { IfOk result (λ shared. map func_of shared.items ≡ map func_view funcs.items) }
{
    let mut all = Vec::new(alloc);
    'each: for f in funcs {
        let shared = share_func(alloc, f)?;
        all.push(shared)?;
    }
    Ok(all)
}

/// The program with shared parts.
pub fn share(alloc: Global, typed: Typed) -> Result<SharedProgram, NoMemory>
    ensures { IfOk result (λ shared. program_of shared ≡ typed_view typed) }
{
    let Typed {
        structs,
        globals,
        literals,
        funcs,
        main,
    } = typed;
    let funcs = share_funcs(alloc, funcs)?;
    Ok(SharedProgram {
        structs,
        globals,
        literals,
        funcs,
        main,
    })
}
