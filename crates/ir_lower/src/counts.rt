//! How large an expression is.

ghost use Rattle.std.specs.Prelude.{◌≡◌, ◌+◌, suc, max, IfOk, map};
ghost use Rattle.c_tree.specs.TypedViews.{expr_view, expr_node_view, optional_expr_view, stmt_view, stmt_node_view};
ghost use Rattle.lower_forms.specs.Counts.{count, count_parts, count_all, count_if, greatest, greatest_in, greatest_row, switches, switches_by, switches_in};
ghost use Rattle.c_tree.specs.Typed.{exprs_of, stmts_of};

use ak_words::NoMemory;
use c_tree::typed::{Expr, ExprNode, Stmt, StmtNode};
use lower_expressions::nodes::after;

/// The sum of two counts.
pub fn sum(a: u32, b: u32) -> Result<u32, NoMemory>
    ensures { IfOk result (λ n. n ≡ a + b) }
{
    match a.checked_add(b) {
        Some(n) => Ok(n),
        None => Err(NoMemory),
    }
}

// The nodes of an expression.
#[cycle(counts)]
fn count(e: &Expr) -> Result<u32, NoMemory>
    ensures { IfOk result (λ n. n ≡ count (expr_view e.now)) }
{
    after(count_parts(&e.node)?)
}

#[cycle(counts)]
fn count_parts(node: &ExprNode) -> Result<u32, NoMemory>
    ensures { IfOk result (λ n. n ≡ count_parts (expr_node_view node.now)) }
{
    match node {
        ExprNode::Num(_)
        | ExprNode::Null
        | ExprNode::Literal(_)
        | ExprNode::Global(_)
        | ExprNode::Local(_) => Ok(0),
        ExprNode::Deref(e)
        | ExprNode::Member(e, _)
        | ExprNode::AddrOf(e)
        | ExprNode::Decay(e)
        | ExprNode::Convert(e)
        | ExprNode::Not(e)
        | ExprNode::PtrTest(e) => count(e),
        ExprNode::Binary(_, a, b)
        | ExprNode::AndAlso(a, b)
        | ExprNode::OrElse(a, b)
        | ExprNode::PtrAdd(a, b)
        | ExprNode::PtrSub(a, b)
        | ExprNode::PtrDiff(a, b)
        | ExprNode::PtrCompare(_, a, b) => count_two(a, b),
        ExprNode::Choose(c, a, b) => count_three(c, a, b),
        ExprNode::Call(_, args) => count_all(args),
        ExprNode::Lib(_, args) => count_all(args),
    }
}

#[cycle(counts)]
fn count_two(a: &Expr, b: &Expr) -> Result<u32, NoMemory>
    ensures { IfOk result (λ n. n ≡ count (expr_view a.now) + count (expr_view b.now)) }
{
    sum(count(a)?, count(b)?)
}

#[cycle(counts)]
fn count_three(a: &Expr, b: &Expr, c: &Expr) -> Result<u32, NoMemory>
    ensures { IfOk result (λ n. n ≡ count (expr_view a.now) + count (expr_view b.now) + count (expr_view c.now)) }
{
    sum(count_two(a, b)?, count(c)?)
}

#[cycle(counts)]
fn count_all(args: &[Expr]) -> Result<u32, NoMemory>
    ensures { IfOk result (λ n. n ≡ count_all (exprs_of (map expr_view args.now))) }
{
    let mut n = 0;
    for e in args {
        n = sum(n, count(e)?)?;
    }
    Ok(n)
}

fn count_if(e: &Option<Expr>) -> Result<u32, NoMemory>
    ensures { IfOk result (λ n. n ≡ count_if (optional_expr_view e.now)) }
{
    match e {
        None => Ok(0),
        Some(e) => count(e),
    }
}

// The nodes of an assignment or an update.
fn count_both(a: &Expr, b: &Expr) -> Result<u32, NoMemory>
    ensures { IfOk result (λ n. n ≡ suc (count (expr_view a.now) + count (expr_view b.now))) }
{
    after(count_two(a, b)?)
}

// The nodes of the greatest full expression of a statement.
#[cycle(greatest)]
fn greatest(s: &Stmt) -> Result<u32, NoMemory>
    ensures { IfOk result (λ n. n ≡ greatest (stmt_view s.now)) }
{
    greatest_in(&s.node)
}

#[cycle(greatest)]
fn greatest_in(node: &StmtNode) -> Result<u32, NoMemory>
    ensures { IfOk result (λ n. n ≡ greatest_in (stmt_node_view node.now)) }
{
    match node {
        StmtNode::Block(body) => greatest_row(body),
        StmtNode::Declare(_, init) => count_if(init),
        StmtNode::If(e, one, None) | StmtNode::While(e, one) => greatest_under(one, e),
        StmtNode::If(e, one, Some(other)) => greatest_of_if(one, other, e),
        StmtNode::DoWhile(body, e) => greatest_under(body, e),
        StmtNode::Switch(e, _, body) => greatest_of_switch(body, e),
        StmtNode::For(first, e, step, body) => greatest_of_for(first, step, body, e),
        StmtNode::Break | StmtNode::Continue | StmtNode::Empty => Ok(0),
        StmtNode::Return(value) => count_if(value),
        StmtNode::Assign(a, b) => count_both(a, b),
        StmtNode::Update(a, _, b) => count_both(a, b),
        StmtNode::Eval(e) => count(e),
    }
}

// A statement with a condition.
#[cycle(greatest)]
fn greatest_under(one: &Stmt, e: &Expr) -> Result<u32, NoMemory>
    ensures { IfOk result (λ n. n ≡ max (count (expr_view e.now)) (greatest (stmt_view one.now))) }
{
    Ok(count(e)?.max(greatest(one)?))
}

#[cycle(greatest)]
fn greatest_of_switch(body: &[Stmt], e: &Expr) -> Result<u32, NoMemory>
    ensures { IfOk result (λ n. n ≡ max (count (expr_view e.now)) (greatest_row (stmts_of (map stmt_view body.now)))) }
{
    Ok(count(e)?.max(greatest_row(body)?))
}

#[cycle(greatest)]
fn greatest_of_if(one: &Stmt, other: &Stmt, e: &Expr) -> Result<u32, NoMemory>
    ensures { IfOk result (λ n. n ≡ max (count (expr_view e.now)) (max (greatest (stmt_view one.now)) (greatest (stmt_view other.now)))) }
{
    Ok(count(e)?.max(greater(one, other)?))
}

#[cycle(greatest)]
fn greatest_of_for(
    first: &Stmt,
    step: &Stmt,
    body: &Stmt,
    e: &Option<Expr>,
) -> Result<u32, NoMemory>
    ensures { IfOk result (λ n. n ≡ max (max (greatest (stmt_view first.now)) (count_if (optional_expr_view e.now))) (max (greatest (stmt_view step.now)) (greatest (stmt_view body.now)))) }
{
    let header = greatest(first)?.max(count_if(e)?);
    Ok(header.max(greater(step, body)?))
}

#[cycle(greatest)]
fn greater(a: &Stmt, b: &Stmt) -> Result<u32, NoMemory>
    ensures { IfOk result (λ n. n ≡ max (greatest (stmt_view a.now)) (greatest (stmt_view b.now))) }
{
    Ok(greatest(a)?.max(greatest(b)?))
}

/// The nodes of the greatest full expression in these statements.
///
/// # Errors
///
/// Only want of memory.
#[cycle(greatest)]
pub fn greatest_row(all: &[Stmt]) -> Result<u32, NoMemory>
    ensures { IfOk result (λ n. n ≡ greatest_row (stmts_of (map stmt_view all.now))) }
{
    let mut n = 0;
    for s in all {
        n = n.max(greatest(s)?);
    }
    Ok(n)
}

// The switches in a statement.
#[cycle(switches)]
fn switches(s: &Stmt) -> Result<u32, NoMemory>
    ensures { IfOk result (λ n. n ≡ switches (stmt_view s.now)) }
{
    switches_by(&s.node)
}

#[cycle(switches)]
fn switches_by(node: &StmtNode) -> Result<u32, NoMemory>
    ensures { IfOk result (λ n. n ≡ switches_by (stmt_node_view node.now)) }
{
    match node {
        StmtNode::Block(body) => switches_in(body),
        StmtNode::If(_, one, None) | StmtNode::While(_, one) => switches(one),
        StmtNode::If(_, one, Some(other)) => switches_of_both(one, other),
        StmtNode::DoWhile(body, _) => switches(body),
        StmtNode::For(first, _, step, body) => switches_of_for(first, step, body),
        StmtNode::Switch(_, _, body) => one_more(body),
        StmtNode::Declare(_, _)
        | StmtNode::Break
        | StmtNode::Continue
        | StmtNode::Return(_)
        | StmtNode::Assign(_, _)
        | StmtNode::Update(_, _, _)
        | StmtNode::Eval(_)
        | StmtNode::Empty => Ok(0),
    }
}

#[cycle(switches)]
fn switches_of_both(a: &Stmt, b: &Stmt) -> Result<u32, NoMemory>
    ensures { IfOk result (λ n. n ≡ switches (stmt_view a.now) + switches (stmt_view b.now)) }
{
    sum(switches(a)?, switches(b)?)
}

#[cycle(switches)]
fn switches_of_for(first: &Stmt, step: &Stmt, body: &Stmt) -> Result<u32, NoMemory>
    ensures { IfOk result (λ n. n ≡ switches (stmt_view first.now) + (switches (stmt_view step.now) + switches (stmt_view body.now))) }
{
    sum(switches(first)?, switches_of_both(step, body)?)
}

// A switch, and those in it.
#[cycle(switches)]
fn one_more(body: &[Stmt]) -> Result<u32, NoMemory>
    ensures { IfOk result (λ n. n ≡ suc (switches_in (stmts_of (map stmt_view body.now)))) }
{
    after(switches_in(body)?)
}

/// The switches in these statements.
///
/// # Errors
///
/// Only want of memory.
#[cycle(switches)]
pub fn switches_in(all: &[Stmt]) -> Result<u32, NoMemory>
    ensures { IfOk result (λ n. n ≡ switches_in (stmts_of (map stmt_view all.now))) }
{
    let mut n = 0;
    for s in all {
        n = sum(n, switches(s)?)?;
    }
    Ok(n)
}
