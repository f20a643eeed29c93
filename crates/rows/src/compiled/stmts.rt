//! Statements as text.
use crate::compiled::exprs::write_expr;
use crate::compiled::types::{symbol, write_margin, write_type};
use c_tree::typed::{CType, Expr, Label, Stmt, StmtNode};
use std::alloc::AllocError;

/// Statements, one behind the other.
#[cycle(stmts)]
pub(crate) fn write_stmts(out: &mut String, depth: u32, all: &[Stmt]) -> Result<(), AllocError> {
    for s in all {
        write_stmt(out, depth, s)?;
    }
    Ok(())
}

// A statement on a line with its place, and each of its parts on further ones.
#[cycle(stmts)]
fn write_stmt(out: &mut String, depth: u32, s: &Stmt) -> Result<(), AllocError> {
    write_margin(out, depth)?;
    write!(out, "{} ", s.place)?;
    write_node(out, &s.node)?;
    out.push('\n')?;
    write_parts(out, depth.saturating_add(1), &s.node)
}

#[cycle(stmts)]
fn write_parts(out: &mut String, depth: u32, node: &StmtNode) -> Result<(), AllocError> {
    match node {
        StmtNode::Block(body) => write_stmts(out, depth, body),
        StmtNode::Declare(_, value) | StmtNode::Return(value) => write_value(out, depth, value),
        StmtNode::If(condition, one, other) => {
            write_expr(out, depth, condition)?;
            write_stmt(out, depth, one)?;
            match other {
                None => Ok(()),
                Some(other) => write_stmt(out, depth, other),
            }
        }
        StmtNode::While(condition, body) => {
            write_expr(out, depth, condition)?;
            write_stmt(out, depth, body)
        }
        StmtNode::For(first, condition, step, body) => {
            write_stmt(out, depth, first)?;
            write_condition(out, depth, condition)?;
            write_stmt(out, depth, step)?;
            write_stmt(out, depth, body)
        }
        StmtNode::DoWhile(body, condition) => {
            write_stmt(out, depth, body)?;
            write_expr(out, depth, condition)
        }
        StmtNode::Switch(chosen, labels, body) => {
            write_expr(out, depth, chosen)?;
            write_entries(out, depth, labels, body)
        }
        StmtNode::Assign(left, right) | StmtNode::Update(left, _, right) => {
            write_expr(out, depth, left)?;
            write_expr(out, depth, right)
        }
        StmtNode::Eval(e) => write_expr(out, depth, e),
        StmtNode::Break | StmtNode::Continue | StmtNode::Empty => Ok(()),
    }
}

// What stands between the braces of a switch: its statements, with the labels before each, and those behind the last.
#[cycle(stmts)]
fn write_entries(
    out: &mut String,
    depth: u32,
    labels: &[Label],
    body: &[Stmt],
) -> Result<(), AllocError> {
    for (at, s) in body.iter().enumerate() {
        write_labels(out, depth, labels, at)?;
        write_stmt(out, depth, s)?;
    }
    write_labels(out, depth, labels, body.len())
}

// The labels at the statement of this index, a line for each, with its value and type, or that it is the default.
fn write_labels(
    out: &mut String,
    depth: u32,
    labels: &[Label],
    at: usize,
) -> Result<(), AllocError> {
    for label in labels {
        if label.at as usize == at {
            write_margin(out, depth)?;
            write_label(out, label)?;
        }
    }
    Ok(())
}

fn write_label(out: &mut String, label: &Label) -> Result<(), AllocError> {
    match label.value {
        None => out.push_str("default\n"),
        Some(n) => {
            write!(out, "case {}: ", n.value)?;
            write_type(out, &CType::Int(n.ty))?;
            out.push('\n')
        }
    }
}

fn write_value(out: &mut String, depth: u32, value: &Option<Expr>) -> Result<(), AllocError> {
    match value {
        None => Ok(()),
        Some(e) => write_expr(out, depth, e),
    }
}

// The condition of a for, or that it has none.
fn write_condition(out: &mut String, depth: u32, value: &Option<Expr>) -> Result<(), AllocError> {
    match value {
        None => {
            write_margin(out, depth)?;
            out.push_str("no condition\n")
        }
        Some(e) => write_expr(out, depth, e),
    }
}

// What a statement does, without its parts.
fn write_node(out: &mut String, node: &StmtNode) -> Result<(), AllocError> {
    match node {
        StmtNode::Block(_) => out.push_str("block"),
        StmtNode::Declare(number, _) => write!(out, "declare {number}"),
        StmtNode::If(_, _, None) => out.push_str("if"),
        StmtNode::If(_, _, Some(_)) => out.push_str("if else"),
        StmtNode::While(_, _) => out.push_str("while"),
        StmtNode::For(_, _, _, _) => out.push_str("for"),
        StmtNode::DoWhile(_, _) => out.push_str("do"),
        StmtNode::Switch(_, _, _) => out.push_str("switch"),
        StmtNode::Break => out.push_str("break"),
        StmtNode::Continue => out.push_str("continue"),
        StmtNode::Return(_) => out.push_str("return"),
        StmtNode::Assign(_, _) => out.push_str("assign"),
        StmtNode::Update(_, op, _) => write!(out, "update {}", symbol(*op)),
        StmtNode::Eval(_) => out.push_str("evaluate"),
        StmtNode::Empty => out.push_str("empty"),
    }
}
