//! Expressions as text.
use crate::compiled::types::{symbol, write_bytes, write_margin, write_type};
use c_tree::typed::{Expr, ExprNode, Lib, Piece};
use std::alloc::AllocError;

/// An expression on a line, with its place and its type, and each of its parts on further ones.
#[cycle(exprs)]
pub(crate) fn write_expr(out: &mut String, depth: u32, e: &Expr) -> Result<(), AllocError> {
    write_margin(out, depth)?;
    write!(out, "{} ", e.place)?;
    write_node(out, &e.node)?;
    out.push_str(": ")?;
    write_type(out, &e.ty)?;
    out.push('\n')?;
    write_parts(out, depth.saturating_add(1), &e.node)
}

#[cycle(exprs)]
fn write_parts(out: &mut String, depth: u32, node: &ExprNode) -> Result<(), AllocError> {
    match node {
        ExprNode::Deref(e)
        | ExprNode::Member(e, _)
        | ExprNode::AddrOf(e)
        | ExprNode::Decay(e)
        | ExprNode::Convert(e)
        | ExprNode::Not(e)
        | ExprNode::PtrTest(e) => write_expr(out, depth, e),
        ExprNode::Binary(_, a, b)
        | ExprNode::AndAlso(a, b)
        | ExprNode::OrElse(a, b)
        | ExprNode::PtrAdd(a, b)
        | ExprNode::PtrSub(a, b)
        | ExprNode::PtrDiff(a, b)
        | ExprNode::PtrCompare(_, a, b) => {
            write_expr(out, depth, a)?;
            write_expr(out, depth, b)
        }
        ExprNode::Choose(condition, a, b) => {
            write_expr(out, depth, condition)?;
            write_expr(out, depth, a)?;
            write_expr(out, depth, b)
        }
        ExprNode::Call(_, args) | ExprNode::Lib(_, args) => write_exprs(out, depth, args),
        _ => Ok(()),
    }
}

#[cycle(exprs)]
fn write_exprs(out: &mut String, depth: u32, all: &[Expr]) -> Result<(), AllocError> {
    for e in all {
        write_expr(out, depth, e)?;
    }
    Ok(())
}

// What an expression does, without its parts.
fn write_node(out: &mut String, node: &ExprNode) -> Result<(), AllocError> {
    match node {
        ExprNode::Num(n) => write!(out, "number {}", n.value),
        ExprNode::Null => out.push_str("null"),
        ExprNode::Literal(number) => write!(out, "literal {number}"),
        ExprNode::Global(number) => write!(out, "global {number}"),
        ExprNode::Local(number) => write!(out, "local {number}"),
        ExprNode::Deref(_) => out.push_str("deref"),
        ExprNode::Member(_, number) => write!(out, "member {number}"),
        ExprNode::AddrOf(_) => out.push_str("address"),
        ExprNode::Decay(_) => out.push_str("decay"),
        ExprNode::Convert(_) => out.push_str("convert"),
        ExprNode::Not(_) => out.push_str("not"),
        ExprNode::Binary(op, _, _) => write!(out, "binary {}", symbol(*op)),
        ExprNode::AndAlso(_, _) => out.push_str("and"),
        ExprNode::OrElse(_, _) => out.push_str("or"),
        ExprNode::Choose(_, _, _) => out.push_str("choose"),
        ExprNode::PtrAdd(_, _) => out.push_str("pointer add"),
        ExprNode::PtrSub(_, _) => out.push_str("pointer subtract"),
        ExprNode::PtrDiff(_, _) => out.push_str("pointer difference"),
        ExprNode::PtrCompare(op, _, _) => write!(out, "pointer compare {}", symbol(*op)),
        ExprNode::PtrTest(_) => out.push_str("pointer test"),
        ExprNode::Call(function, _) => write!(out, "call {function}"),
        ExprNode::Lib(which, _) => write_lib(out, which),
    }
}

fn write_lib(out: &mut String, which: &Lib) -> Result<(), AllocError> {
    match which {
        Lib::Print(pieces) => write_pieces(out, pieces),
        Lib::Malloc => out.push_str("malloc"),
        Lib::Calloc => out.push_str("calloc"),
        Lib::Realloc => out.push_str("realloc"),
        Lib::Free => out.push_str("free"),
        Lib::Copy => out.push_str("copy"),
        Lib::Start(function) => write!(out, "start {function}"),
        Lib::Join => out.push_str("join"),
        Lib::MutexInit => out.push_str("mutex init"),
        Lib::MutexLock => out.push_str("mutex lock"),
        Lib::MutexUnlock => out.push_str("mutex unlock"),
        Lib::MutexDestroy => out.push_str("mutex destroy"),
        Lib::AtomicAdd => out.push_str("atomic add"),
        Lib::AtomicSub => out.push_str("atomic sub"),
        Lib::AtomicSwap => out.push_str("atomic swap"),
        Lib::AtomicCompare => out.push_str("atomic compare"),
        Lib::AtomicStore => out.push_str("atomic store"),
    }
}

fn write_pieces(out: &mut String, pieces: &[Piece]) -> Result<(), AllocError> {
    out.push_str("print")?;
    for (number, piece) in pieces.iter().enumerate() {
        out.push_str(if number == 0 { " " } else { ", " })?;
        write_piece(out, piece)?;
    }
    Ok(())
}

fn write_piece(out: &mut String, piece: &Piece) -> Result<(), AllocError> {
    match piece {
        Piece::Bytes(all) => {
            out.push_str("bytes")?;
            write_bytes(out, all)
        }
        Piece::Signed(bits) => write!(out, "signed {bits}"),
        Piece::Unsigned(bits) => write!(out, "unsigned {bits}"),
        Piece::Hex(bits) => write!(out, "hexadecimal {bits}"),
        Piece::Char => out.push_str("character"),
        Piece::Text => out.push_str("text"),
    }
}
