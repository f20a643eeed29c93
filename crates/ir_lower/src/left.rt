//! What ends where a loop is left, or a round of it.

ghost use Rattle.std.specs.Prelude.{◌≡◌, ◌++◌, IfOk, OnOk, map, []};
ghost use Rattle.c_tree.specs.TypedViews.{stmt_view, stmt_node_view};
ghost use Rattle.c_tree.specs.Typed.{stmts_of};
ghost use Rattle.lower_forms.specs.Forms.{declared_home, objects_by, objects_in, breaks_in, breaks_by, breaks_among, nexts_in, nexts_by, nexts_among, held, held_by, held_in, among, fresh, again, over_break, over_next};
ghost use Rattle.lower_expressions.specs.FrameViews.{frame_view};

use ak_words::NoMemory;
use c_tree::typed::{Stmt, StmtNode};
use lower_expressions::frame::Frame;
use std::alloc::Global;

// A break that leaves the loop around stands in a statement.
#[cycle(breaks)]
fn breaks_in(s: &Stmt) -> bool
    ensures { result ≡ breaks_in (stmt_view s.now) }
{
    breaks_by(&s.node)
}

#[cycle(breaks)]
fn breaks_by(node: &StmtNode) -> bool
    ensures { result ≡ breaks_by (stmt_node_view node.now) }
{
    match node {
        StmtNode::Block(body) => breaks_among(body),
        StmtNode::If(_, one, None) => breaks_in(one),
        StmtNode::If(_, one, Some(other)) => breaks_in(one) || breaks_in(other),
        StmtNode::Break => true,
        _ => false,
    }
}

#[cycle(breaks)]
fn breaks_among(all: &[Stmt]) -> bool
    ensures { result ≡ breaks_among (stmts_of (map stmt_view all.now)) }
{
    for s in all {
        if breaks_in(s) {
            return true;
        }
    }
    false
}

// A continue does.
#[cycle(nexts)]
fn nexts_in(s: &Stmt) -> bool
    ensures { result ≡ nexts_in (stmt_view s.now) }
{
    nexts_by(&s.node)
}

#[cycle(nexts)]
fn nexts_by(node: &StmtNode) -> bool
    ensures { result ≡ nexts_by (stmt_node_view node.now) }
{
    match node {
        StmtNode::Block(body) => nexts_among(body),
        StmtNode::If(_, one, None) => nexts_in(one),
        StmtNode::If(_, one, Some(other)) => nexts_in(one) || nexts_in(other),
        StmtNode::Switch(_, _, body) => nexts_among(body),
        StmtNode::Continue => true,
        _ => false,
    }
}

#[cycle(nexts)]
fn nexts_among(all: &[Stmt]) -> bool
    ensures { result ≡ nexts_among (stmts_of (map stmt_view all.now)) }
{
    for s in all {
        if nexts_in(s) {
            return true;
        }
    }
    false
}

// The stack object of the local that a statement declares, if it declares one that has one.
fn declared_home(f: &Frame, s: &Stmt) -> Option<u32>
    ensures { result ≡ declared_home (frame_view f.now) (stmt_view s.now) }
{
    match &s.node {
        StmtNode::Declare(number, _) => f.home(*number),
        _ => None,
    }
}

/// The stack objects of the locals that the statements of a block declare.
///
/// # Errors
///
/// Only want of memory.
pub fn objects_in(alloc: Global, f: &Frame, all: &[Stmt]) -> Result<Vec<u32>, NoMemory>
    ensures { IfOk result (λ v. v.items ≡ objects_in (frame_view f.now) (stmts_of (map stmt_view all.now))) }
{
    let mut objects = Vec::new(alloc);
    for s in all {
        if let Some(object) = declared_home(f, s) {
            objects.push(object)?;
        }
    }
    Ok(objects)
}

/// The stack object of the local that the first clause of a loop declares.
///
/// # Errors
///
/// Only want of memory.
pub fn object_by(alloc: Global, f: &Frame, s: &Stmt) -> Result<Vec<u32>, NoMemory>
    ensures { IfOk result (λ v. v.items ≡ objects_by (frame_view f.now) (stmt_view s.now) []) }
{
    let mut objects = Vec::new(alloc);
    if let Some(object) = declared_home(f, s) {
        objects.push(object)?;
    }
    Ok(objects)
}

// The stack objects of a statement's blocks, the inner ones first, but not of blocks in its loops.
#[cycle(holds)]
fn held(alloc: Global, s: &Stmt, f: &Frame, out: &mut Vec<u32>) -> Result<(), NoMemory>
    ensures { OnOk result (out.new.items ≡ out.old.items ++ held (frame_view f.now) (stmt_view s.now)) }
{
    held_by(alloc, &s.node, f, out)
}

#[cycle(holds)]
fn held_by(alloc: Global, node: &StmtNode, f: &Frame, out: &mut Vec<u32>) -> Result<(), NoMemory>
    ensures { OnOk result (out.new.items ≡ out.old.items ++ held_by (frame_view f.now) (stmt_node_view node.now)) }
{
    match node {
        StmtNode::Block(body) => held_block(alloc, body, f, out),
        StmtNode::If(_, one, None) => held(alloc, one, f, out),
        StmtNode::If(_, one, Some(other)) => held_both(alloc, one, other, f, out),
        StmtNode::For(first, _, _, _) => held_first(alloc, first, f, out),
        StmtNode::Switch(_, _, body) => held_in(alloc, body, f, out),
        _ => Ok(()),
    }
}

// Those of a block.
#[cycle(holds)]
fn held_block(alloc: Global, body: &[Stmt], f: &Frame, out: &mut Vec<u32>) -> Result<(), NoMemory>
    ensures { OnOk result (out.new.items ≡ out.old.items ++ (held_in (frame_view f.now) (stmts_of (map stmt_view body.now)) ++ objects_in (frame_view f.now) (stmts_of (map stmt_view body.now)))) }
{
    held_in(alloc, body, f, out)?;
    out.extend_from_slice(&objects_in(alloc, f, body)?)?;
    Ok(())
}

// Those of both branches of an if.
#[cycle(holds)]
fn held_both(
    alloc: Global,
    one: &Stmt,
    other: &Stmt,
    f: &Frame,
    out: &mut Vec<u32>,
) -> Result<(), NoMemory>
    ensures { OnOk result (out.new.items ≡ out.old.items ++ (held (frame_view f.now) (stmt_view one.now) ++ held (frame_view f.now) (stmt_view other.now))) }
{
    held(alloc, one, f, out)?;
    held(alloc, other, f, out)
}

// That of the first clause of a for.
fn held_first(alloc: Global, first: &Stmt, f: &Frame, out: &mut Vec<u32>) -> Result<(), NoMemory>
    ensures { OnOk result (out.new.items ≡ out.old.items ++ objects_by (frame_view f.now) (stmt_view first.now) []) }
{
    out.extend_from_slice(&object_by(alloc, f, first)?)?;
    Ok(())
}

// Those of a row.
#[cycle(holds)]
fn held_in(alloc: Global, all: &[Stmt], f: &Frame, out: &mut Vec<u32>) -> Result<(), NoMemory>
    ensures { OnOk result (out.new.items ≡ out.old.items ++ held_in (frame_view f.now) (stmts_of (map stmt_view all.now))) }
{
    for s in all {
        held(alloc, s, f, out)?;
    }
    Ok(())
}

// An object is among these.
fn among(objects: &[u32], object: u32) -> bool
    ensures { result ≡ among objects.now object }
{
    for k in objects {
        if *k == object {
            return true;
        }
    }
    false
}

// Those that aren't declared around the loop around, too.
fn fresh(alloc: Global, outer: &[u32], objects: &[u32]) -> Result<Vec<u32>, NoMemory>
    ensures { IfOk result (λ v. v.items ≡ fresh outer.now objects.now) }
{
    let mut some = Vec::new(alloc);
    for object in objects {
        if !among(outer, *object) {
            some.push(*object)?;
        }
    }
    Ok(some)
}

/// Those that are: none in a program of C, where each local is declared once.
///
/// # Errors
///
/// Only want of memory.
pub fn again(alloc: Global, outer: &[u32], objects: &[u32]) -> Result<Vec<u32>, NoMemory>
    ensures { IfOk result (λ v. v.items ≡ again outer.now objects.now) }
{
    let mut some = Vec::new(alloc);
    for object in objects {
        if among(outer, *object) {
            some.push(*object)?;
        }
    }
    Ok(some)
}

// The objects of the blocks in a loop's body that aren't declared around it, too.
fn fresh_in(alloc: Global, f: &Frame, body: &Stmt) -> Result<Vec<u32>, NoMemory>
    ensures { IfOk result (λ v. v.items ≡ fresh (frame_view f.now).outer (held (frame_view f.now) (stmt_view body.now))) }
{
    let mut all = Vec::new(alloc);
    held(alloc, body, f, &mut all)?;
    fresh(alloc, f.outer, &all)
}

/// What ends behind the loop of this body, where a break may have left it.
///
/// # Errors
///
/// Only want of memory.
pub fn over_break(alloc: Global, f: &Frame, body: &Stmt) -> Result<Vec<u32>, NoMemory>
    ensures { IfOk result (λ v. v.items ≡ over_break (frame_view f.now) (stmt_view body.now)) }
{
    if breaks_in(body) {
        fresh_in(alloc, f, body)
    } else {
        Ok(Vec::new(alloc))
    }
}

/// What ends before its step, where a continue may have.
///
/// # Errors
///
/// Only want of memory.
pub fn over_next(alloc: Global, f: &Frame, body: &Stmt) -> Result<Vec<u32>, NoMemory>
    ensures { IfOk result (λ v. v.items ≡ over_next (frame_view f.now) (stmt_view body.now)) }
{
    if nexts_in(body) {
        fresh_in(alloc, f, body)
    } else {
        Ok(Vec::new(alloc))
    }
}
