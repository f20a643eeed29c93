//! Statements.

ghost use Rattle.std.specs.Prelude.{◌≡◌, ◌++◌, ℕ, List, [], IfOk, OnOk, map, Some, suc};
ghost use Rattle.c_tree.specs.TypedViews.{expr_view, optional_expr_view, stmt_view};
ghost use Rattle.struct_ir.specs.Nodes.{Nodes, no_nodes, more_nodes, loop};
ghost use Rattle.struct_ir.specs.Views.{place_view, nodes_view, followed};
ghost use Rattle.lower_forms.specs.Forms.{opened, again, over_break, over_next, loop_nodes, branches, expr_nodes, ends, objects_by, objects_in, store_nodes, copy_nodes, object_assign, assign_nodes, update_register, update_at, update_by, update_object, update_nodes, test_nodes, declare_nodes, return_nodes, stmt_nodes, row_nodes, looped, switched, sets_int, choose_nodes, switch_nodes, stmt_place, guarded, break_nodes};
ghost use Rattle.c_tree.specs.TypedViews.{label_view, layout_view};
ghost use Rattle.c_meaning.specs.Switches.{default_from};
ghost use Rattle.lower_expressions.specs.FrameViews.{frame_view};
ghost use Rattle.c_tree.specs.Typed.{stmts_of};

use crate::labels::{chooses, default_number, marks, sets_number};
use crate::left::{again, object_by, objects_in, over_break, over_next};
use ak_words::{NoMemory, Op};
use c_meaning::types::{is_atomic, is_minus, is_struct};
use c_tree::typed::{Expr, Label, Stmt, StmtNode};
use lower_expressions::expressions::{dropped, expr, place};
use lower_expressions::forms::{
    change_nodes, computes, initialises, loads_at, stores, struct_nodes,
};
use lower_expressions::frame::Frame;
use lower_expressions::nodes::{after, begins, branches, ends, put, rounds, sets, sets_int};
use lower_expressions::types::number_type;
use std::alloc::Global;
use struct_ir::{Calc, Node, NodeKind, Place};

// A number or a pointer is stored.
fn store(
    alloc: Global,
    f: &Frame,
    left: &Expr,
    right: &Expr,
    t: u32,
    out: &mut Vec<Node>,
) -> Result<(), NoMemory>
    ensures { OnOk result ((rest : Nodes) → followed out.new.items rest ≡ followed out.old.items (store_nodes (frame_view f.now) (expr_view left.now) (expr_view right.now) t rest)) }
{
    let r = place(alloc, left, f, t, out)?;
    let u = r.behind(t)?;
    expr(alloc, right, f, u, out)?;
    stores(alloc, out, left.place, &left.ty, r.place(t)?, u)
}

// A struct is assigned.
fn copy(
    alloc: Global,
    f: &Frame,
    left: &Expr,
    right: &Expr,
    t: u32,
    out: &mut Vec<Node>,
) -> Result<(), NoMemory>
    ensures { OnOk result ((rest : Nodes) → followed out.new.items rest ≡ followed out.old.items (copy_nodes (frame_view f.now) (expr_view left.now) (expr_view right.now) t rest)) }
{
    let to = place(alloc, left, f, t, out)?;
    let u = to.behind(t)?;
    let from = place(alloc, right, f, u, out)?;
    let w = from.behind(u)?;
    let target = to.place(t)?;
    let source = from.place(u)?;
    struct_nodes(
        alloc, out, left.place, f.structs, &left.ty, target, source, w,
    )
}

fn assign_object(
    alloc: Global,
    f: &Frame,
    left: &Expr,
    right: &Expr,
    t: u32,
    out: &mut Vec<Node>,
) -> Result<(), NoMemory>
    ensures { OnOk result ((rest : Nodes) → followed out.new.items rest ≡ followed out.old.items (object_assign (frame_view f.now) (expr_view left.now) (expr_view right.now) t rest)) }
{
    if is_struct(&left.ty) {
        copy(alloc, f, left, right, t, out)
    } else {
        store(alloc, f, left, right, t, out)
    }
}

// An assignment, by the register that it sets, if it sets one.
fn assign(
    alloc: Global,
    f: &Frame,
    at: u32,
    own: Option<u32>,
    left: &Expr,
    right: &Expr,
    out: &mut Vec<Node>,
) -> Result<(), NoMemory>
    ensures { OnOk result ((rest : Nodes) → followed out.new.items rest ≡ followed out.old.items (assign_nodes (frame_view f.now) at own (expr_view left.now) (expr_view right.now) f.now.first_temp rest)) }
{
    let t = f.first_temp;
    match own {
        None => assign_object(alloc, f, left, right, t, out),
        Some(number) => {
            expr(alloc, right, f, t, out)?;
            sets(out, at, number, Calc::Copy(t))
        }
    }
}

// A compound assignment to a local in a register.
fn update_own(
    alloc: Global,
    f: &Frame,
    at: u32,
    number: u32,
    op: Op,
    left: &Expr,
    right: &Expr,
    t: u32,
    out: &mut Vec<Node>,
) -> Result<(), NoMemory>
    ensures { OnOk result ((rest : Nodes) → followed out.new.items rest ≡ followed out.old.items (update_register (frame_view f.now) at number op (expr_view left.now) (expr_view right.now) t rest)) }
{
    expr(alloc, right, f, t, out)?;
    let x = after(t)?;
    sets(out, left.place, x, Calc::Copy(number))?;
    computes(out, f.structs, at, op, &left.ty, &right.ty, x, t, number)
}

// A compound assignment to what is at a place, where `u` holds the right operand.
fn update_at(
    alloc: Global,
    f: &Frame,
    at: u32,
    u: u32,
    op: Op,
    to: Place,
    left: &Expr,
    right: &Expr,
    out: &mut Vec<Node>,
) -> Result<(), NoMemory>
    ensures { OnOk result ((rest : Nodes) → followed out.new.items rest ≡ followed out.old.items (update_at (frame_view f.now) at u op (place_view to) (expr_view left.now) (expr_view right.now) rest)) }
{
    let x = after(u)?;
    loads_at(alloc, out, left.place, &left.ty, to, x)?;
    computes(out, f.structs, at, op, &left.ty, &right.ty, x, u, u)?;
    stores(alloc, out, left.place, &left.ty, to, u)
}

// A compound assignment to what is at a place, where `u` holds the right operand: an atomic number is changed, in one
// action.
fn update_by(
    alloc: Global,
    f: &Frame,
    at: u32,
    u: u32,
    op: Op,
    to: Place,
    left: &Expr,
    right: &Expr,
    out: &mut Vec<Node>,
) -> Result<(), NoMemory>
    ensures { OnOk result ((rest : Nodes) → followed out.new.items rest ≡ followed out.old.items (update_by (frame_view f.now) at u op (place_view to) (expr_view left.now) (expr_view right.now) rest)) }
{
    if is_atomic(&left.ty) {
        let ty = number_type(&left.ty);
        change_nodes(alloc, out, left.place, is_minus(op), ty, to, u, None)
    } else {
        update_at(alloc, f, at, u, op, to, left, right, out)
    }
}

// A compound assignment to an object.
fn update_object(
    alloc: Global,
    f: &Frame,
    at: u32,
    op: Op,
    left: &Expr,
    right: &Expr,
    t: u32,
    out: &mut Vec<Node>,
) -> Result<(), NoMemory>
    ensures { OnOk result ((rest : Nodes) → followed out.new.items rest ≡ followed out.old.items (update_object (frame_view f.now) at op (expr_view left.now) (expr_view right.now) t rest)) }
{
    let r = place(alloc, left, f, t, out)?;
    let u = r.behind(t)?;
    expr(alloc, right, f, u, out)?;
    update_by(alloc, f, at, u, op, r.place(t)?, left, right, out)
}

// A compound assignment, by the register that it sets, if it sets one.
fn update(
    alloc: Global,
    f: &Frame,
    at: u32,
    op: Op,
    own: Option<u32>,
    left: &Expr,
    right: &Expr,
    out: &mut Vec<Node>,
) -> Result<(), NoMemory>
    ensures { OnOk result ((rest : Nodes) → followed out.new.items rest ≡ followed out.old.items (update_nodes (frame_view f.now) at op own (expr_view left.now) (expr_view right.now) f.now.first_temp rest)) }
{
    let t = f.first_temp;
    match own {
        None => update_object(alloc, f, at, op, left, right, t, out),
        Some(number) => update_own(alloc, f, at, number, op, left, right, t, out),
    }
}

// The condition of a loop, if it has one.
#[tactic(auto, using(struct_ir::proofs::Views::followed_none))]
fn test(alloc: Global, f: &Frame, e: &Option<Expr>, out: &mut Vec<Node>) -> Result<(), NoMemory>
    ensures { OnOk result ((rest : Nodes) → followed out.new.items rest ≡ followed out.old.items (test_nodes (frame_view f.now) (optional_expr_view e.now) rest)) }
{
    match e {
        None => Ok(()),
        Some(e) => tests(alloc, f, e, out),
    }
}

// The condition of a loop.
#[tactic(auto, using(struct_ir::proofs::Views::followed_none))]
fn tests(alloc: Global, f: &Frame, e: &Expr, out: &mut Vec<Node>) -> Result<(), NoMemory>
    ensures { OnOk result ((rest : Nodes) → followed out.new.items rest ≡ followed out.old.items (test_nodes (frame_view f.now) (Some (expr_view e.now)) rest)) }
{
    expr(alloc, e, f, f.first_temp, out)?;
    let mut no = Vec::new(alloc);
    put(&mut no, e.place, NodeKind::Break)?;
    branches(out, e.place, f.first_temp, Vec::new(alloc), no)
}

// A declaration, without a first value or with one.
fn declares(
    alloc: Global,
    f: &Frame,
    at: u32,
    number: u32,
    init: &Option<Expr>,
    out: &mut Vec<Node>,
) -> Result<(), NoMemory>
    ensures { OnOk result ((rest : Nodes) → followed out.new.items rest ≡ followed out.old.items (declare_nodes (frame_view f.now) at number (optional_expr_view init.now) rest)) }
{
    let home = f.home(number);
    begins(out, at, number, home)?;
    match init {
        None => Ok(()),
        Some(e) => {
            let t = f.first_temp;
            expr(alloc, e, f, t, out)?;
            initialises(alloc, out, at, home, number, t, &e.ty)
        }
    }
}

// A return, without a value or with one.
fn returns(
    alloc: Global,
    f: &Frame,
    at: u32,
    value: &Option<Expr>,
    out: &mut Vec<Node>,
) -> Result<(), NoMemory>
    ensures { OnOk result ((rest : Nodes) → followed out.new.items rest ≡ followed out.old.items (return_nodes (frame_view f.now) at (optional_expr_view value.now) rest)) }
{
    match value {
        None => put(out, at, NodeKind::Ret(None)),
        Some(e) => {
            expr(alloc, e, f, f.first_temp, out)?;
            put(out, at, NodeKind::Ret(Some(f.first_temp)))
        }
    }
}

/// Some objects, then others.
///
/// # Errors
///
/// Only want of memory.
pub fn joined(alloc: Global, own: &[u32], left: &[u32]) -> Result<Vec<u32>, NoMemory>
    ensures { IfOk result (λ v. v.items ≡ own.now ++ left.now) }
{
    let mut all = own.to_vec(alloc)?;
    all.extend_from_slice(left)?;
    Ok(all)
}

// What stays the same in a loop.
fn in_loop<'a, 'b>(f: &Frame<'a, 'b, '_>) -> Frame<'a, 'b, 'b>
    ensures { frame_view result ≡ looped (frame_view f.now) }
{
    Frame {
        structs: f.structs,
        homes: f.homes,
        first_temp: f.first_temp,
        flag: None,
        around: f.around,
        outer: f.around,
    }
}

/// What stays the same in a block, where these objects are those of the blocks around.
pub fn opened<'a, 'b, 'c>(f: &Frame<'a, '_, 'c>, around: &'b [u32]) -> Frame<'a, 'b, 'c>
    ensures { frame_view result ≡ record { structs = map layout_view f.now.structs.now; homes = f.now.homes.now; first = f.now.first_temp; flag = f.now.flag; around = around.now; outer = f.now.outer.now } }
{
    Frame {
        structs: f.structs,
        homes: f.homes,
        first_temp: f.first_temp,
        flag: f.flag,
        around,
        outer: f.outer,
    }
}

// Out of a loop and back: its rounds, and what ends before its step and behind it.
fn turns(
    alloc: Global,
    body: &Stmt,
    at: u32,
    f: &Frame,
    round: Vec<Node>,
    step: Vec<Node>,
    out: &mut Vec<Node>,
) -> Result<(), NoMemory>
    ensures { OnOk result ((rest : Nodes) → followed out.new.items rest ≡ followed out.old.items (more_nodes (loop at (nodes_view round.items) (nodes_view step.items)) (ends at (over_break (frame_view f.now) (stmt_view body.now)) rest))) }
{
    rounds(out, at, round, step)?;
    ends(out, at, &over_break(alloc, f, body)?)
}

// The beginning of a loop's step.
fn latch(
    alloc: Global,
    body: &Stmt,
    at: u32,
    f: &Frame,
    out: &mut Vec<Node>,
) -> Result<(), NoMemory>
    ensures { OnOk result ((rest : Nodes) → followed out.new.items rest ≡ followed out.old.items (ends at (over_next (frame_view f.now) (stmt_view body.now)) rest)) }
{
    ends(out, at, &over_next(alloc, f, body)?)
}

// The step of a while, which does nothing else.
#[tactic(auto, using(struct_ir::proofs::Views::followed_none))]
fn while_step(alloc: Global, body: &Stmt, at: u32, f: &Frame) -> Result<Vec<Node>, NoMemory>
    ensures { IfOk result (λ row. nodes_view row.items ≡ ends at (over_next (frame_view f.now) (stmt_view body.now)) no_nodes) }
{
    let mut row = Vec::new(alloc);
    latch(alloc, body, at, f, &mut row)?;
    Ok(row)
}

// The step of a do: its condition.
#[tactic(auto, using(struct_ir::proofs::Views::followed_none))]
fn do_step(alloc: Global, body: &Stmt, at: u32, e: &Expr, f: &Frame) -> Result<Vec<Node>, NoMemory>
    ensures { IfOk result (λ row. nodes_view row.items ≡ ends at (over_next (frame_view f.now) (stmt_view body.now)) (test_nodes (frame_view f.now) (Some (expr_view e.now)) no_nodes)) }
{
    let mut row = Vec::with_capacity(alloc, 1)?;
    latch(alloc, body, at, f, &mut row)?;
    tests(alloc, f, e, &mut row)?;
    Ok(row)
}

// A break: it clears the flag of the switch around, or leaves the loop around.
fn breaks(f: &Frame, at: u32, left: &[u32], out: &mut Vec<Node>) -> Result<(), NoMemory>
    ensures { OnOk result ((rest : Nodes) → followed out.new.items rest ≡ followed out.old.items (break_nodes f.now.flag at left.now rest)) }
{
    match f.flag {
        None => {
            ends(out, at, left)?;
            put(out, at, NodeKind::Break)
        }
        Some(flag) => sets_int(out, at, flag, 0),
    }
}

// A statement is executed; `left` are the stack objects that a continue, or a break that leaves a
// loop, ends itself: those that are declared around the loop, too. All others that they leave end
// before the loop's step and behind it.
#[cycle(stmts)]
fn stmt(
    alloc: Global,
    s: &Stmt,
    f: &Frame,
    left: &[u32],
    out: &mut Vec<Node>,
) -> Result<(), NoMemory>
    ensures { OnOk result ((rest : Nodes) → followed out.new.items rest ≡ followed out.old.items (stmt_nodes (frame_view f.now) (stmt_view s.now) left.now rest)) }
{
    match &s.node {
        StmtNode::Block(body) => block(alloc, body, s.place, f, left, out),
        StmtNode::Declare(n, init) => declares(alloc, f, s.place, *n, init, out),
        StmtNode::If(e, one, None) => if_alone(alloc, one, e, f, left, out),
        StmtNode::If(e, one, Some(other)) => if_else(alloc, one, other, e, f, left, out),
        StmtNode::While(e, body) => while_loop(alloc, body, s.place, e, &in_loop(f), out),
        StmtNode::DoWhile(body, e) => do_loop(alloc, body, s.place, e, &in_loop(f), out),
        StmtNode::Switch(e, labels, body) => {
            switch(alloc, body, s.place, e, labels, f, left, out)
        }
        StmtNode::For(first, e, step, body) => {
            for_loop(alloc, first, body, step, s.place, e, f, left, out)
        }
        StmtNode::Break => breaks(f, s.place, left, out),
        StmtNode::Continue => {
            ends(out, s.place, left)?;
            put(out, s.place, NodeKind::Next)
        }
        StmtNode::Return(value) => returns(alloc, f, s.place, value, out),
        StmtNode::Assign(a, b) => {
            let own = f.own_register(&a.node);
            assign(alloc, f, s.place, own, a, b, out)
        }
        StmtNode::Update(a, op, b) => {
            let own = f.own_register(&a.node);
            update(alloc, f, s.place, *op, own, a, b, out)
        }
        StmtNode::Eval(e) => dropped(alloc, e, f, f.first_temp, out),
        StmtNode::Empty => Ok(()),
    }
}

// A block: its objects end behind it.
#[cycle(stmts)]
fn block(
    alloc: Global,
    body: &[Stmt],
    at: u32,
    f: &Frame,
    left: &[u32],
    out: &mut Vec<Node>,
) -> Result<(), NoMemory>
    ensures { OnOk result ((rest : Nodes) → followed out.new.items rest ≡ followed out.old.items (row_nodes (opened (frame_view f.now) (objects_in (frame_view f.now) (stmts_of (map stmt_view body.now)))) (stmts_of (map stmt_view body.now)) (again (frame_view f.now).outer (objects_in (frame_view f.now) (stmts_of (map stmt_view body.now))) ++ left.now) (ends at (objects_in (frame_view f.now) (stmts_of (map stmt_view body.now))) rest))) }
{
    let own = objects_in(alloc, f, body)?;
    if own.is_empty() {
        return row(alloc, body, f, left, out);
    }
    block_with(alloc, body, at, f, &own, left, out)
}

// One that declares locals with these objects.
#[cycle(stmts)]
fn block_with(
    alloc: Global,
    body: &[Stmt],
    at: u32,
    f: &Frame,
    own: &[u32],
    left: &[u32],
    out: &mut Vec<Node>,
) -> Result<(), NoMemory>
    ensures { OnOk result ((rest : Nodes) → followed out.new.items rest ≡ followed out.old.items (row_nodes (opened (frame_view f.now) own.now) (stmts_of (map stmt_view body.now)) (again (frame_view f.now).outer own.now ++ left.now) (ends at own.now rest))) }
{
    let around = joined(alloc, own, f.around)?;
    let twice = again(alloc, f.outer, own)?;
    let ended = joined(alloc, &twice, left)?;
    row(alloc, body, &opened(f, &around), &ended, out)?;
    ends(out, at, own)
}

// An if without an else.
#[cycle(stmts)]
fn if_alone(
    alloc: Global,
    one: &Stmt,
    e: &Expr,
    f: &Frame,
    left: &[u32],
    out: &mut Vec<Node>,
) -> Result<(), NoMemory>
    ensures { OnOk result ((rest : Nodes) → followed out.new.items rest ≡ followed out.old.items (expr_nodes (frame_view f.now) (expr_view e.now) f.now.first_temp (branches e.now.place f.now.first_temp (stmt_nodes (frame_view f.now) (stmt_view one.now) left.now no_nodes) no_nodes rest))) }
{
    expr(alloc, e, f, f.first_temp, out)?;
    let yes = row_of(alloc, one, f, left)?;
    branches(out, e.place, f.first_temp, yes, Vec::new(alloc))
}

// An if with an else.
#[cycle(stmts)]
fn if_else(
    alloc: Global,
    one: &Stmt,
    other: &Stmt,
    e: &Expr,
    f: &Frame,
    left: &[u32],
    out: &mut Vec<Node>,
) -> Result<(), NoMemory>
    ensures { OnOk result ((rest : Nodes) → followed out.new.items rest ≡ followed out.old.items (expr_nodes (frame_view f.now) (expr_view e.now) f.now.first_temp (branches e.now.place f.now.first_temp (stmt_nodes (frame_view f.now) (stmt_view one.now) left.now no_nodes) (stmt_nodes (frame_view f.now) (stmt_view other.now) left.now no_nodes) rest))) }
{
    expr(alloc, e, f, f.first_temp, out)?;
    let yes = row_of(alloc, one, f, left)?;
    let no = row_of(alloc, other, f, left)?;
    branches(out, e.place, f.first_temp, yes, no)
}

#[cycle(stmts)]
fn while_loop(
    alloc: Global,
    body: &Stmt,
    at: u32,
    e: &Expr,
    f: &Frame,
    out: &mut Vec<Node>,
) -> Result<(), NoMemory>
    ensures { OnOk result ((rest : Nodes) → followed out.new.items rest ≡ followed out.old.items (loop_nodes (frame_view f.now) at (stmt_view body.now) (test_nodes (frame_view f.now) (Some (expr_view e.now)) (stmt_nodes (frame_view f.now) (stmt_view body.now) [] no_nodes)) no_nodes rest)) }
{
    let round = while_round(alloc, body, f, e)?;
    let step = while_step(alloc, body, at, f)?;
    turns(alloc, body, at, f, round, step, out)
}

// A for: its first clause, its rounds, and the end of the object that the first clause declares.
#[cycle(stmts)]
fn for_loop(
    alloc: Global,
    first: &Stmt,
    body: &Stmt,
    step: &Stmt,
    at: u32,
    e: &Option<Expr>,
    f: &Frame,
    left: &[u32],
    out: &mut Vec<Node>,
) -> Result<(), NoMemory>
    ensures { OnOk result ((rest : Nodes) → followed out.new.items rest ≡ followed out.old.items (stmt_nodes (opened (frame_view f.now) (objects_by (frame_view f.now) (stmt_view first.now) [])) (stmt_view first.now) left.now (loop_nodes (looped (opened (frame_view f.now) (objects_by (frame_view f.now) (stmt_view first.now) []))) at (stmt_view body.now) (test_nodes (looped (opened (frame_view f.now) (objects_by (frame_view f.now) (stmt_view first.now) []))) (optional_expr_view e.now) (stmt_nodes (looped (opened (frame_view f.now) (objects_by (frame_view f.now) (stmt_view first.now) []))) (stmt_view body.now) [] no_nodes)) (stmt_nodes (looped (opened (frame_view f.now) (objects_by (frame_view f.now) (stmt_view first.now) []))) (stmt_view step.now) [] no_nodes) (ends at (objects_by (frame_view f.now) (stmt_view first.now) []) rest)))) }
{
    let own = object_by(alloc, f, first)?;
    if own.is_empty() {
        return for_in(alloc, first, body, step, at, e, f, left, out);
    }
    let around = joined(alloc, &own, f.around)?;
    for_in(
        alloc,
        first,
        body,
        step,
        at,
        e,
        &opened(f, &around),
        left,
        out,
    )?;
    ends(out, at, &own)
}

// The same where that object has begun.
#[cycle(stmts)]
fn for_in(
    alloc: Global,
    first: &Stmt,
    body: &Stmt,
    step: &Stmt,
    at: u32,
    e: &Option<Expr>,
    f: &Frame,
    left: &[u32],
    out: &mut Vec<Node>,
) -> Result<(), NoMemory>
    ensures { OnOk result ((rest : Nodes) → followed out.new.items rest ≡ followed out.old.items (stmt_nodes (frame_view f.now) (stmt_view first.now) left.now (loop_nodes (looped (frame_view f.now)) at (stmt_view body.now) (test_nodes (looped (frame_view f.now)) (optional_expr_view e.now) (stmt_nodes (looped (frame_view f.now)) (stmt_view body.now) [] no_nodes)) (stmt_nodes (looped (frame_view f.now)) (stmt_view step.now) [] no_nodes) rest))) }
{
    stmt(alloc, first, f, left, out)?;
    for_rounds(alloc, body, step, at, e, &in_loop(f), out)
}

// The rounds of a for.
#[cycle(stmts)]
fn for_rounds(
    alloc: Global,
    body: &Stmt,
    step: &Stmt,
    at: u32,
    e: &Option<Expr>,
    f: &Frame,
    out: &mut Vec<Node>,
) -> Result<(), NoMemory>
    ensures { OnOk result ((rest : Nodes) → followed out.new.items rest ≡ followed out.old.items (loop_nodes (frame_view f.now) at (stmt_view body.now) (test_nodes (frame_view f.now) (optional_expr_view e.now) (stmt_nodes (frame_view f.now) (stmt_view body.now) [] no_nodes)) (stmt_nodes (frame_view f.now) (stmt_view step.now) [] no_nodes) rest)) }
{
    let round = for_round(alloc, body, f, e)?;
    let last = for_step(alloc, body, step, at, f)?;
    turns(alloc, body, at, f, round, last, out)
}

// The step of a for.
#[cycle(stmts)]
#[tactic(auto, using(struct_ir::proofs::Views::followed_none))]
fn for_step(
    alloc: Global,
    body: &Stmt,
    step: &Stmt,
    at: u32,
    f: &Frame,
) -> Result<Vec<Node>, NoMemory>
    ensures { IfOk result (λ row. nodes_view row.items ≡ ends at (over_next (frame_view f.now) (stmt_view body.now)) (stmt_nodes (frame_view f.now) (stmt_view step.now) [] no_nodes)) }
{
    let mut last = Vec::with_capacity(alloc, 1)?;
    latch(alloc, body, at, f, &mut last)?;
    stmt(alloc, step, f, &[], &mut last)?;
    Ok(last)
}

#[cycle(stmts)]
fn do_loop(
    alloc: Global,
    body: &Stmt,
    at: u32,
    e: &Expr,
    f: &Frame,
    out: &mut Vec<Node>,
) -> Result<(), NoMemory>
    ensures { OnOk result ((rest : Nodes) → followed out.new.items rest ≡ followed out.old.items (loop_nodes (frame_view f.now) at (stmt_view body.now) (stmt_nodes (frame_view f.now) (stmt_view body.now) [] no_nodes) (test_nodes (frame_view f.now) (Some (expr_view e.now)) no_nodes) rest)) }
{
    let round = row_of(alloc, body, f, &[])?;
    let step = do_step(alloc, body, at, e, f)?;
    turns(alloc, body, at, f, round, step, out)
}

// A switch: the number of the chosen label, the flag, and the statements.
#[cycle(stmts)]
fn switch(
    alloc: Global,
    body: &[Stmt],
    at: u32,
    e: &Expr,
    labels: &[Label],
    f: &Frame,
    left: &[u32],
    out: &mut Vec<Node>,
) -> Result<(), NoMemory>
    ensures { OnOk result ((rest : Nodes) → followed out.new.items rest ≡ followed out.old.items (expr_nodes (frame_view f.now) (expr_view e.now) (suc (suc f.now.first_temp)) (sets_int at f.now.first_temp (default_from 0 (map label_view labels.now)) (choose_nodes at f.now.first_temp 0 (map label_view labels.now) (sets_int at (suc f.now.first_temp) 0 (switch_nodes (switched (frame_view f.now)) at f.now.first_temp (map label_view labels.now) 0 (stmts_of (map stmt_view body.now)) left.now rest)))))) }
{
    let chosen = f.first_temp;
    let flag = after(chosen)?;
    let first_temp = after(flag)?;
    expr(alloc, e, f, first_temp, out)?;
    sets_number(out, at, chosen, default_number(labels)?)?;
    chooses(alloc, out, at, chosen, labels)?;
    sets_int(out, at, flag, 0)?;
    let inner = Frame {
        structs: f.structs,
        homes: f.homes,
        first_temp,
        flag: Some(flag),
        around: f.around,
        outer: f.outer,
    };
    cases(alloc, body, at, chosen, flag, labels, &inner, left, out)
}

// The statements of a switch.
#[cycle(stmts)]
fn cases(
    alloc: Global,
    body: &[Stmt],
    at: u32,
    chosen: u32,
    flag: u32,
    labels: &[Label],
    f: &Frame,
    left: &[u32],
    out: &mut Vec<Node>,
) -> Result<(), NoMemory>
    requires { flag ≡ suc chosen }
    ensures { OnOk result ((rest : Nodes) → followed out.new.items rest ≡ followed out.old.items (switch_nodes (frame_view f.now) at chosen (map label_view labels.now) 0 (stmts_of (map stmt_view body.now)) left.now rest)) }
{
    for (i, s) in body.iter().enumerate() {
        marks(alloc, out, at, chosen, i, labels)?;
        let one = row_of(alloc, s, f, left)?;
        branches(out, s.place, flag, one, Vec::new(alloc))?;
    }
    Ok(())
}

// A statement of a row: in a switch it's executed only while the flag is 1.
#[cycle(stmts)]
fn guarded_stmt(
    alloc: Global,
    s: &Stmt,
    f: &Frame,
    left: &[u32],
    out: &mut Vec<Node>,
) -> Result<(), NoMemory>
    ensures { OnOk result ((rest : Nodes) → followed out.new.items rest ≡ followed out.old.items (guarded f.now.flag (stmt_place (stmt_view s.now)) (stmt_nodes (frame_view f.now) (stmt_view s.now) left.now) rest)) }
{
    match f.flag {
        None => stmt(alloc, s, f, left, out),
        Some(flag) => {
            let one = row_of(alloc, s, f, left)?;
            branches(out, s.place, flag, one, Vec::new(alloc))
        }
    }
}

// A row of a statement alone.
#[cycle(stmts)]
#[tactic(auto, using(struct_ir::proofs::Views::followed_none))]
fn row_of(alloc: Global, s: &Stmt, f: &Frame, left: &[u32]) -> Result<Vec<Node>, NoMemory>
    ensures { IfOk result (λ row. nodes_view row.items ≡ stmt_nodes (frame_view f.now) (stmt_view s.now) left.now no_nodes) }
{
    let mut row = Vec::with_capacity(alloc, 1)?;
    stmt(alloc, s, f, left, &mut row)?;
    Ok(row)
}

// A round of a while: the condition and the body.
#[cycle(stmts)]
#[tactic(auto, using(struct_ir::proofs::Views::followed_none))]
fn while_round(alloc: Global, body: &Stmt, f: &Frame, e: &Expr) -> Result<Vec<Node>, NoMemory>
    ensures { IfOk result (λ row. nodes_view row.items ≡ test_nodes (frame_view f.now) (Some (expr_view e.now)) (stmt_nodes (frame_view f.now) (stmt_view body.now) [] no_nodes)) }
{
    let mut row = Vec::with_capacity(alloc, 1)?;
    tests(alloc, f, e, &mut row)?;
    stmt(alloc, body, f, &[], &mut row)?;
    Ok(row)
}

// A round of a for: the condition, if there is one, and the body.
#[cycle(stmts)]
#[tactic(auto, using(struct_ir::proofs::Views::followed_none))]
fn for_round(alloc: Global, body: &Stmt, f: &Frame, e: &Option<Expr>) -> Result<Vec<Node>, NoMemory>
    ensures { IfOk result (λ row. nodes_view row.items ≡ test_nodes (frame_view f.now) (optional_expr_view e.now) (stmt_nodes (frame_view f.now) (stmt_view body.now) [] no_nodes)) }
{
    let mut row = Vec::with_capacity(alloc, 1)?;
    test(alloc, f, e, &mut row)?;
    stmt(alloc, body, f, &[], &mut row)?;
    Ok(row)
}

/// The statements of a block, in order.
///
/// # Errors
///
/// Only want of memory.
#[cycle(stmts)]
pub fn row(
    alloc: Global,
    all: &[Stmt],
    f: &Frame,
    left: &[u32],
    out: &mut Vec<Node>,
) -> Result<(), NoMemory>
    ensures { OnOk result ((rest : Nodes) → followed out.new.items rest ≡ followed out.old.items (row_nodes (frame_view f.now) (stmts_of (map stmt_view all.now)) left.now rest)) }
{
    for s in all {
        guarded_stmt(alloc, s, f, left, out)?;
    }
    Ok(())
}
