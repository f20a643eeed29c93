//! Statements, judged where they stand (C11 6.8).
ghost use Rattle.std.specs.Prelude.{map};
ghost use Rattle.std.specs.Option.{option_map};
ghost use Rattle.c_tree.specs.Syntax as trees;
ghost use Rattle.c_tree.specs.SyntaxViews as source;
ghost use Rattle.c_tree.specs.TypedViews.{type_view, stmt_view, boxed_stmt_view};
ghost use Rattle.c_tree.specs.TypedForm as forms;
ghost use Rattle.c_typing.specs.Statements.{no_entries, entry_of, one_of, judged_first, judged_condition, judged_step, for_of, judged_stmt, judged_stmts, judged_entries};
ghost use Rattle.type_context.specs.ContextViews.{context_view};
ghost use Rattle.type_context.specs.Telling.{Tells};
ghost use Rattle.type_declared.specs.Gathering.{each};
ghost use Rattle.c_types.specs.inner.Switches.{jumps_view, entries_view};

use crate::declarations::declaration;
use crate::makers::{
    block_made, do_made, for_made, if_else_made, if_made, only, switch_made, while_made,
};
use crate::parts::{
    alone, condition, constant, first, first_simple, for_condition, for_step, jump, return_of,
    switched,
};
use crate::switches::{Entries, Jumps, one_fault_more, type_of_switch};
use ak_words::IntType;
use c_lex::{CompileFault, Kind};
use c_tree::syntax as tree;
use c_tree::typed::{CType, Stmt, StmtNode};
use indexmap::IndexMap;
use type_context::context::Context;
use type_context::faults::{both, refused};
use type_context::outcomes::appended;
use type_locals::headers::nothing;

// The statement under an `if` or a loop.
#[cycle(statements)]
fn one(
    context: &mut Context<'_>,
    t: &CType,
    jumps: Jumps,
    s: &tree::Stmt,
) -> Result<Box<Stmt>, CompileFault>
    ensures { Tells boxed_stmt_view result context.new (one_of (judged_stmt (type_view t.now) (jumps_view jumps) (source.stmt_view s.now)) (context_view context.old)) }
{
    let all = stmt(context, t, jumps, s)?;
    Ok(Box::new(context.alloc, only(all))?)
}

// A block, in a scope of its own.
#[cycle(statements)]
fn block(
    context: &mut Context<'_>,
    t: &CType,
    jumps: Jumps,
    place: u32,
    items: &[tree::Stmt],
) -> Result<Vec<Stmt>, CompileFault>
    ensures { Tells (each stmt_view) result context.new (judged_stmt (type_view t.now) (jumps_view jumps) (trees.block place (trees.stmts_of (map source.stmt_view items.now))) (context_view context.old)) }
{
    context.enter(IndexMap::new(context.alloc))?;
    let items = stmts(context, t, jumps, items);
    context.leave();
    let items = items?;
    block_made(context.alloc, place, items)
}

// An `if` without an `else`.
#[cycle(statements)]
fn if_then(
    context: &mut Context<'_>,
    t: &CType,
    jumps: Jumps,
    place: u32,
    e: &tree::Expr,
    s: &tree::Stmt,
) -> Result<Vec<Stmt>, CompileFault>
    ensures { Tells (each stmt_view) result context.new (judged_stmt (type_view t.now) (jumps_view jumps) (trees.if_then place (source.expr_view e.now) (source.stmt_view s.now)) (context_view context.old)) }
{
    let test = condition(context, place, e);
    let then = one(context, t, jumps, s);
    let (test, then) = both(test, then)?;
    if_made(context.alloc, place, test, then)
}

// An `if` with an `else`.
#[cycle(statements)]
fn if_else(
    context: &mut Context<'_>,
    t: &CType,
    jumps: Jumps,
    place: u32,
    e: &tree::Expr,
    s: &tree::Stmt,
    o: &tree::Stmt,
) -> Result<Vec<Stmt>, CompileFault>
    ensures { Tells (each stmt_view) result context.new (judged_stmt (type_view t.now) (jumps_view jumps) (trees.if_else place (source.expr_view e.now) (source.stmt_view s.now) (source.stmt_view o.now)) (context_view context.old)) }
{
    let test = condition(context, place, e);
    let then = one(context, t, jumps, s);
    let otherwise = one(context, t, jumps, o);
    let (test, (then, otherwise)) = both(test, both(then, otherwise))?;
    if_else_made(context.alloc, place, test, then, otherwise)
}

// A `while`.
#[cycle(statements)]
fn while_loop(
    context: &mut Context<'_>,
    t: &CType,
    place: u32,
    e: &tree::Expr,
    s: &tree::Stmt,
) -> Result<Vec<Stmt>, CompileFault>
    ensures { (j : forms.Jumps) → Tells (each stmt_view) result context.new (judged_stmt (type_view t.now) j (trees.while place (source.expr_view e.now) (source.stmt_view s.now)) (context_view context.old)) }
{
    let test = condition(context, place, e);
    let body = one(context, t, Jumps::in_loop(), s);
    let (test, body) = both(test, body)?;
    while_made(context.alloc, place, test, body)
}

// A `do`: its condition stands behind its body.
#[cycle(statements)]
fn do_loop(
    context: &mut Context<'_>,
    t: &CType,
    place: u32,
    s: &tree::Stmt,
    e: &tree::Expr,
) -> Result<Vec<Stmt>, CompileFault>
    ensures { (j : forms.Jumps) → Tells (each stmt_view) result context.new (judged_stmt (type_view t.now) j (trees.do_while place (source.stmt_view s.now) (source.expr_view e.now)) (context_view context.old)) }
{
    let body = one(context, t, Jumps::in_loop(), s);
    let test = condition(context, place, e);
    let (body, test) = both(body, test)?;
    do_made(context.alloc, place, body, test)
}

// A `switch`.
#[cycle(statements)]
fn switch(
    context: &mut Context<'_>,
    t: &CType,
    jumps: Jumps,
    place: u32,
    e: &tree::Expr,
    all: &[tree::Stmt],
) -> Result<Vec<Stmt>, CompileFault>
    ensures { Tells (each stmt_view) result context.new (judged_stmt (type_view t.now) (jumps_view jumps) (trees.switch place (source.expr_view e.now) (trees.stmts_of (map source.stmt_view all.now))) (context_view context.old)) }
{
    let e = switched(context, place, e);
    let of = type_of_switch(&e);
    let entries = entries(context, t, jumps.in_switch(), of, all);
    let (e, entries) = both(e, entries)?;
    switch_made(context.alloc, place, e, entries)
}

// What stands between the braces of a switch of a type. Behind an entry that is at fault those
// that follow are judged as if none stood before them.
#[cycle(statements)]
fn entries(
    context: &mut Context<'_>,
    t: &CType,
    jumps: Jumps,
    of: IntType,
    all: &[tree::Stmt],
) -> Result<Entries, CompileFault>
    ensures { Tells entries_view result context.new (judged_entries (type_view t.now) (jumps_view jumps) of no_entries (trees.stmts_of (map source.stmt_view all.now)) (context_view context.old)) }
{
    let mut fine = Ok(());
    let mut so_far = Entries::none(context.alloc);
    'entries: for s in all {
        match entry(context, t, jumps, of, so_far, s) {
            Ok(next) => so_far = next,
            Err(fault) => {
                fine = one_fault_more(fine, fault);
                so_far = Entries::none(context.alloc);
            }
        }
    }
    fine?;
    Ok(so_far)
}

// An entry of a switch of a type, behind these: a label, or a statement.
#[cycle(statements)]
fn entry(
    context: &mut Context<'_>,
    t: &CType,
    jumps: Jumps,
    of: IntType,
    before: Entries,
    s: &tree::Stmt,
) -> Result<Entries, CompileFault>
    ensures { Tells entries_view result context.new (entry_of of (entries_view before) (source.stmt_view s.now) (judged_stmt (type_view t.now) (jumps_view jumps) (source.stmt_view s.now)) (context_view context.old)) }
{
    match s {
        tree::Stmt::Case { place, value } => {
            let value = constant(context, value)?;
            before.case(*place, of, value)
        }
        tree::Stmt::Default { place } => before.default(*place),
        _ => {
            let s = one(context, t, jumps, s)?;
            before.statement(Box::into_inner(s))
        }
    }
}

// A `for` within the scope of its own.
#[cycle(statements)]
fn for_inside(
    context: &mut Context<'_>,
    t: &CType,
    place: u32,
    head: &tree::ForFirst,
    e: &Option<tree::Expr>,
    last: &Option<tree::Simple>,
    s: &tree::Stmt,
) -> Result<Box<Stmt>, CompileFault>
    ensures { Tells boxed_stmt_view result context.new (for_of place (judged_first place (source.for_first_view head.now)) (judged_condition place (option_map source.expr_view e.now)) (judged_step place (option_map source.simple_view last.now)) (one_of (judged_stmt (type_view t.now) forms.in_loop (source.stmt_view s.now))) (context_view context.old)) }
{
    let header = first(context, place, head);
    let test = for_condition(context, place, e);
    let step = for_step(context, place, last);
    let body = one(context, t, Jumps::in_loop(), s);
    let (header, (test, (step, body))) = both(header, both(test, both(step, body)))?;
    for_made(context.alloc, place, header, test, step, body)
}

// A `for`, in a scope of its own.
#[cycle(statements)]
fn for_loop(
    context: &mut Context<'_>,
    t: &CType,
    place: u32,
    head: &tree::ForHead,
    s: &tree::Stmt,
) -> Result<Vec<Stmt>, CompileFault>
    ensures { (j : forms.Jumps) → Tells (each stmt_view) result context.new (judged_stmt (type_view t.now) j (trees.for place (source.for_first_view head.now.first) (option_map source.expr_view head.now.condition) (option_map source.simple_view head.now.step) (source.stmt_view s.now)) (context_view context.old)) }
{
    context.enter(IndexMap::new(context.alloc))?;
    let whole = for_inside(
        context,
        t,
        place,
        &head.first,
        &head.condition,
        &head.step,
        s,
    );
    context.leave();
    let whole = whole?;
    alone(context.alloc, Box::into_inner(whole))
}

/// A statement, in a function of a result, where these jumps may stand; a declaration may give
/// several.
#[cycle(statements)]
fn stmt(
    context: &mut Context<'_>,
    t: &CType,
    jumps: Jumps,
    s: &tree::Stmt,
) -> Result<Vec<Stmt>, CompileFault>
    ensures { Tells (each stmt_view) result context.new (judged_stmt (type_view t.now) (jumps_view jumps) (source.stmt_view s.now) (context_view context.old)) }
{
    match s {
        tree::Stmt::Block { place, items } => block(context, t, jumps, *place, items),
        tree::Stmt::Declare(d) => declaration(context, d),
        tree::Stmt::Empty { place } => alone(context.alloc, nothing(*place)),
        tree::Stmt::If {
            place,
            condition,
            then,
            otherwise,
        } => match otherwise {
            None => if_then(context, t, jumps, *place, condition, then),
            Some(other) => if_else(context, t, jumps, *place, condition, then, other),
        },
        tree::Stmt::While {
            place,
            condition,
            body,
        } => while_loop(context, t, *place, condition, body),
        tree::Stmt::For { place, head, body } => for_loop(context, t, *place, head, body),
        tree::Stmt::DoWhile {
            place,
            body,
            condition,
        } => do_loop(context, t, *place, body, condition),
        tree::Stmt::Switch {
            place,
            condition,
            entries,
        } => switch(context, t, jumps, *place, condition, entries),
        tree::Stmt::Case { place, .. } | tree::Stmt::Default { place } => {
            refused(*place, Kind::TypeMismatch)
        }
        tree::Stmt::Break { place } => jump(context.alloc, *place, jumps.breaks, StmtNode::Break),
        tree::Stmt::Continue { place } => jump(
            context.alloc,
            *place,
            jumps.continues,
            StmtNode::Continue,
        ),
        tree::Stmt::Return { place, value } => return_of(context, t, *place, value),
        tree::Stmt::Simple(s) => first_simple(context, s),
    }
}

/// The items of a body, of which a declaration may give several.
#[cycle(statements)]
pub(crate) fn stmts(
    context: &mut Context<'_>,
    t: &CType,
    jumps: Jumps,
    items: &[tree::Stmt],
) -> Result<Vec<Stmt>, CompileFault>
    ensures { Tells (each stmt_view) result context.new (judged_stmts (type_view t.now) (jumps_view jumps) (trees.stmts_of (map source.stmt_view items.now)) (context_view context.old)) }
{
    let mut all = Ok(Vec::new(context.alloc));
    'items: for s in items {
        let next = stmt(context, t, jumps, s);
        all = appended(all, next);
    }
    all
}
