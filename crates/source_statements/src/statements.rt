//! How far a statement gets in a turn.

ghost use Rattle.std.specs.Prelude.{◌≡◌, ℕ, List, [], IfOk, OnOk};
ghost use Rattle.block_store.specs.Blocks.{Blocks};
ghost use Rattle.c_tree.specs.Typed.{place_of};
ghost use Rattle.c_meaning.specs.Control as control;
ghost use Rattle.c_meaning.specs.Turns as turns;
ghost use Rattle.source_tree.specs.declared.tree.SharedProgram.{SharedProgram};
ghost use Rattle.source_tree.specs.SharedViews.{expr_of, optional_expr_of, labels_of, stmt_of, row_of, row_from};
ghost use Rattle.source_state.specs.Views.{todo_of, use_of, loop_of, stmt_or_nothing};
ghost use Rattle.source_statements.specs.inner.Conditions.{Tests};
ghost use Rattle.source_statements.specs.inner.Behind.{Passes};
ghost use Rattle.source_assignments.specs.Exits.{ExitsAs};

use crate::behind_statements;
use crate::labels::start;
use crate::scopes::{end_first, end_row};
use ak_words::NoMemory;
use block_store::Value;
use source_assignments::Exit;
use source_assignments::assignments::{assign, drop_value, initialise, update};
use source_assignments::locals::declare_local;
use source_expressions::expressions::expr;
use source_state::control::{LoopParts, Pending, Progress, Todo, Use};
use source_state::{KeptStore, Locals};
use source_tree::tree::{SharedExpr, SharedLabels, SharedProgram, SharedRow, SharedStmt};
use source_values::truth_of;
use std::alloc::Global;
use std::rc::Rc;

/// A condition: whether it holds, or what ends the turn there.
#[derive(Drop)]
pub enum Tested {
    /// It holds, or doesn't.
    Holds(bool),
    /// What ends the turn.
    Ends(Pending),
}

// A condition, at its place, with what follows it.
fn test(
    c: &Rc<SharedExpr>,
    alloc: Global,
    program: &SharedProgram,
    locals: &Locals,
    store: &KeptStore,
    after: &Rc<Use>,
) -> Result<Tested, NoMemory>
    ensures { IfOk result (λ t. Tests program.now locals.now.now store.now.now (expr_of c.now.value) (use_of after.now.value) t) }
{
    let flow = expr(c, alloc, program, locals, store.store(), after)?;
    match flow {
        Progress::Ends(q) => Ok(Tested::Ends(q)),
        Progress::Gives(v) => match truth_of(store.store(), v) {
            Ok(holds) => Ok(Tested::Holds(holds)),
            Err(rule) => Ok(Tested::Ends(Pending::Broke(rule, c.place))),
        },
    }
}

/// The locals that a row declares end, however it was left in the turn.
pub fn close_row(
    left: Exit,
    all: &Rc<SharedRow>,
    locals: &mut Locals,
    store: &mut KeptStore,
) -> Result<Exit, NoMemory>
    ensures passes { IfOk result (λ g. (p : SharedProgram) (function : ℕ) (k : control.Todo) → Passes (λ h. turns.end_way (turns.declared (row_of all.now.value))) p function k left locals.old.now store.old.now locals.new.now store.new.now g) }
    ensures locals { OnOk result (locals.new.kept ≡ locals.old.kept) }
    ensures store { OnOk result (store.new.kept ≡ store.old.kept) }
{
    match left {
        Exit::Ends(q) => Ok(Exit::Ends(q)),
        Exit::End => {
            end_row(all, locals, store)?;
            Ok(Exit::End)
        }
        Exit::Break => {
            end_row(all, locals, store)?;
            Ok(Exit::Break)
        }
        Exit::Next => {
            end_row(all, locals, store)?;
            Ok(Exit::Next)
        }
    }
}

/// The local that a statement declares ends, however what it stands before was left in the turn.
pub fn close_first(
    left: Exit,
    first: &Rc<SharedStmt>,
    locals: &mut Locals,
    store: &mut KeptStore,
) -> Result<Exit, NoMemory>
    ensures passes { IfOk result (λ g. (p : SharedProgram) (function : ℕ) (k : control.Todo) → Passes (λ h. turns.end_way (turns.declared_by (stmt_of first.now.value) [])) p function k left locals.old.now store.old.now locals.new.now store.new.now g) }
    ensures locals { OnOk result (locals.new.kept ≡ locals.old.kept) }
    ensures store { OnOk result (store.new.kept ≡ store.old.kept) }
{
    match left {
        Exit::Ends(q) => Ok(Exit::Ends(q)),
        Exit::End => {
            end_first(first, locals, store)?;
            Ok(Exit::End)
        }
        Exit::Break => {
            end_first(first, locals, store)?;
            Ok(Exit::Break)
        }
        Exit::Next => {
            end_first(first, locals, store)?;
            Ok(Exit::Next)
        }
    }
}

// A declaration.
fn declare(
    place: u32,
    number: u32,
    init: &Option<Rc<SharedExpr>>,
    alloc: Global,
    program: &SharedProgram,
    function: u32,
    locals: &mut Locals,
    store: &mut KeptStore,
    k: &Rc<Todo>,
) -> Result<Exit, NoMemory>
    ensures exits { IfOk result (λ g. ExitsAs (λ h w. turns.declares h place number (optional_expr_of init.now) w) program.now function (todo_of k.now.value) locals.old.now store.old.now locals.new.now store.new.now g) }
    ensures locals { OnOk result (locals.new.kept ≡ locals.old.kept) }
    ensures store { OnOk result (store.new.kept ≡ store.old.kept) }
{
    match init {
        None => {
            declare_local(program, function, locals, store, number)?;
            Ok(Exit::End)
        }
        Some(e) => initialise(e, alloc, program, function, locals, store, place, number, k),
    }
}

/// A statement.
#[cycle(walk)]
pub fn stmt(
    s: &Rc<SharedStmt>,
    alloc: Global,
    program: &SharedProgram,
    function: u32,
    locals: &mut Locals,
    store: &mut KeptStore,
    k: &Rc<Todo>,
) -> Result<Exit, NoMemory>
    ensures exits { IfOk result (λ g. ExitsAs (λ h w. turns.run_stmt h (stmt_of s.now.value) w) program.now function (todo_of k.now.value) locals.old.now store.old.now locals.new.now store.new.now g) }
    ensures locals { OnOk result (locals.new.kept ≡ locals.old.kept) }
    ensures store { OnOk result (store.new.kept ≡ store.old.kept) }
{
    match &**s {
        SharedStmt::Block(_, all) => block(all, alloc, program, function, locals, store, k),
        SharedStmt::Declare(place, number, init) => declare(
            *place, *number, init, alloc, program, function, locals, store, k,
        ),
        SharedStmt::If(place, c, one) => {
            if_then(*place, c, one, alloc, program, function, locals, store, k)
        }
        SharedStmt::IfElse(_, c, one, other) => {
            if_else(c, one, other, alloc, program, function, locals, store, k)
        }
        SharedStmt::While(place, c, body) => while_holds(
            *place, c, body, alloc, program, function, locals, store, k,
        ),
        SharedStmt::For(place, first, c, step, body) => for_each(
            *place, first, c, step, body, alloc, program, function, locals, store, k,
        ),
        SharedStmt::DoWhile(_, body, c) => {
            do_while(body, c, alloc, program, function, locals, store, k)
        }
        SharedStmt::Switch(_, e, labels, body) => {
            switch(e, labels, body, alloc, program, function, locals, store, k)
        }
        SharedStmt::Break(_) => Ok(Exit::Break),
        SharedStmt::Continue(_) => Ok(Exit::Next),
        SharedStmt::Return(_, value) => return_value(value, alloc, program, locals, store),
        SharedStmt::Assign(_, left, right) => {
            assign(left, right, alloc, program, function, locals, store, k)
        }
        SharedStmt::Update(place, left, op, right) => update(
            left, right, alloc, program, function, locals, store, *place, *op, k,
        ),
        SharedStmt::Eval(_, e) => drop_value(e, alloc, program, locals, store, k),
        SharedStmt::Empty(_) => Ok(Exit::End),
    }
}

// A block: its statements, and then its locals end.
#[cycle(walk)]
fn block(
    all: &Rc<SharedRow>,
    alloc: Global,
    program: &SharedProgram,
    function: u32,
    locals: &mut Locals,
    store: &mut KeptStore,
    k: &Rc<Todo>,
) -> Result<Exit, NoMemory>
    ensures exits { IfOk result (λ g. ExitsAs (λ h w. turns.run_row h (row_of all.now.value) (turns.end_way (turns.declared (row_of all.now.value)) w)) program.now function (todo_of k.now.value) locals.old.now store.old.now locals.new.now store.new.now g) }
    ensures locals { OnOk result (locals.new.kept ≡ locals.old.kept) }
    ensures store { OnOk result (store.new.kept ≡ store.old.kept) }
{
    let inside = behind_statements::row_end(alloc, all, k)?;
    let left = row(all, alloc, program, function, locals, store, 0, &inside)?;
    close_row(left, all, locals, store)
}

// The condition of an `if`, and what follows it.
fn after_if(
    alloc: Global,
    c: &Rc<SharedExpr>,
    at: u32,
    one: &Rc<SharedStmt>,
    other: &Option<Rc<SharedStmt>>,
    k: &Rc<Todo>,
) -> Result<Rc<Use>, NoMemory>
    ensures { IfOk result (λ after. use_of after.value ≡ control.if_test (place_of (expr_of c.now.value)) (stmt_of one.now.value) (stmt_or_nothing at other.now) (todo_of k.now.value)) }
{
    let other = same_stmt(other)?;
    Ok(Rc::new(
        alloc,
        Use::IfTest(c.place, at, one.clone()?, other, k.clone()?),
    )?)
}

// An `if` without an `else`.
#[cycle(walk)]
fn if_then(
    place: u32,
    c: &Rc<SharedExpr>,
    one: &Rc<SharedStmt>,
    alloc: Global,
    program: &SharedProgram,
    function: u32,
    locals: &mut Locals,
    store: &mut KeptStore,
    k: &Rc<Todo>,
) -> Result<Exit, NoMemory>
    ensures exits { IfOk result (λ g. ExitsAs (λ h w. turns.run h (expr_of c.now.value) (turns.if_way (place_of (expr_of c.now.value)) (stmt_of one.now.value) (turns.nothing place) (turns.run_stmt h (stmt_of one.now.value)) (turns.run_stmt h (turns.nothing place)) w)) program.now function (todo_of k.now.value) locals.old.now store.old.now locals.new.now store.new.now g) }
    ensures locals { OnOk result (locals.new.kept ≡ locals.old.kept) }
    ensures store { OnOk result (store.new.kept ≡ store.old.kept) }
{
    let after = after_if(alloc, c, place, one, &None, k)?;
    let tested = test(c, alloc, program, locals, store, &after)?;
    match tested {
        Tested::Ends(q) => Ok(Exit::Ends(q)),
        Tested::Holds(holds) => {
            if holds {
                stmt(one, alloc, program, function, locals, store, k)
            } else {
                Ok(Exit::End)
            }
        }
    }
}

// An `if` with an `else`.
#[cycle(walk)]
fn if_else(
    c: &Rc<SharedExpr>,
    one: &Rc<SharedStmt>,
    other: &Rc<SharedStmt>,
    alloc: Global,
    program: &SharedProgram,
    function: u32,
    locals: &mut Locals,
    store: &mut KeptStore,
    k: &Rc<Todo>,
) -> Result<Exit, NoMemory>
    ensures exits { IfOk result (λ g. ExitsAs (λ h w. turns.run h (expr_of c.now.value) (turns.if_way (place_of (expr_of c.now.value)) (stmt_of one.now.value) (stmt_of other.now.value) (turns.run_stmt h (stmt_of one.now.value)) (turns.run_stmt h (stmt_of other.now.value)) w)) program.now function (todo_of k.now.value) locals.old.now store.old.now locals.new.now store.new.now g) }
    ensures locals { OnOk result (locals.new.kept ≡ locals.old.kept) }
    ensures store { OnOk result (store.new.kept ≡ store.old.kept) }
{
    let again = other.clone()?;
    let or = Some(again);
    let after = after_if(alloc, c, 0, one, &or, k)?;
    let tested = test(c, alloc, program, locals, store, &after)?;
    match tested {
        Tested::Ends(q) => Ok(Exit::Ends(q)),
        Tested::Holds(holds) => {
            if holds {
                stmt(one, alloc, program, function, locals, store, k)
            } else {
                stmt(other, alloc, program, function, locals, store, k)
            }
        }
    }
}

// A statement, or none, again.
fn same_stmt(s: &Option<Rc<SharedStmt>>) -> Result<Option<Rc<SharedStmt>>, NoMemory>
    ensures { IfOk result (λ same. (at : ℕ) → stmt_or_nothing at same ≡ stmt_or_nothing at s.now) }
{
    match s {
        None => Ok(None),
        Some(s) => Ok(Some(s.clone()?)),
    }
}

// An expression, or none, again.
fn same_expr(e: &Option<Rc<SharedExpr>>) -> Result<Option<Rc<SharedExpr>>, NoMemory>
    ensures { IfOk result (λ same. optional_expr_of same ≡ optional_expr_of e.now) }
{
    match e {
        None => Ok(None),
        Some(e) => Ok(Some(e.clone()?)),
    }
}

// The parts of a loop.
fn parts_of(
    alloc: Global,
    place: u32,
    condition: &Option<Rc<SharedExpr>>,
    step: &Option<Rc<SharedStmt>>,
    body: &Rc<SharedStmt>,
) -> Result<Rc<LoopParts>, NoMemory>
    ensures { IfOk result (λ l. loop_of l.value ≡ record { condition = optional_expr_of condition.now; step = stmt_or_nothing place step.now; body = stmt_of body.now.value }) }
{
    let condition = same_expr(condition)?;
    let step = same_stmt(step)?;
    Ok(Rc::new(
        alloc,
        LoopParts {
            place,
            condition,
            step,
            body: body.clone()?,
        },
    )?)
}

// The parts of a `do`: its step is `if (c) ; else break;`.
fn do_parts(
    alloc: Global,
    body: &Rc<SharedStmt>,
    c: &Rc<SharedExpr>,
) -> Result<Rc<LoopParts>, NoMemory>
    ensures { IfOk result (λ l. loop_of l.value ≡ turns.do_loop (stmt_of body.now.value) (expr_of c.now.value)) }
{
    let place = c.place;
    let goes_on = Rc::new(alloc, SharedStmt::Empty(place))?;
    let leaves = Rc::new(alloc, SharedStmt::Break(place))?;
    let tests = Rc::new(
        alloc,
        SharedStmt::IfElse(place, c.clone()?, goes_on, leaves),
    )?;
    let step = Some(tests);
    parts_of(alloc, place, &None, &step, body)
}

// A return.
fn return_value(
    value: &Option<Rc<SharedExpr>>,
    alloc: Global,
    program: &SharedProgram,
    locals: &Locals,
    store: &KeptStore,
) -> Result<Exit, NoMemory>
    ensures { IfOk result (λ g. (function : ℕ) (k : control.Todo) → ExitsAs (λ h w. turns.returns h (optional_expr_of value.now)) program.now function k locals.now.now store.now.now locals.now.now store.now.now g) }
{
    match value {
        None => Ok(Exit::Ends(Pending::Leave(None))),
        Some(e) => return_some(e, alloc, program, locals, store),
    }
}

// A return of a value.
fn return_some(
    e: &Rc<SharedExpr>,
    alloc: Global,
    program: &SharedProgram,
    locals: &Locals,
    store: &KeptStore,
) -> Result<Exit, NoMemory>
    ensures { IfOk result (λ g. (function : ℕ) (k : control.Todo) → ExitsAs (λ h w. turns.run h (expr_of e.now.value) (turns.caller_way h)) program.now function k locals.now.now store.now.now locals.now.now store.now.now g) }
{
    let after = Rc::new(alloc, Use::ToCaller)?;
    let flow = expr(e, alloc, program, locals, store.store(), &after)?;
    match flow {
        Progress::Ends(q) => Ok(Exit::Ends(q)),
        Progress::Gives(v) => Ok(Exit::Ends(Pending::Leave(Some(v)))),
    }
}

// A `while`.
#[cycle(walk)]
fn while_holds(
    place: u32,
    c: &Rc<SharedExpr>,
    body: &Rc<SharedStmt>,
    alloc: Global,
    program: &SharedProgram,
    function: u32,
    locals: &mut Locals,
    store: &mut KeptStore,
    k: &Rc<Todo>,
) -> Result<Exit, NoMemory>
    ensures exits { IfOk result (λ g. ExitsAs (λ h w. turns.rounds h (turns.while_loop place (expr_of c.now.value) (stmt_of body.now.value)) (turns.run_stmt h (stmt_of body.now.value)) (turns.run_stmt h (turns.nothing place)) w) program.now function (todo_of k.now.value) locals.old.now store.old.now locals.new.now store.new.now g) }
    ensures locals { OnOk result (locals.new.kept ≡ locals.old.kept) }
    ensures store { OnOk result (store.new.kept ≡ store.old.kept) }
{
    let again = c.clone()?;
    let or = Some(again);
    let l = parts_of(alloc, place, &or, &None, body)?;
    rounds(body, alloc, program, function, locals, store, &None, &l, k)
}

// A `do`.
#[cycle(walk)]
fn do_while(
    body: &Rc<SharedStmt>,
    c: &Rc<SharedExpr>,
    alloc: Global,
    program: &SharedProgram,
    function: u32,
    locals: &mut Locals,
    store: &mut KeptStore,
    k: &Rc<Todo>,
) -> Result<Exit, NoMemory>
    ensures exits { IfOk result (λ g. let l = turns.do_loop (stmt_of body.now.value) (expr_of c.now.value) in ExitsAs (λ h w. turns.rounds h l (turns.run_stmt h l.body) (turns.run_stmt h l.step) w) program.now function (todo_of k.now.value) locals.old.now store.old.now locals.new.now store.new.now g) }
    ensures locals { OnOk result (locals.new.kept ≡ locals.old.kept) }
    ensures store { OnOk result (store.new.kept ≡ store.old.kept) }
{
    let l = do_parts(alloc, body, c)?;
    rounds(
        body, alloc, program, function, locals, store, &l.step, &l, k,
    )
}

// A `for`.
#[cycle(walk)]
fn for_each(
    place: u32,
    first: &Rc<SharedStmt>,
    c: &Option<Rc<SharedExpr>>,
    step: &Rc<SharedStmt>,
    body: &Rc<SharedStmt>,
    alloc: Global,
    program: &SharedProgram,
    function: u32,
    locals: &mut Locals,
    store: &mut KeptStore,
    k: &Rc<Todo>,
) -> Result<Exit, NoMemory>
    ensures exits { IfOk result (λ g. ExitsAs (λ h w. turns.run_stmt h (stmt_of first.now.value) (turns.loop_way h (turns.for_loop (optional_expr_of c.now) (stmt_of step.now.value) (stmt_of body.now.value)) (turns.run_stmt h (stmt_of body.now.value)) (turns.run_stmt h (stmt_of step.now.value)) (turns.end_way (turns.declared_by (stmt_of first.now.value) []) w))) program.now function (todo_of k.now.value) locals.old.now store.old.now locals.new.now store.new.now g) }
    ensures locals { OnOk result (locals.new.kept ≡ locals.old.kept) }
    ensures store { OnOk result (store.new.kept ≡ store.old.kept) }
{
    let again = step.clone()?;
    let or = Some(again);
    let l = parts_of(alloc, place, c, &or, body)?;
    let outside = behind_statements::for_end(alloc, first, k)?;
    let left = run_for(
        first, body, alloc, program, function, locals, store, &or, &l, &outside,
    )?;
    close_first(left, first, locals, store)
}

// The first clause of a `for`, and its rounds.
#[cycle(walk)]
fn run_for(
    first: &Rc<SharedStmt>,
    body: &Rc<SharedStmt>,
    alloc: Global,
    program: &SharedProgram,
    function: u32,
    locals: &mut Locals,
    store: &mut KeptStore,
    step: &Option<Rc<SharedStmt>>,
    l: &Rc<LoopParts>,
    k: &Rc<Todo>,
) -> Result<Exit, NoMemory>
    ensures exits { IfOk result (λ g. ExitsAs (λ h w. turns.run_stmt h (stmt_of first.now.value) (turns.loop_way h (loop_of l.now.value) (turns.run_stmt h (stmt_of body.now.value)) (turns.run_stmt h (stmt_or_nothing l.now.value.place step.now)) w)) program.now function (todo_of k.now.value) locals.old.now store.old.now locals.new.now store.new.now g) }
    ensures locals { OnOk result (locals.new.kept ≡ locals.old.kept) }
    ensures store { OnOk result (store.new.kept ≡ store.old.kept) }
{
    let inside = behind_statements::first_end(alloc, l, k)?;
    let left = stmt(first, alloc, program, function, locals, store, &inside)?;
    after_first(
        left, body, alloc, program, function, locals, store, step, l, k,
    )
}

/// Behind the first clause of a `for` that was left so: the rounds.
#[cycle(walk)]
pub fn after_first(
    left: Exit,
    body: &Rc<SharedStmt>,
    alloc: Global,
    program: &SharedProgram,
    function: u32,
    locals: &mut Locals,
    store: &mut KeptStore,
    step: &Option<Rc<SharedStmt>>,
    l: &Rc<LoopParts>,
    k: &Rc<Todo>,
) -> Result<Exit, NoMemory>
    ensures passes { IfOk result (λ g. Passes (λ h. turns.loop_way h (loop_of l.now.value) (turns.run_stmt h (stmt_of body.now.value)) (turns.run_stmt h (stmt_or_nothing l.now.value.place step.now))) program.now function (todo_of k.now.value) left locals.old.now store.old.now locals.new.now store.new.now g) }
    ensures locals { OnOk result (locals.new.kept ≡ locals.old.kept) }
    ensures store { OnOk result (store.new.kept ≡ store.old.kept) }
{
    match left {
        Exit::End => rounds(body, alloc, program, function, locals, store, step, l, k),
        Exit::Break => Ok(Exit::Break),
        Exit::Next => Ok(Exit::Next),
        Exit::Ends(q) => Ok(Exit::Ends(q)),
    }
}

/// The rounds of a loop, from its condition on.
#[cycle(walk)]
pub fn rounds(
    body: &Rc<SharedStmt>,
    alloc: Global,
    program: &SharedProgram,
    function: u32,
    locals: &mut Locals,
    store: &mut KeptStore,
    step: &Option<Rc<SharedStmt>>,
    l: &Rc<LoopParts>,
    k: &Rc<Todo>,
) -> Result<Exit, NoMemory>
    ensures exits { IfOk result (λ g. ExitsAs (λ h w. turns.rounds h (loop_of l.now.value) (turns.run_stmt h (stmt_of body.now.value)) (turns.run_stmt h (stmt_or_nothing l.now.value.place step.now)) w) program.now function (todo_of k.now.value) locals.old.now store.old.now locals.new.now store.new.now g) }
    ensures locals { OnOk result (locals.new.kept ≡ locals.old.kept) }
    ensures store { OnOk result (store.new.kept ≡ store.old.kept) }
{
    match &l.condition {
        None => enter_body(body, alloc, program, function, locals, store, step, l, k),
        Some(c) => tested_round(c, body, alloc, program, function, locals, store, step, l, k),
    }
}

// The condition of a loop, and its body where that holds.
#[cycle(walk)]
fn tested_round(
    c: &Rc<SharedExpr>,
    body: &Rc<SharedStmt>,
    alloc: Global,
    program: &SharedProgram,
    function: u32,
    locals: &mut Locals,
    store: &mut KeptStore,
    step: &Option<Rc<SharedStmt>>,
    l: &Rc<LoopParts>,
    k: &Rc<Todo>,
) -> Result<Exit, NoMemory>
    ensures exits { IfOk result (λ g. ExitsAs (λ h w. turns.run h (expr_of c.now.value) (turns.loop_test_way h (place_of (expr_of c.now.value)) (loop_of l.now.value) (turns.run_stmt h (stmt_of body.now.value)) (turns.run_stmt h (stmt_or_nothing l.now.value.place step.now)) w)) program.now function (todo_of k.now.value) locals.old.now store.old.now locals.new.now store.new.now g) }
    ensures locals { OnOk result (locals.new.kept ≡ locals.old.kept) }
    ensures store { OnOk result (store.new.kept ≡ store.old.kept) }
{
    let after = behind_statements::condition_end(alloc, c, l, k)?;
    let tested = test(c, alloc, program, locals, store, &after)?;
    match tested {
        Tested::Ends(q) => Ok(Exit::Ends(q)),
        Tested::Holds(holds) => {
            if holds {
                enter_body(body, alloc, program, function, locals, store, step, l, k)
            } else {
                Ok(Exit::End)
            }
        }
    }
}

/// The body of a loop, and what follows it in a round.
#[cycle(walk)]
pub fn enter_body(
    body: &Rc<SharedStmt>,
    alloc: Global,
    program: &SharedProgram,
    function: u32,
    locals: &mut Locals,
    store: &mut KeptStore,
    step: &Option<Rc<SharedStmt>>,
    l: &Rc<LoopParts>,
    k: &Rc<Todo>,
) -> Result<Exit, NoMemory>
    ensures exits { IfOk result (λ g. ExitsAs (λ h w. turns.run_stmt h (stmt_of body.now.value) (turns.body_way h (loop_of l.now.value) (turns.run_stmt h (stmt_or_nothing l.now.value.place step.now)) w)) program.now function (todo_of k.now.value) locals.old.now store.old.now locals.new.now store.new.now g) }
    ensures locals { OnOk result (locals.new.kept ≡ locals.old.kept) }
    ensures store { OnOk result (store.new.kept ≡ store.old.kept) }
{
    let inside = behind_statements::body_end(alloc, l, k)?;
    let left = stmt(body, alloc, program, function, locals, store, &inside)?;
    after_body(left, alloc, program, function, locals, store, step, l, k)
}

/// Behind the body of a loop that was left so: the step, unless a break leaves the loop.
#[cycle(walk)]
pub fn after_body(
    left: Exit,
    alloc: Global,
    program: &SharedProgram,
    function: u32,
    locals: &mut Locals,
    store: &mut KeptStore,
    step: &Option<Rc<SharedStmt>>,
    l: &Rc<LoopParts>,
    k: &Rc<Todo>,
) -> Result<Exit, NoMemory>
    ensures passes { IfOk result (λ g. Passes (λ h. turns.body_way h (loop_of l.now.value) (turns.run_stmt h (stmt_or_nothing l.now.value.place step.now))) program.now function (todo_of k.now.value) left locals.old.now store.old.now locals.new.now store.new.now g) }
    ensures locals { OnOk result (locals.new.kept ≡ locals.old.kept) }
    ensures store { OnOk result (store.new.kept ≡ store.old.kept) }
{
    match left {
        Exit::Ends(q) => Ok(Exit::Ends(q)),
        Exit::Break => Ok(Exit::End),
        Exit::End => last(step, alloc, program, function, locals, store, l, k),
        Exit::Next => last(step, alloc, program, function, locals, store, l, k),
    }
}

// The step of a round, and the round's end.
#[cycle(walk)]
fn last(
    step: &Option<Rc<SharedStmt>>,
    alloc: Global,
    program: &SharedProgram,
    function: u32,
    locals: &mut Locals,
    store: &mut KeptStore,
    l: &Rc<LoopParts>,
    k: &Rc<Todo>,
) -> Result<Exit, NoMemory>
    ensures exits { IfOk result (λ g. ExitsAs (λ h w. turns.run_stmt h (stmt_or_nothing l.now.value.place step.now) (turns.step_way h (loop_of l.now.value) w)) program.now function (todo_of k.now.value) locals.old.now store.old.now locals.new.now store.new.now g) }
    ensures locals { OnOk result (locals.new.kept ≡ locals.old.kept) }
    ensures store { OnOk result (store.new.kept ≡ store.old.kept) }
{
    match step {
        None => {
            let over = behind_statements::round_end(l, k)?;
            Ok(Exit::Ends(over))
        }
        Some(s) => last_some(s, alloc, program, function, locals, store, l, k),
    }
}

// The step of a round that has one, and the round's end.
#[cycle(walk)]
fn last_some(
    s: &Rc<SharedStmt>,
    alloc: Global,
    program: &SharedProgram,
    function: u32,
    locals: &mut Locals,
    store: &mut KeptStore,
    l: &Rc<LoopParts>,
    k: &Rc<Todo>,
) -> Result<Exit, NoMemory>
    ensures exits { IfOk result (λ g. ExitsAs (λ h w. turns.run_stmt h (stmt_of s.now.value) (turns.step_way h (loop_of l.now.value) w)) program.now function (todo_of k.now.value) locals.old.now store.old.now locals.new.now store.new.now g) }
    ensures locals { OnOk result (locals.new.kept ≡ locals.old.kept) }
    ensures store { OnOk result (store.new.kept ≡ store.old.kept) }
{
    let inside = behind_statements::step_end(alloc, l, k)?;
    let left = stmt(s, alloc, program, function, locals, store, &inside)?;
    after_step(left, l, k)
}

/// Behind the step of a loop that was left so: the round is over, unless a break leaves the loop.
pub fn after_step(left: Exit, l: &Rc<LoopParts>, k: &Rc<Todo>) -> Result<Exit, NoMemory>
    ensures { IfOk result (λ g. (p : SharedProgram) (function : ℕ) (locals : List control.Variable) (blocks : Blocks) → Passes (λ h. turns.step_way h (loop_of l.now.value)) p function (todo_of k.now.value) left locals blocks locals blocks g) }
{
    match left {
        Exit::End => {
            let end_over = behind_statements::round_end(l, k)?;
            Ok(Exit::Ends(end_over))
        }
        Exit::Next => {
            let next_over = behind_statements::round_end(l, k)?;
            Ok(Exit::Ends(next_over))
        }
        Exit::Break => Ok(Exit::End),
        Exit::Ends(q) => Ok(Exit::Ends(q)),
    }
}

// A `switch`.
#[cycle(walk)]
fn switch(
    e: &Rc<SharedExpr>,
    labels: &Rc<SharedLabels>,
    body: &Rc<SharedRow>,
    alloc: Global,
    program: &SharedProgram,
    function: u32,
    locals: &mut Locals,
    store: &mut KeptStore,
    k: &Rc<Todo>,
) -> Result<Exit, NoMemory>
    ensures exits { IfOk result (λ g. ExitsAs (λ h w. turns.run h (expr_of e.now.value) (turns.switch_test_way (labels_of labels.now.value) (row_of body.now.value) (turns.run_from h (row_of body.now.value)) w)) program.now function (todo_of k.now.value) locals.old.now store.old.now locals.new.now store.new.now g) }
    ensures locals { OnOk result (locals.new.kept ≡ locals.old.kept) }
    ensures store { OnOk result (store.new.kept ≡ store.old.kept) }
{
    let after = behind_statements::label_end(alloc, labels, body, k)?;
    let flow = expr(e, alloc, program, locals, store.store(), &after)?;
    match flow {
        Progress::Ends(q) => Ok(Exit::Ends(q)),
        Progress::Gives(v) => enter_switch(
            v, labels, body, alloc, program, function, locals, store, k,
        ),
    }
}

/// The statements of a `switch` from the label on that a value chooses, if it chooses one.
#[cycle(walk)]
pub fn enter_switch(
    v: Value,
    labels: &Rc<SharedLabels>,
    body: &Rc<SharedRow>,
    alloc: Global,
    program: &SharedProgram,
    function: u32,
    locals: &mut Locals,
    store: &mut KeptStore,
    k: &Rc<Todo>,
) -> Result<Exit, NoMemory>
    ensures exits { IfOk result (λ g. ExitsAs (λ h w. (turns.switch_test_way (labels_of labels.now.value) (row_of body.now.value) (turns.run_from h (row_of body.now.value)) w).go v) program.now function (todo_of k.now.value) locals.old.now store.old.now locals.new.now store.new.now g) }
    ensures locals { OnOk result (locals.new.kept ≡ locals.old.kept) }
    ensures store { OnOk result (store.new.kept ≡ store.old.kept) }
{
    match start(&labels.labels, v) {
        None => Ok(Exit::End),
        Some(at) => {
            let inside = behind_statements::switch_end(alloc, k)?;
            let left = row(body, alloc, program, function, locals, store, at, &inside)?;
            Ok(after_switch(left))
        }
    }
}

/// Behind the statements of a `switch` that were left so: a break leaves it, and no loop around it.
pub fn after_switch(left: Exit) -> Exit
    ensures { (p : SharedProgram) (function : ℕ) (k : control.Todo) (locals : List control.Variable) (blocks : Blocks) → Passes (λ h. turns.switch_way) p function k left locals blocks locals blocks result }
{
    match left {
        Exit::End => Exit::End,
        Exit::Break => Exit::End,
        Exit::Next => Exit::Next,
        Exit::Ends(q) => Exit::Ends(q),
    }
}

/// The statements of a row from a place on.
#[cycle(walk)]
pub fn row(
    all: &Rc<SharedRow>,
    alloc: Global,
    program: &SharedProgram,
    function: u32,
    locals: &mut Locals,
    store: &mut KeptStore,
    from: usize,
    k: &Rc<Todo>,
) -> Result<Exit, NoMemory>
    ensures exits { IfOk result (λ g. ExitsAs (λ h w. turns.run_row h (row_from all.now.value from) w) program.now function (todo_of k.now.value) locals.old.now store.old.now locals.new.now store.new.now g) }
    ensures locals { OnOk result (locals.new.kept ≡ locals.old.kept) }
    ensures store { OnOk result (store.new.kept ≡ store.old.kept) }
{
    let mut at = from;
    'row: while at < all.stmts.len() {
        let after = behind_statements::row_rest(alloc, all, at + 1, k)?;
        let left = stmt(
            &all.stmts[at],
            alloc,
            program,
            function,
            locals,
            store,
            &after,
        )?;
        match left {
            Exit::End => at += 1,
            Exit::Break => return Ok(Exit::Break),
            Exit::Next => return Ok(Exit::Next),
            Exit::Ends(q) => return Ok(Exit::Ends(q)),
        }
    }
    Ok(Exit::End)
}
