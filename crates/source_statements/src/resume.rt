//! How far a work list gets in a turn.

ghost use Rattle.std.specs.Prelude.{◌≡◌, IfOk, OnOk};
ghost use Rattle.c_meaning.specs.Control as control;
ghost use Rattle.c_meaning.specs.Turns as turns;
ghost use Rattle.source_tree.specs.SharedViews.{row_from};
ghost use Rattle.source_state.specs.Views.{todo_of, loop_of};
ghost use Rattle.source_expressions.specs.Ends.{ends};
ghost use Rattle.source_statements.specs.inner.Behind.{Passes};
ghost use Rattle.source_statements.specs.Finishing.{Finishes};
ghost use Rattle.source_assignments.specs.Exits.{exit};

use crate::statements::{
    after_body, after_first, after_step, after_switch, close_first, close_row, row,
};
use ak_words::NoMemory;
use source_assignments::Exit;
use source_state::control::{LoopParts, Pending, Todo};
use source_state::{KeptStore, Locals};
use source_tree::tree::{SharedProgram, SharedRow, SharedStmt};
use std::alloc::Global;
use std::rc::Rc;

// What a function that was left so leads to, at the end of its body.
fn left_whole(left: Exit) -> Pending
    ensures { (h : turns.TurnContext) (x : turns.Now) → exit h (turns.leave_way h) x left ≡ ends h result x }
{
    match left {
        Exit::Ends(q) => q,
        Exit::End => Pending::Leave(None),
        Exit::Break => Pending::Leave(None),
        Exit::Next => Pending::Leave(None),
    }
}

// Behind a statement of a row that was left so: the rest of the row.
fn after_stmt(
    left: Exit,
    all: &Rc<SharedRow>,
    alloc: Global,
    program: &SharedProgram,
    function: u32,
    locals: &mut Locals,
    store: &mut KeptStore,
    from: usize,
    k: &Rc<Todo>,
) -> Result<Exit, NoMemory>
    ensures passes { IfOk result (λ g. Passes (λ h. turns.row_way (row_from all.now.value from) (turns.run_row h (row_from all.now.value from))) program.now function (todo_of k.now.value) left locals.old.now store.old.now locals.new.now store.new.now g) }
    ensures locals { OnOk result (locals.new.kept ≡ locals.old.kept) }
    ensures store { OnOk result (store.new.kept ≡ store.old.kept) }
{
    match left {
        Exit::End => row(all, alloc, program, function, locals, store, from, k),
        Exit::Break => Ok(Exit::Break),
        Exit::Next => Ok(Exit::Next),
        Exit::Ends(q) => Ok(Exit::Ends(q)),
    }
}

/// What is left to do behind a statement that was left so: none of it where the turn has ended.
#[cycle(work)]
pub fn finish(
    k: &Todo,
    left: Exit,
    alloc: Global,
    program: &SharedProgram,
    function: u32,
    locals: &mut Locals,
    store: &mut KeptStore,
) -> Result<Pending, NoMemory>
    ensures comes { IfOk result (λ q. Finishes program.now function (todo_of k.now) left locals.old.now store.old.now locals.new.now store.new.now q) }
    ensures locals { OnOk result (locals.new.kept ≡ locals.old.kept) }
    ensures store { OnOk result (store.new.kept ≡ store.old.kept) }
{
    match left {
        Exit::Ends(q) => Ok(q),
        _ => work_off(k, left, alloc, program, function, locals, store),
    }
}

// The same, part by part.
#[cycle(work)]
fn work_off(
    k: &Todo,
    left: Exit,
    alloc: Global,
    program: &SharedProgram,
    function: u32,
    locals: &mut Locals,
    store: &mut KeptStore,
) -> Result<Pending, NoMemory>
    ensures comes { IfOk result (λ q. Finishes program.now function (todo_of k.now) left locals.old.now store.old.now locals.new.now store.new.now q) }
    ensures locals { OnOk result (locals.new.kept ≡ locals.old.kept) }
    ensures store { OnOk result (store.new.kept ≡ store.old.kept) }
{
    match k {
        Todo::Leaves => Ok(left_whole(left)),
        Todo::ThenRow(all, from, k) => {
            let exit = after_stmt(left, all, alloc, program, function, locals, store, *from, k)?;
            finish(k, exit, alloc, program, function, locals, store)
        }
        Todo::ThenEnd(all, k) => {
            let exit = close_row(left, all, locals, store)?;
            finish(k, exit, alloc, program, function, locals, store)
        }
        Todo::ThenEndFirst(s, k) => {
            let exit = close_first(left, s, locals, store)?;
            finish(k, exit, alloc, program, function, locals, store)
        }
        Todo::ThenLoop(l, k) => {
            behind_first(l, k, left, alloc, program, function, locals, store)
        }
        Todo::InBody(l, k) => behind_body(l, k, left, alloc, program, function, locals, store),
        Todo::InStep(l, k) => behind_step(l, k, left, alloc, program, function, locals, store),
        Todo::InSwitch(k) => {
            let exit = after_switch(left);
            finish(k, exit, alloc, program, function, locals, store)
        }
    }
}

// A loop behind the first statement of a `for`.
#[cycle(work)]
fn behind_first(
    l: &Rc<LoopParts>,
    k: &Rc<Todo>,
    left: Exit,
    alloc: Global,
    program: &SharedProgram,
    function: u32,
    locals: &mut Locals,
    store: &mut KeptStore,
) -> Result<Pending, NoMemory>
    ensures comes { IfOk result (λ q. Finishes program.now function (control.then_loop (loop_of l.now.value) (todo_of k.now.value)) left locals.old.now store.old.now locals.new.now store.new.now q) }
    ensures locals { OnOk result (locals.new.kept ≡ locals.old.kept) }
    ensures store { OnOk result (store.new.kept ≡ store.old.kept) }
{
    let exit = after_first(
        left, &l.body, alloc, program, function, locals, store, &l.step, l, k,
    )?;
    finish(k, exit, alloc, program, function, locals, store)
}

// The step of a loop, behind its body.
#[cycle(work)]
fn behind_body(
    l: &Rc<LoopParts>,
    k: &Rc<Todo>,
    left: Exit,
    alloc: Global,
    program: &SharedProgram,
    function: u32,
    locals: &mut Locals,
    store: &mut KeptStore,
) -> Result<Pending, NoMemory>
    ensures comes { IfOk result (λ q. Finishes program.now function (control.in_body (loop_of l.now.value) (todo_of k.now.value)) left locals.old.now store.old.now locals.new.now store.new.now q) }
    ensures locals { OnOk result (locals.new.kept ≡ locals.old.kept) }
    ensures store { OnOk result (store.new.kept ≡ store.old.kept) }
{
    let exit = after_body(left, alloc, program, function, locals, store, &l.step, l, k)?;
    finish(k, exit, alloc, program, function, locals, store)
}

// The next round of a loop, behind its step.
#[cycle(work)]
fn behind_step(
    l: &Rc<LoopParts>,
    k: &Rc<Todo>,
    left: Exit,
    alloc: Global,
    program: &SharedProgram,
    function: u32,
    locals: &mut Locals,
    store: &mut KeptStore,
) -> Result<Pending, NoMemory>
    ensures comes { IfOk result (λ q. Finishes program.now function (control.in_step (loop_of l.now.value) (todo_of k.now.value)) left locals.old.now store.old.now locals.new.now store.new.now q) }
    ensures locals { OnOk result (locals.new.kept ≡ locals.old.kept) }
    ensures store { OnOk result (store.new.kept ≡ store.old.kept) }
{
    let exit = after_step(left, l, k)?;
    finish(k, exit, alloc, program, function, locals, store)
}
