//! What is left to do behind the parts of statements.

ghost use Rattle.std.specs.Prelude.{◌≡◌, [], IfOk};
ghost use Rattle.c_tree.specs.Typed.{place_of};
ghost use Rattle.c_meaning.specs.Control as control;
ghost use Rattle.c_meaning.specs.Turns.{declared, declared_by};
ghost use Rattle.source_tree.specs.SharedViews.{expr_of, labels_of, stmt_of, row_of, row_from};
ghost use Rattle.source_state.specs.Views.{loop_of, todo_of, use_of};
ghost use Rattle.source_statements.specs.inner.Behind.{EndsRound};

use ak_words::NoMemory;
use source_state::control::{LoopParts, Pending, Todo, Use};
use source_tree::tree::{SharedExpr, SharedLabels, SharedRow, SharedStmt};
use std::alloc::Global;
use std::rc::Rc;

/// Behind the statements of a block.
pub fn row_end(alloc: Global, all: &Rc<SharedRow>, k: &Rc<Todo>) -> Result<Rc<Todo>, NoMemory>
    ensures { IfOk result (λ inside. todo_of inside.value ≡ control.then_end (declared (row_of all.now.value)) (todo_of k.now.value)) }
{
    Ok(Rc::new(alloc, Todo::ThenEnd(all.clone()?, k.clone()?))?)
}

/// Behind a statement of a row, before the one at a place.
pub fn row_rest(
    alloc: Global,
    all: &Rc<SharedRow>,
    from: usize,
    k: &Rc<Todo>,
) -> Result<Rc<Todo>, NoMemory>
    ensures { IfOk result (λ inside. todo_of inside.value ≡ control.then_row (row_from all.now.value from) (todo_of k.now.value)) }
{
    Ok(Rc::new(alloc, Todo::ThenRow(all.clone()?, from, k.clone()?))?)
}

/// Behind a `for` whose first clause this is.
pub fn for_end(alloc: Global, first: &Rc<SharedStmt>, k: &Rc<Todo>) -> Result<Rc<Todo>, NoMemory>
    ensures { IfOk result (λ inside. todo_of inside.value ≡ control.then_end (declared_by (stmt_of first.now.value) []) (todo_of k.now.value)) }
{
    Ok(Rc::new(alloc, Todo::ThenEndFirst(first.clone()?, k.clone()?))?)
}

/// Behind the first clause of a `for`.
pub fn first_end(alloc: Global, l: &Rc<LoopParts>, k: &Rc<Todo>) -> Result<Rc<Todo>, NoMemory>
    ensures { IfOk result (λ inside. todo_of inside.value ≡ control.then_loop (loop_of l.now.value) (todo_of k.now.value)) }
{
    Ok(Rc::new(alloc, Todo::ThenLoop(l.clone()?, k.clone()?))?)
}

/// Behind the body of a loop.
pub fn body_end(alloc: Global, l: &Rc<LoopParts>, k: &Rc<Todo>) -> Result<Rc<Todo>, NoMemory>
    ensures { IfOk result (λ inside. todo_of inside.value ≡ control.in_body (loop_of l.now.value) (todo_of k.now.value)) }
{
    Ok(Rc::new(alloc, Todo::InBody(l.clone()?, k.clone()?))?)
}

/// Behind the step of a loop.
pub fn step_end(alloc: Global, l: &Rc<LoopParts>, k: &Rc<Todo>) -> Result<Rc<Todo>, NoMemory>
    ensures { IfOk result (λ inside. todo_of inside.value ≡ control.in_step (loop_of l.now.value) (todo_of k.now.value)) }
{
    Ok(Rc::new(alloc, Todo::InStep(l.clone()?, k.clone()?))?)
}

/// Behind the condition of a loop.
pub fn condition_end(
    alloc: Global,
    c: &Rc<SharedExpr>,
    l: &Rc<LoopParts>,
    k: &Rc<Todo>,
) -> Result<Rc<Use>, NoMemory>
    ensures { IfOk result (λ after. use_of after.value ≡ control.loop_test (place_of (expr_of c.now.value)) (loop_of l.now.value) (todo_of k.now.value)) }
{
    Ok(Rc::new(alloc, Use::LoopTest(c.place, l.clone()?, k.clone()?))?)
}

/// Behind the value that chooses a label of a `switch`.
pub fn label_end(
    alloc: Global,
    labels: &Rc<SharedLabels>,
    body: &Rc<SharedRow>,
    k: &Rc<Todo>,
) -> Result<Rc<Use>, NoMemory>
    ensures { IfOk result (λ after. use_of after.value ≡ control.switch_test (labels_of labels.now.value) (row_of body.now.value) (todo_of k.now.value)) }
{
    Ok(Rc::new(
        alloc,
        Use::SwitchTest(labels.clone()?, body.clone()?, k.clone()?),
    )?)
}

/// Behind the statements of a `switch`.
pub fn switch_end(alloc: Global, k: &Rc<Todo>) -> Result<Rc<Todo>, NoMemory>
    ensures { IfOk result (λ inside. todo_of inside.value ≡ control.in_switch (todo_of k.now.value)) }
{
    Ok(Rc::new(alloc, Todo::InSwitch(k.clone()?))?)
}

/// The end of a round.
pub fn round_end(l: &Rc<LoopParts>, k: &Rc<Todo>) -> Result<Pending, NoMemory>
    ensures { IfOk result (λ q. EndsRound (loop_of l.now.value) (todo_of k.now.value) q) }
{
    Ok(Pending::Round(l.clone()?, k.clone()?))
}
