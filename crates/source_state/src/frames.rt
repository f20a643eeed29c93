//! What is left to do behind an expression, one frame more.

ghost use Rattle.std.specs.Prelude.{◌≡◌, ◌∷◌, [], ◌++◌, IfOk};
ghost use Rattle.c_meaning.specs.Control as control;
ghost use Rattle.source_tree.specs.SharedViews.{expr_of, args_of};
ghost use Rattle.source_state.specs.Operations.{unary_of, binary_of};
ghost use Rattle.source_state.specs.Views.{use_of, todo_of, wait_of, values_of, callee_of};

use crate::control::{Site, Todo, Use, Values, Wait};
use crate::operations::{Binary, Unary};
use ak_words::NoMemory;
use block_store::{Access, Value};
use source_tree::tree::{Callee, SharedArgs, SharedExpr};
use std::alloc::Global;
use std::rc::Rc;

/// Behind the left operand of an operation.
pub fn after_first(
    alloc: Global,
    place: u32,
    op: Binary,
    right: &Rc<SharedExpr>,
    k: &Rc<Use>,
) -> Result<Rc<Use>, NoMemory>
    ensures { IfOk result (λ after. use_of after.value ≡ control.first_of place (binary_of op) (expr_of right.now.value) (use_of k.now.value)) }
{
    Ok(Rc::new(alloc, Use::FirstOf(place, op, right.clone()?, k.clone()?))?)
}

/// Behind the right operand of an operation, whose left one is there.
pub fn after_second(
    alloc: Global,
    place: u32,
    op: Binary,
    left: Value,
    k: &Rc<Use>,
) -> Result<Rc<Use>, NoMemory>
    ensures { IfOk result (λ after. use_of after.value ≡ control.second_of place (binary_of op) left (use_of k.now.value)) }
{
    Ok(Rc::new(alloc, Use::SecondOf(place, op, left, k.clone()?))?)
}

/// Behind the only operand of an operation.
pub fn after_only(
    alloc: Global,
    place: u32,
    op: &Rc<Unary>,
    k: &Rc<Use>,
) -> Result<Rc<Use>, NoMemory>
    ensures { IfOk result (λ after. use_of after.value ≡ control.only_of place (unary_of op.now.value) (use_of k.now.value)) }
{
    Ok(Rc::new(alloc, Use::OnlyOf(place, op.clone()?, k.clone()?))?)
}

/// Behind the place that is read.
pub fn after_place(alloc: Global, site: Site, how: Access, k: &Rc<Use>) -> Result<Rc<Use>, NoMemory>
    ensures { IfOk result (λ after. use_of after.value ≡ control.place_read site.place how site.atomic (use_of k.now.value)) }
{
    Ok(Rc::new(alloc, Use::PlaceRead(site, how, k.clone()?))?)
}

/// Behind the left operand of `&&` or `||`.
pub fn after_first_test(
    alloc: Global,
    place: u32,
    decides: bool,
    right: &Rc<SharedExpr>,
    k: &Rc<Use>,
) -> Result<Rc<Use>, NoMemory>
    ensures { IfOk result (λ after. use_of after.value ≡ control.first_test place decides (expr_of right.now.value) (use_of k.now.value)) }
{
    Ok(Rc::new(
        alloc,
        Use::FirstTest(place, decides, right.clone()?, k.clone()?),
    )?)
}

/// Behind the right operand of `&&` or `||`.
pub fn after_second_test(alloc: Global, place: u32, k: &Rc<Use>) -> Result<Rc<Use>, NoMemory>
    ensures { IfOk result (λ after. use_of after.value ≡ control.second_test place (use_of k.now.value)) }
{
    Ok(Rc::new(alloc, Use::SecondTest(place, k.clone()?))?)
}

/// Behind the condition of `?:`.
pub fn after_choice(
    alloc: Global,
    place: u32,
    one: &Rc<SharedExpr>,
    other: &Rc<SharedExpr>,
    k: &Rc<Use>,
) -> Result<Rc<Use>, NoMemory>
    ensures { IfOk result (λ after. use_of after.value ≡ control.choice place (expr_of one.now.value) (expr_of other.now.value) (use_of k.now.value)) }
{
    Ok(Rc::new(
        alloc,
        Use::Choice(place, one.clone()?, other.clone()?, k.clone()?),
    )?)
}

/// Behind an argument of a call.
pub fn after_argument(
    alloc: Global,
    place: u32,
    callee: &Rc<Callee>,
    before: &Rc<Values>,
    rest: &Rc<SharedArgs>,
    wait: &Wait,
) -> Result<Rc<Use>, NoMemory>
    ensures { IfOk result (λ after. use_of after.value ≡ control.argument place (callee_of callee.now.value) (values_of before.now.value) (args_of rest.now.value) (wait_of wait.now)) }
{
    match wait {
        Wait::Wanted(at, k) => wanted_argument(alloc, place, callee, before, rest, *at, k),
        Wait::Dropped(k) => dropped_argument(alloc, place, callee, before, rest, k),
    }
}

// Behind an argument of a call whose value is used.
fn wanted_argument(
    alloc: Global,
    place: u32,
    callee: &Rc<Callee>,
    before: &Rc<Values>,
    rest: &Rc<SharedArgs>,
    at: u32,
    k: &Rc<Use>,
) -> Result<Rc<Use>, NoMemory>
    ensures { IfOk result (λ after. use_of after.value ≡ control.argument place (callee_of callee.now.value) (values_of before.now.value) (args_of rest.now.value) (control.wanted at (use_of k.now.value))) }
{
    let callee = callee.clone()?;
    let before = before.clone()?;
    let rest = rest.clone()?;
    let k = k.clone()?;
    Ok(Rc::new(alloc, Use::Argument(place, callee, before, rest, at, k))?)
}

// Behind an argument of a call whose value is dropped.
fn dropped_argument(
    alloc: Global,
    place: u32,
    callee: &Rc<Callee>,
    before: &Rc<Values>,
    rest: &Rc<SharedArgs>,
    k: &Rc<Todo>,
) -> Result<Rc<Use>, NoMemory>
    ensures { IfOk result (λ after. use_of after.value ≡ control.argument place (callee_of callee.now.value) (values_of before.now.value) (args_of rest.now.value) (control.dropped (todo_of k.now.value))) }
{
    let callee = callee.clone()?;
    let before = before.clone()?;
    let rest = rest.clone()?;
    let k = k.clone()?;
    Ok(Rc::new(alloc, Use::DroppedArgument(place, callee, before, rest, k))?)
}

/// Values with one more at their end.
pub fn one_more(alloc: Global, v: Value, before: &Rc<Values>) -> Result<Rc<Values>, NoMemory>
    ensures { IfOk result (λ values. values_of values.value ≡ values_of before.now.value ++ v ∷ []) }
{
    Ok(Rc::new(alloc, Values::More(v, before.clone()?))?)
}

/// What waits for a call's value, again.
pub fn same_wait(wait: &Wait) -> Result<Wait, NoMemory>
    ensures { IfOk result (λ same. wait_of same ≡ wait_of wait.now) }
{
    match wait {
        Wait::Wanted(place, k) => Ok(Wait::Wanted(*place, k.clone()?)),
        Wait::Dropped(k) => Ok(Wait::Dropped(k.clone()?)),
    }
}
