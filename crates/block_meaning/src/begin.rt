//! How calls and threads begin.

ghost use Rattle.std.specs.Prelude.{◌≡◌, IfOk, map, slice_get, replicate, Some, None};
ghost use Rattle.block_store.specs.declared.values.Ptr.{Ptr};
ghost use Rattle.c_meaning.specs.Control as control;
ghost use Rattle.c_meaning.specs.Meaning.{begins_if, arguments_if};
ghost use Rattle.c_meaning.specs.Turns.{first_locals};
ghost use Rattle.source_tree.specs.SharedViews.{func_of, program_of, row_of};
ghost use Rattle.source_state.specs.Variables.{variable_of};
ghost use Rattle.source_state.specs.Views.{todo_of};
ghost use Rattle.block_meaning.specs.Threads.{control_of};

use crate::thread::{At, Own};
use crate::touch_list::Touches;
use ak_words::NoMemory;
use block_store::{Ptr, Value};
use source_state::control::Todo;
use source_state::{Locals, Variable};
use source_tree::tree::{SharedFunc, SharedProgram};
use std::alloc::Global;
use std::rc::Rc;

// Locals that have these values, in order.
fn holding(alloc: Global, args: &[Value]) -> Result<Vec<Variable>, NoMemory>
    ensures { IfOk result (λ locals. map variable_of locals.items ≡ map control.holds args.now) }
{
    let mut locals = Vec::new(alloc);
    'arguments: for arg in args {
        locals.push(Variable::Holds(*arg))?;
    }
    Ok(locals)
}

// So many locals that have neither a value nor a block.
#[tactic(auto, using(crate::proofs::Begins::all_unset))]
fn unset(alloc: Global, count: usize) -> Result<Vec<Variable>, NoMemory>
    ensures { IfOk result (λ locals. map variable_of locals.items ≡ replicate count control.unset) }
{
    Ok(vec![in alloc; Variable::Unset; count]?)
}

/// The locals of a function's call: its parameters have the arguments' values, the others none (C11 6.9.1 p10).
pub fn first_locals(
    alloc: Global,
    f: &SharedFunc,
    args: &[Value],
) -> Result<Vec<Variable>, NoMemory>
    ensures { IfOk result (λ locals. map variable_of locals.items ≡ first_locals (func_of f.now) args.now) }
{
    let mut locals = holding(alloc, args)?;
    let others = unset(alloc, f.locals.len().saturating_sub(args.len()))?;
    locals.extend_from_slice(&others)?;
    Ok(locals)
}

/// What a call of a function has left to do at its begin: its whole body.
pub fn whole_body(alloc: Global, f: &SharedFunc) -> Result<Rc<Todo>, NoMemory>
    ensures { IfOk result (λ k. todo_of k.value ≡ control.then_row (row_of f.now.body.value) control.leaves) }
{
    let leaves = Rc::new(alloc, Todo::Leaves)?;
    Ok(Rc::new(alloc, Todo::ThenRow(f.body.clone()?, 0, leaves))?)
}

/// What a new thread has of its own, which begins with a function and its argument.
pub fn begun(
    alloc: Global,
    program: &SharedProgram,
    function: u32,
    argument: Ptr,
) -> Result<Own, NoMemory>
    ensures { IfOk result (λ own. control_of own ≡ begins_if function argument (slice_get (program_of program.now).funcs function)) }
{
    match program.funcs.get(function as usize) {
        None => {
            let nowhere = begun_nowhere(alloc, function)?;
            Ok(nowhere)
        }
        Some(f) => {
            let inside = begun_in(alloc, f, function, argument)?;
            Ok(inside)
        }
    }
}

// A thread of a function that the program doesn't have: it leaves at once.
fn begun_nowhere(alloc: Global, function: u32) -> Result<Own, NoMemory>
    ensures { IfOk result (λ own. (argument : Ptr) → control_of own ≡ begins_if function argument None) }
{
    let leaves = Rc::new(alloc, Todo::Leaves)?;
    Ok(Own {
        function,
        locals: Locals::new(alloc, Vec::new(alloc)),
        at: At::Begins(leaves),
        callers: Vec::new(alloc),
        touched: Touches::None,
    })
}

// A thread before the first statement of its function.
fn begun_in(alloc: Global, f: &SharedFunc, function: u32, argument: Ptr) -> Result<Own, NoMemory>
    ensures { IfOk result (λ own. control_of own ≡ begins_if function argument (Some (func_of f.now))) }
{
    let args = arguments(alloc, f.params, argument)?;
    let locals = first_locals(alloc, f, &args)?;
    let body = whole_body(alloc, f)?;
    Ok(Own {
        function,
        locals: Locals::new(alloc, locals),
        at: At::Begins(body),
        callers: Vec::new(alloc),
        touched: Touches::None,
    })
}

// The argument of a thread's first function, if it takes one.
#[tactic(auto, using(crate::proofs::Begins::one_argument))]
fn arguments(alloc: Global, params: u32, argument: Ptr) -> Result<Vec<Value>, NoMemory>
    ensures { IfOk result (λ args. args.items ≡ arguments_if params argument) }
{
    let mut args = Vec::new(alloc);
    if params == 0 {
        return Ok(args);
    }
    args.push(Value::Pointer(argument))?;
    Ok(args)
}
