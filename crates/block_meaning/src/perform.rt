//! What ends a turn, carried out.

ghost use Rattle.std.specs.Prelude.{◌≡◌, ◌∷◌, [], IfOk, OnOk, MatchOption, map};
ghost use Rattle.block_store.specs.Actions as actions;
ghost use Rattle.block_store.specs.declared.values.Answer.TheVariants as answers;
ghost use Rattle.c_meaning.specs.Library as library;
ghost use Rattle.c_meaning.specs.Turns as turns;
ghost use Rattle.c_tree.specs.TypedViews.{lib_view};
ghost use Rattle.source_tree.specs.SharedViews.{func_of};
ghost use Rattle.source_state.specs.declared.control.Pending.TheVariants as pendings;
ghost use Rattle.source_state.specs.Variables.{variable_of};
ghost use Rattle.source_state.specs.Views.{callee_of, values_of, wait_of};
ghost use Rattle.source_expressions.specs.Ends.{Rest, here_at, after_library, point_of};
ghost use Rattle.source_state.specs.Worlds.{world_of};
ghost use Rattle.block_meaning.specs.Threads.{point_of_at, caller_of, callers_of, control_of};
ghost use Rattle.block_meaning.specs.inner.Turns.{turn_of, rest_of, ends_in, IsTurned, Untouched};

use crate::begin::{first_locals, whole_body};
use crate::thread::{At, Caller, Outcome, Own};
use crate::touch_list::Touches;
use crate::touches::{compare_of, finish, gather};
use ak_words::{NoMemory, Num};
use block_store::{Answer, Value};
use c_tree::typed::Lib;
use source_expressions::list_of;
use source_state::control::{LoopParts, Pending, Site, Then, Todo, Values, Wait};
use source_state::{Done, KeptStore, Locals, SharedAction, Variable, World};
use source_tree::tree::{Callee, SharedFunc, SharedProgram};
use std::alloc::Global;
use std::mem;
use std::rc::Rc;

// Where a call's value, or its want, leads to.
fn after_call(wait: Wait, v: Option<Value>) -> At
    ensures { point_of_at result ≡ turns.after_call (wait_of wait) v }
{
    match wait {
        Wait::Wanted(place, k) => match v {
            Some(v) => At::Gives(v, k),
            None => At::Lacks(place),
        },
        Wait::Dropped(k) => At::Begins(k),
    }
}

// The first of a call's arguments, if there is one.
#[tactic(auto, using(crate::proofs::Calls::first_is))]
fn first_argument(alloc: Global, args: &Values) -> Result<Option<Value>, NoMemory>
    ensures { IfOk result (λ first. first ≡ library.first_of_all (values_of args.now)) }
{
    let list = list_of(alloc, args)?;
    Ok(list.first().copied())
}

// The value of a call of the library, by the value of its action.
fn value_of_call(
    alloc: Global,
    lib: &Lib,
    args: &Values,
    v: Option<Value>,
) -> Result<Option<Value>, NoMemory>
    ensures { IfOk result (λ value. value ≡ library.value_of_call (lib_view lib.now) (values_of args.now) v) }
{
    match lib {
        Lib::Copy => {
            let first = first_argument(alloc, args)?;
            Ok(first)
        }
        Lib::MutexInit => Ok(Some(Value::Num(Num::int(0)))),
        Lib::MutexLock => Ok(Some(Value::Num(Num::int(0)))),
        Lib::MutexUnlock => Ok(Some(Value::Num(Num::int(0)))),
        Lib::Print(_) => Ok(v),
        Lib::Malloc => Ok(v),
        Lib::Calloc => Ok(v),
        Lib::Realloc => Ok(v),
        Lib::Free => Ok(v),
        Lib::Start(_) => Ok(v),
        Lib::Join => Ok(v),
        Lib::MutexDestroy => Ok(v),
        Lib::AtomicAdd => Ok(v),
        Lib::AtomicSub => Ok(v),
        Lib::AtomicSwap => Ok(v),
        Lib::AtomicCompare => Ok(v),
        Lib::AtomicStore => Ok(v),
    }
}

// Where a call leads to, by the value of its action.
fn after_library(
    alloc: Global,
    callee: &Callee,
    args: &Values,
    wait: Wait,
    v: Option<Value>,
) -> Result<At, NoMemory>
    ensures { IfOk result (λ at. point_of_at at ≡ after_library (callee_of callee.now) (values_of args.now) (wait_of wait) v) }
{
    match callee {
        Callee::Function(_) => {
            let plain_at = after_call(wait, v);
            Ok(plain_at)
        }
        Callee::Library(lib) => {
            let value = value_of_call(alloc, lib, args, v)?;
            let at = after_call(wait, value);
            Ok(at)
        }
    }
}

// Where a thread goes on behind an action.
fn after_action(alloc: Global, then: Then, v: Option<Value>) -> Result<At, NoMemory>
    ensures { IfOk result (λ at. point_of_at at ≡ point_of then v) }
{
    match then {
        Then::Gives(place, k) => {
            let given = after_call(Wait::Wanted(place, k), v);
            Ok(given)
        }
        Then::Begins(k) => Ok(At::Begins(k)),
        Then::Returns(callee, args, wait) => {
            let returned = after_library(alloc, &callee, &args, wait, v)?;
            Ok(returned)
        }
    }
}

// An action.
fn act(
    own: &mut Own,
    world: &mut World,
    alloc: Global,
    program: &SharedProgram,
    thread: u32,
    answer: Answer,
    site: Site,
    action: SharedAction,
    then: Then,
) -> Result<Outcome, NoMemory>
    ensures turned { IfOk result (λ o. turn_of o own.new world.new ≡ ends_in program.now thread answer own.old world.old (pendings.Act site action then)) }
    ensures untouched { IfOk result (λ o. Untouched o own.old own.new world.old world.new) }
{
    let gathered = gather(alloc, world, answer, site, &action)?;
    let compared = compare_of(&action);
    match world.act(alloc, thread, answer, action)? {
        Done::Went(v) => {
            let touched = finish(gathered, compared, v)?;
            let at = after_action(alloc, then, v)?;
            own.at = at;
            own.touched = touched;
            Ok(Outcome::Went)
        }
        Done::Blocked => Ok(Outcome::Blocked),
        Done::Unfit => Ok(Outcome::Unfit),
        Done::Broke(rule) => Ok(Outcome::Broke(rule, site.place)),
    }
}

// A call that waits from now on.
fn wait(callers: &mut Vec<Caller>, caller: Caller) -> Result<(), NoMemory>
    ensures { OnOk result (callers_of callers.new ≡ caller_of caller ∷ callers_of callers.old) }
{
    callers.push(caller)?;
    Ok(())
}

// A call of a function of the program.
fn enter(
    own: &mut Own,
    world: &World,
    alloc: Global,
    program: &SharedProgram,
    thread: u32,
    answer: Answer,
    number: u32,
    args: Rc<Values>,
    waits: Wait,
) -> Result<Outcome, NoMemory>
    ensures turned { IfOk result (λ o. turn_of o own.new world.now ≡ ends_in program.now thread answer own.old world.now (pendings.Enter number args waits)) }
    ensures untouched { IfOk result (λ o. Untouched o own.old own.new world.now world.now) }
{
    let _world = world;
    match program.funcs.get(number as usize) {
        None => Ok(Outcome::Unfit),
        Some(f) => match answer {
            Answer::Got => Ok(Outcome::Unfit),
            Answer::None => Ok(Outcome::Unfit),
            Answer::Plain => {
                enter_in(own, alloc, f, number, &args, waits)?;
                Ok(Outcome::Went)
            }
        },
    }
}

// The call under way waits for that of a function, which begins.
fn enter_in(
    own: &mut Own,
    alloc: Global,
    f: &SharedFunc,
    number: u32,
    args: &Values,
    waits: Wait,
) -> Result<(), NoMemory>
    ensures { OnOk result (control_of own.new ≡ turns.begins_in number (func_of f.now) (values_of args.now) (record { function = own.old.function; locals = own.old.locals.now; wait = wait_of waits } ∷ callers_of own.old.callers)) }
{
    let list = list_of(alloc, args)?;
    let locals = first_locals(alloc, f, &list)?;
    let body = whole_body(alloc, f)?;
    let caller = Caller {
        function: own.function,
        locals: mem::replace(&mut own.locals, Locals::new(alloc, locals)),
        wait: waits,
    };
    wait(&mut own.callers, caller)?;
    own.function = number;
    own.at = At::Begins(body);
    own.touched = Touches::None;
    Ok(())
}

// The end of a loop's round.
fn end_round(
    own: &mut Own,
    world: &World,
    program: &SharedProgram,
    thread: u32,
    answer: Answer,
    l: Rc<LoopParts>,
    k: Rc<Todo>,
) -> Outcome
    ensures turned { turn_of result own.new world.now ≡ ends_in program.now thread answer own.old world.now (pendings.Round l k) }
    ensures untouched { Untouched result own.old own.new world.now world.now }
{
    let _world = world;
    match answer {
        Answer::Got => Outcome::Unfit,
        Answer::None => Outcome::Unfit,
        Answer::Plain => {
            own.at = At::Round(l, k);
            own.touched = Touches::None;
            Outcome::Went
        }
    }
}

// The value that a function ends with: main gives 0 where it has none.
fn result_of_call(program: &SharedProgram, function: u32, v: Option<Value>) -> Option<Value>
    ensures { (r : Rest) → result ≡ turns.result_of_call (here_at program.now function r) v }
{
    match v {
        Some(v) => Some(v),
        None => {
            if function == program.main {
                Some(Value::Num(Num::int(0)))
            } else {
                None
            }
        }
    }
}

// The block of a local ends, if it has one.
fn end_block(variable: Variable, store: &mut KeptStore) -> Result<(), NoMemory>
    ensures now { OnOk result ((x : actions.World) → turns.without_block (variable_of variable) (actions.with_blocks x store.old.now) ≡ actions.with_blocks x store.new.now) }
    ensures kept { OnOk result (store.new.kept ≡ store.old.kept) }
{
    match variable {
        Variable::Unset => Ok(()),
        Variable::Holds(_) => Ok(()),
        Variable::Lies(block) => {
            store.end(block)?;
            Ok(())
        }
    }
}

// The blocks of a call's locals end.
fn end_blocks(variables: &[Variable], store: &mut KeptStore) -> Result<(), NoMemory>
    ensures now { OnOk result ((x : actions.World) → turns.without_blocks (map variable_of variables.now) (actions.with_blocks x store.old.now) ≡ actions.with_blocks x store.new.now) }
    ensures kept { OnOk result (store.new.kept ≡ store.old.kept) }
{
    'ended: for variable in variables {
        end_block(*variable, store)?;
    }
    Ok(())
}

// The call that waits for the one under way, if there is one.
#[tactic(auto, using(crate::proofs::Calls::nearest))]
fn last_caller(callers: &mut Vec<Caller>) -> Option<Caller>
    ensures { MatchOption result (callers_of callers.old ≡ []) (λ c. callers_of callers.old ≡ caller_of c ∷ callers_of callers.new) }
{
    callers.pop()
}

// A call whose locals have ended gives its value to the one that waits, or its thread ends.
fn go_back(
    own: &mut Own,
    world: &mut World,
    alloc: Global,
    program: &SharedProgram,
    thread: u32,
    value: Option<Value>,
) -> Result<Outcome, NoMemory>
    ensures comes { IfOk result (λ o. turn_of o own.new world.new ≡ turns.returns_to (here_at program.now own.old.function (rest_of thread answers.Plain own.old)) value (world_of world.old) (callers_of own.old.callers)) }
    ensures turned { IfOk result IsTurned }
{
    let _program = program;
    match last_caller(&mut own.callers) {
        None => {
            let value = number_in(value);
            let _done = world.act(alloc, thread, Answer::Plain, SharedAction::Finish(value))?;
            Ok(Outcome::Ended)
        }
        Some(
            Caller {
                function,
                locals,
                wait,
            },
        ) => {
            own.function = function;
            own.locals = locals;
            let at = after_call(wait, value);
            own.at = at;
            own.touched = Touches::None;
            Ok(Outcome::Went)
        }
    }
}

// The end of a call.
#[tactic(auto, using(crate::proofs::Calls::got_leaves, crate::proofs::Calls::none_leaves))]
fn leave(
    own: &mut Own,
    world: &mut World,
    alloc: Global,
    program: &SharedProgram,
    thread: u32,
    answer: Answer,
    v: Option<Value>,
) -> Result<Outcome, NoMemory>
    ensures turned { IfOk result (λ o. turn_of o own.new world.new ≡ ends_in program.now thread answer own.old world.old (pendings.Leave v)) }
    ensures untouched { IfOk result (λ o. Untouched o own.old own.new world.old world.new) }
{
    match answer {
        Answer::Got => Ok(Outcome::Unfit),
        Answer::None => Ok(Outcome::Unfit),
        Answer::Plain => {
            let value = result_of_call(program, own.function, v);
            end_blocks(own.locals.variables(), &mut world.store)?;
            let o = go_back(own, world, alloc, program, thread, value)?;
            Ok(o)
        }
    }
}

// The number that a value is.
fn number_in(v: Option<Value>) -> Option<i128>
    ensures { result ≡ turns.number_in v }
{
    match v {
        Some(Value::Num(n)) => Some(n.value),
        Some(Value::Pointer(_)) => None,
        None => None,
    }
}

/// What ends a turn, carried out: the thread goes on, has ended, waits, doesn't take the answer, or breaks a rule; where
/// it comes to nothing, the thread and the world are as they were.
pub fn perform(
    own: &mut Own,
    world: &mut World,
    alloc: Global,
    program: &SharedProgram,
    thread: u32,
    answer: Answer,
    q: Pending,
) -> Result<Outcome, NoMemory>
    ensures turned { IfOk result (λ o. turn_of o own.new world.new ≡ ends_in program.now thread answer own.old world.old q) }
    ensures untouched { IfOk result (λ o. Untouched o own.old own.new world.old world.new) }
{
    match q {
        Pending::Broke(rule, place) => Ok(Outcome::Broke(rule, place)),
        Pending::Act(site, action, then) => {
            let acted = act(
                own, world, alloc, program, thread, answer, site, action, then,
            )?;
            Ok(acted)
        }
        Pending::Round(l, k) => {
            let over = end_round(own, world, program, thread, answer, l, k);
            Ok(over)
        }
        Pending::Enter(number, args, waits) => {
            let entered = enter(
                own, world, alloc, program, thread, answer, number, args, waits,
            )?;
            Ok(entered)
        }
        Pending::Leave(v) => {
            let o = leave(own, world, alloc, program, thread, answer, v)?;
            Ok(o)
        }
        Pending::Unfit => Ok(Outcome::Unfit),
    }
}
