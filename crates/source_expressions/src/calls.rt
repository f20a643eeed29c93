//! What a call does once its arguments are there.

ghost use Rattle.std.specs.Prelude.{◌≡◌, ◌*◌, unsigned_abs, IfOk};
ghost use Rattle.std.specs.Option.{option_map};
ghost use Rattle.c_tree.specs.Typed as tree;
ghost use Rattle.c_tree.specs.TypedViews.{lib_view};
ghost use Rattle.c_meaning.specs.Library as library;
ghost use Rattle.c_meaning.specs.Library.{names_atomic};
ghost use Rattle.source_state.specs.Worlds.{action_of};
ghost use Rattle.source_state.specs.Views.{callee_of, values_of, wait_of};
ghost use Rattle.source_expressions.specs.Ends.{Calls};

use crate::printing::printed;
use ak_words::{IntType, NoMemory, Num};
use block_store::{Cell, Change, Ptr, Value};
use c_tree::typed::Lib;
use source_state::SharedAction;
use source_state::control::{Pending, Site, Then, Values, Wait};
use source_state::frames::same_wait;
use source_tree::tree::Callee;
use source_values::addend;
use std::alloc::Global;
use std::rc::Rc;

/// A list of values in order.
pub fn list_of(alloc: Global, values: &Values) -> Result<Vec<Value>, NoMemory>
    ensures { IfOk result (λ list. list.items ≡ values_of values.now) }
{
    match values {
        Values::None => Ok(Vec::new(alloc)),
        Values::More(v, before) => {
            let mut list = list_of(alloc, before)?;
            list.push(*v)?;
            Ok(list)
        }
    }
}

// `malloc`
fn allocation(args: &[Value]) -> Option<SharedAction>
    ensures { option_map action_of result ≡ library.action_of tree.malloc args.now }
{
    match args {
        [size] => match *size {
            Value::Num(n) => Some(SharedAction::Allocate(n.value.unsigned_abs(), Cell::Unknown)),
            Value::Pointer(_) => None,
        },
        _ => None,
    }
}

// `calloc`
fn zeroed_allocation(args: &[Value]) -> Option<SharedAction>
    ensures { option_map action_of result ≡ library.action_of tree.calloc args.now }
{
    match args {
        [count, size] => match (*count, *size) {
            (Value::Num(count), Value::Num(size)) => {
                Some(SharedAction::Allocate(product(count, size), Cell::Byte(0)))
            }
            (_, _) => None,
        },
        _ => None,
    }
}

// The product of two numbers' absolute values.
fn product(count: Num, size: Num) -> u128
    ensures { result ≡ unsigned_abs count.value * unsigned_abs size.value }
{
    count.value.unsigned_abs() * size.value.unsigned_abs()
}

// `realloc`
fn reallocation(args: &[Value]) -> Option<SharedAction>
    ensures { option_map action_of result ≡ library.action_of tree.realloc args.now }
{
    match args {
        [block, size] => match (*block, *size) {
            (Value::Pointer(p), Value::Num(n)) => {
                Some(SharedAction::Reallocate(p, n.value.unsigned_abs()))
            }
            (_, _) => None,
        },
        _ => None,
    }
}

// `free`
fn freeing(args: &[Value]) -> Option<SharedAction>
    ensures { option_map action_of result ≡ library.action_of tree.free args.now }
{
    match args {
        [Value::Pointer(p)] => Some(SharedAction::Free(*p)),
        _ => None,
    }
}

// `atomic_fetch_add`
fn adding(args: &[Value]) -> Option<SharedAction>
    ensures { option_map action_of result ≡ library.action_of tree.atomic_add args.now }
{
    match args {
        [at, by] => match (*at, *by) {
            (Value::Pointer(p), Value::Num(n)) => Some(sum(p, false, n)),
            (_, _) => None,
        },
        _ => None,
    }
}

// `atomic_fetch_sub`
fn taking_away(args: &[Value]) -> Option<SharedAction>
    ensures { option_map action_of result ≡ library.action_of tree.atomic_sub args.now }
{
    match args {
        [at, by] => match (*at, *by) {
            (Value::Pointer(p), Value::Num(n)) => Some(sum(p, true, n)),
            (_, _) => None,
        },
        _ => None,
    }
}

// A number is added to an atomic one, or taken away.
fn sum(at: Ptr, away: bool, n: Num) -> SharedAction
    ensures { action_of result ≡ library.adds at (library.addend away n) }
{
    SharedAction::Change(at, Change::Add, addend(away, n))
}

// `atomic_exchange`
fn exchanging(args: &[Value]) -> Option<SharedAction>
    ensures { option_map action_of result ≡ library.action_of tree.atomic_swap args.now }
{
    match args {
        [at, by] => match (*at, *by) {
            (Value::Pointer(p), Value::Num(n)) => Some(SharedAction::Change(p, Change::Swap, n)),
            (_, _) => None,
        },
        _ => None,
    }
}

// `atomic_compare_exchange_strong`, and the weak one, which never fails by itself
fn comparing(args: &[Value]) -> Option<SharedAction>
    ensures { option_map action_of result ≡ library.action_of tree.atomic_compare args.now }
{
    match args {
        [at, want, new] => match (*at, *want, *new) {
            (Value::Pointer(p), Value::Pointer(q), Value::Num(n)) => {
                Some(SharedAction::Compare(p, q, n))
            }
            (_, _, _) => None,
        },
        _ => None,
    }
}

// `atomic_store`
fn storing(args: &[Value]) -> Option<SharedAction>
    ensures { option_map action_of result ≡ library.action_of tree.atomic_store args.now }
{
    match args {
        [at, by] => match (*at, *by) {
            (Value::Pointer(p), Value::Num(n)) => Some(SharedAction::Store(p, Value::Num(n))),
            (_, _) => None,
        },
        _ => None,
    }
}

// `memcpy`
fn copying(args: &[Value]) -> Option<SharedAction>
    ensures { option_map action_of result ≡ library.action_of tree.copy args.now }
{
    match args {
        [to, from, n] => match (*to, *from, *n) {
            (Value::Pointer(to), Value::Pointer(from), Value::Num(n)) => {
                Some(SharedAction::Copy(to, from, n.value.unsigned_abs(), 1, false))
            }
            (_, _, _) => None,
        },
        _ => None,
    }
}

// `thrd_create`
fn starting(function: u32, args: &[Value]) -> Option<SharedAction>
    ensures { option_map action_of result ≡ library.action_of (tree.start function) args.now }
{
    match args {
        [Value::Pointer(to), Value::Pointer(argument)] => Some(SharedAction::Start(
            *to, function, *argument,
        )),
        _ => None,
    }
}

// `thrd_join`
fn joining(args: &[Value]) -> Option<SharedAction>
    ensures { option_map action_of result ≡ library.action_of tree.join args.now }
{
    match args {
        [thread, to] => match (*thread, *to) {
            (Value::Num(thread), Value::Pointer(to)) => {
                Some(SharedAction::Join(thread.value.unsigned_abs(), to))
            }
            (_, _) => None,
        },
        _ => None,
    }
}

// `mtx_init`
fn initialising(args: &[Value]) -> Option<SharedAction>
    ensures { option_map action_of result ≡ library.action_of tree.mutex_init args.now }
{
    match args {
        [Value::Pointer(p)] => Some(SharedAction::Store(*p, free_mutex())),
        _ => None,
    }
}

// `mtx_lock`
fn locking(args: &[Value]) -> Option<SharedAction>
    ensures { option_map action_of result ≡ library.action_of tree.mutex_lock args.now }
{
    match args {
        [Value::Pointer(p)] => Some(SharedAction::Lock(*p)),
        _ => None,
    }
}

// `mtx_unlock`
fn unlocking(args: &[Value]) -> Option<SharedAction>
    ensures { option_map action_of result ≡ library.action_of tree.mutex_unlock args.now }
{
    match args {
        [Value::Pointer(p)] => Some(SharedAction::Unlock(*p)),
        _ => None,
    }
}

// `mtx_destroy`
fn destroying(args: &[Value]) -> Option<SharedAction>
    ensures { option_map action_of result ≡ library.action_of tree.mutex_destroy args.now }
{
    match args {
        [Value::Pointer(p)] => Some(SharedAction::Destroy(*p)),
        _ => None,
    }
}

// The zero bytes of a free mutex.
fn free_mutex() -> Value
    ensures { result ≡ library.free_mutex }
{
    Value::Num(Num::wrapping(IntType::unsigned_long(), 0))
}

// What a call of the library does.
fn action(alloc: Global, lib: &Lib, args: &[Value]) -> Result<Option<SharedAction>, NoMemory>
    ensures { IfOk result (λ action. option_map action_of action ≡ library.action_of (lib_view lib.now) args.now) }
{
    match lib {
        Lib::Print(pieces) => Ok(Some(SharedAction::Print(printed(alloc, pieces, args)?))),
        Lib::Malloc => Ok(allocation(args)),
        Lib::Calloc => Ok(zeroed_allocation(args)),
        Lib::Realloc => Ok(reallocation(args)),
        Lib::Free => Ok(freeing(args)),
        Lib::Copy => Ok(copying(args)),
        Lib::Start(function) => Ok(starting(*function, args)),
        Lib::Join => Ok(joining(args)),
        Lib::MutexInit => Ok(initialising(args)),
        Lib::MutexLock => Ok(locking(args)),
        Lib::MutexUnlock => Ok(unlocking(args)),
        Lib::MutexDestroy => Ok(destroying(args)),
        Lib::AtomicAdd => Ok(adding(args)),
        Lib::AtomicSub => Ok(taking_away(args)),
        Lib::AtomicSwap => Ok(exchanging(args)),
        Lib::AtomicCompare => Ok(comparing(args)),
        Lib::AtomicStore => Ok(storing(args)),
    }
}

// Whether a call names an object that is atomic.
fn names_atomic(lib: &Lib) -> bool
    ensures { result ≡ names_atomic (lib_view lib.now) }
{
    matches!(
        lib,
        Lib::AtomicAdd | Lib::AtomicSub | Lib::AtomicSwap | Lib::AtomicCompare | Lib::AtomicStore
    )
}

/// A call whose arguments are there: a function is entered, or the library's action is done.
pub fn called(
    alloc: Global,
    place: u32,
    callee: &Rc<Callee>,
    before: &Rc<Values>,
    wait: &Wait,
) -> Result<Pending, NoMemory>
    ensures { IfOk result (λ q. Calls place (callee_of callee.now.value) (values_of before.now.value) (wait_of wait.now) q) }
{
    match &**callee {
        Callee::Function(number) => Ok(Pending::Enter(*number, before.clone()?, same_wait(wait)?)),
        Callee::Library(lib) => {
            let args = list_of(alloc, before)?;
            match action(alloc, lib, &args)? {
                None => Ok(Pending::Unfit),
                Some(action) => {
                    let then = Then::Returns(callee.clone()?, before.clone()?, same_wait(wait)?);
                    let site = Site {
                        place,
                        atomic: names_atomic(lib),
                    };
                    Ok(Pending::Act(site, action, then))
                }
            }
        }
    }
}
