//! Calls of the library (C11 7.17, 7.21, 7.22, 7.24, 7.26).
ghost use Rattle.std.specs.Prelude.{◌≡◌, ◌∷◌, [], map};
ghost use Rattle.c_tree.specs.Typed as trees;
ghost use Rattle.c_tree.specs.Typed.{integer, atomic, pointer, mutex, at, deref};
ghost use Rattle.c_tree.specs.TypedViews.{type_view, lib_view, expr_view, boxed_expr_view};
ghost use Rattle.c_typing.specs.Faults.{Judged, Gives, typed, both};
ghost use Rattle.c_typing.specs.Rules.{value_of};
ghost use Rattle.c_typing.specs.Scope as library;
ghost use Rattle.c_typing.specs.Judgement.{called_lib, started, plain_kind, init_by, atomic_at, atomic_first, atomic_params, atomic_result, called_atomic, loaded, called_library};
ghost use Rattle.type_context.specs.ContextViews.{library_view};
ghost use Rattle.type_context.specs.Telling.{Says};
ghost use Rattle.type_rules.specs.ListViews.{exprs_view};
ghost use Rattle.type_nodes.specs.inner.Calls.{call_and_kind_view};

use ak_words::IntType;
use c_lex::{CompileFault, Kind, Refusal};
use c_tree::typed::{CType, Expr, ExprNode, Lib};
use std::alloc::Global;
use type_context::faults::{as_fault, both, refused, unless};
use type_context::names::Library;
use type_rules::calls::{called_lib, fitted_all, library_call};
use type_rules::conversions::{is_zero, value_of};
use type_rules::trees::made;

// A pointer to a type.
fn pointer(alloc: Global, to: CType) -> Result<CType, CompileFault>
    ensures { Gives type_view result (typed (pointer (type_view to))) }
{
    Ok(CType::Pointer(Box::new(alloc, to)?))
}

// An argument before others.
fn joined(alloc: Global, first: Box<Expr>, mut behind: Vec<Expr>) -> Result<Vec<Expr>, CompileFault>
    ensures { Gives exprs_view result (typed (boxed_expr_view first ∷ exprs_view behind)) }
{
    let mut all = Vec::new(alloc);
    all.push(Box::into_inner(first))?;
    all.append(&mut behind)?;
    Ok(all)
}

/// `thrd_create`, at its name, by its arguments: the one before the function, the function if
/// there is one, and those behind it (C11 7.26.5.1).
#[tactic(auto, using(type_context::proofs::Judging::fails_part))]
pub fn started(
    alloc: Global,
    place: u32,
    first: Box<Expr>,
    function: Option<u32>,
    behind: Vec<Expr>,
) -> Result<Box<Expr>, CompileFault>
    ensures { Gives boxed_expr_view result (started place (boxed_expr_view first ∷ []) function (exprs_view behind)) }
{
    let Some(function) = function else {
        return refused(place, Kind::TypeMismatch);
    };
    let number = pointer(alloc, CType::Int(IntType::unsigned_long()))?;
    let argument = pointer(alloc, CType::Void)?;
    let args = joined(alloc, first, behind)?;
    let args = fitted_all(alloc, place, &[number, argument], args)?;
    let ty = CType::Int(IntType::int());
    library_call(alloc, place, ty, Lib::Start(function), args)
}

// The kind of a mutex is the constant 0, which is no operand.
fn plain_kind(e: Expr) -> Result<(), Refusal>
    ensures { Says (λ _. tt) result (plain_kind (expr_view e)) }
{
    unless(e.place, Kind::OutsideSubset(14), is_zero(&e))
}

// A call, and whether its kind is plain.
#[tactic(auto, using(type_context::proofs::Judging::gives_both))]
fn call_and_kind(
    call: Result<Box<Expr>, CompileFault>,
    kind: Result<(), CompileFault>,
) -> Result<(Box<Expr>, ()), CompileFault>
    ensures { (j : Judged trees.Expr) (k : Judged (Unit {0})) → Gives boxed_expr_view call j → Gives (λ _. tt) kind k → Gives call_and_kind_view result (both j k) }
{
    both(call, kind)
}

// `mtx_init`, at its name: the mutex, and its kind (C11 7.26.4.2).
fn init_by(alloc: Global, place: u32, mut args: Vec<Expr>) -> Result<Box<Expr>, CompileFault>
    ensures { Gives boxed_expr_view result (init_by place (exprs_view args)) }
{
    if args.len() != 2 {
        return refused(place, Kind::TypeMismatch);
    }
    let Some(kind) = args.pop() else {
        return refused(place, Kind::TypeMismatch);
    };
    let plain = as_fault(plain_kind(kind));
    let returned = CType::Int(IntType::int());
    let call = on_mutex(alloc, place, Lib::MutexInit, returned, args);
    let (call, ()) = call_and_kind(call, plain)?;
    Ok(call)
}

// A call that takes a mutex alone.
#[tactic(auto, using(type_context::proofs::Judging::fails_part))]
fn on_mutex(
    alloc: Global,
    place: u32,
    which: Lib,
    returned: CType,
    args: Vec<Expr>,
) -> Result<Box<Expr>, CompileFault>
    ensures { Gives boxed_expr_view result (called_lib place (lib_view which) (pointer mutex ∷ []) (type_view returned) (exprs_view args)) }
{
    let mutex = pointer(alloc, CType::Mutex)?;
    called_lib(alloc, place, which, &[mutex], returned, args)
}

// `malloc`, at its name (C11 7.22.3.4).
#[tactic(auto, using(type_context::proofs::Judging::fails_part))]
fn malloc(alloc: Global, place: u32, args: Vec<Expr>) -> Result<Box<Expr>, CompileFault>
    ensures { Gives boxed_expr_view result (called_library place library.malloc (exprs_view args)) }
{
    let size = CType::Int(IntType::unsigned_long());
    let returned = pointer(alloc, CType::Void)?;
    called_lib(alloc, place, Lib::Malloc, &[size], returned, args)
}

// `calloc`, at its name (C11 7.22.3.2).
#[tactic(auto, using(type_context::proofs::Judging::fails_part))]
fn calloc(alloc: Global, place: u32, args: Vec<Expr>) -> Result<Box<Expr>, CompileFault>
    ensures { Gives boxed_expr_view result (called_library place library.calloc (exprs_view args)) }
{
    let count = CType::Int(IntType::unsigned_long());
    let size = CType::Int(IntType::unsigned_long());
    let returned = pointer(alloc, CType::Void)?;
    called_lib(alloc, place, Lib::Calloc, &[count, size], returned, args)
}

// `realloc`, at its name (C11 7.22.3.5).
#[tactic(auto, using(type_context::proofs::Judging::fails_part))]
fn realloc(alloc: Global, place: u32, args: Vec<Expr>) -> Result<Box<Expr>, CompileFault>
    ensures { Gives boxed_expr_view result (called_library place library.realloc (exprs_view args)) }
{
    let block = pointer(alloc, CType::Void)?;
    let size = CType::Int(IntType::unsigned_long());
    let returned = pointer(alloc, CType::Void)?;
    called_lib(alloc, place, Lib::Realloc, &[block, size], returned, args)
}

// `free`, at its name (C11 7.22.3.3).
#[tactic(auto, using(type_context::proofs::Judging::fails_part))]
fn free(alloc: Global, place: u32, args: Vec<Expr>) -> Result<Box<Expr>, CompileFault>
    ensures { Gives boxed_expr_view result (called_library place library.free (exprs_view args)) }
{
    let block = pointer(alloc, CType::Void)?;
    called_lib(alloc, place, Lib::Free, &[block], CType::Void, args)
}

// `memcpy`, at its name (C11 7.24.2.1).
#[tactic(auto, using(type_context::proofs::Judging::fails_part))]
fn memcpy(alloc: Global, place: u32, args: Vec<Expr>) -> Result<Box<Expr>, CompileFault>
    ensures { Gives boxed_expr_view result (called_library place library.memcpy (exprs_view args)) }
{
    let to = pointer(alloc, CType::Void)?;
    let from = pointer(alloc, CType::Void)?;
    let size = CType::Int(IntType::unsigned_long());
    let returned = pointer(alloc, CType::Void)?;
    called_lib(alloc, place, Lib::Copy, &[to, from, size], returned, args)
}

// `thrd_join`, at its name (C11 7.26.5.6).
#[tactic(auto, using(type_context::proofs::Judging::fails_part))]
fn thrd_join(alloc: Global, place: u32, args: Vec<Expr>) -> Result<Box<Expr>, CompileFault>
    ensures { Gives boxed_expr_view result (called_library place library.thrd_join (exprs_view args)) }
{
    let thread = CType::Int(IntType::unsigned_long());
    let outcome = pointer(alloc, CType::Int(IntType::int()))?;
    let returned = CType::Int(IntType::int());
    called_lib(alloc, place, Lib::Join, &[thread, outcome], returned, args)
}

// The type of the atomic number to which a pointer leads, if it leads to one.
fn atomic_at(t: &CType) -> Option<IntType>
    ensures { result ≡ atomic_at (type_view t.now) }
{
    let CType::Pointer(target) = t else {
        return None;
    };
    match &**target {
        CType::Atomic(t) => Some(*t),
        _ => None,
    }
}

// The type of the one to which the first argument leads.
fn atomic_first(args: &[Expr]) -> Option<IntType>
    ensures { result ≡ atomic_first (map expr_view args.now) }
{
    match args {
        [] => None,
        [p, ..] => atomic_at(&p.ty),
    }
}

// The types of the arguments of a call on an atomic number of this type.
fn atomic_params(alloc: Global, which: &Lib, t: IntType) -> Result<Vec<CType>, CompileFault>
    ensures { Gives (λ v. map type_view v.items) result (typed (atomic_params (lib_view which.now) t)) }
{
    let target = pointer(alloc, CType::Atomic(t))?;
    match which {
        Lib::AtomicCompare => {
            let expected = pointer(alloc, CType::Int(t))?;
            Ok(vec![in alloc; target, expected, CType::Int(t)]?)
        }
        _ => Ok(vec![in alloc; target, CType::Int(t)]?),
    }
}

// The type of its result.
fn atomic_result(which: &Lib, t: IntType) -> CType
    ensures { type_view result ≡ atomic_result (lib_view which.now) t }
{
    match which {
        Lib::AtomicStore => CType::Void,
        Lib::AtomicCompare => CType::Int(IntType::int()),
        _ => CType::Int(t),
    }
}

// A call on an atomic number, at its name (C11 7.17.2.2, 7.17.7).
#[tactic(auto, using(type_context::proofs::Judging::fails_part))]
fn called_atomic(
    alloc: Global,
    place: u32,
    which: Lib,
    args: Vec<Expr>,
) -> Result<Box<Expr>, CompileFault>
    ensures { Gives boxed_expr_view result (called_atomic place (lib_view which) (exprs_view args)) }
{
    let Some(t) = atomic_first(&args) else {
        return refused(place, Kind::TypeMismatch);
    };
    let params = atomic_params(alloc, &which, t)?;
    let returned = atomic_result(&which, t);
    called_lib(alloc, place, which, &params, returned, args)
}

// The number to which a pointer leads, read at a place.
#[tactic(auto, using(type_context::proofs::Judging::fails_part))]
fn read(alloc: Global, place: u32, t: IntType, p: Expr) -> Result<Box<Expr>, CompileFault>
    ensures { Gives boxed_expr_view result (typed (value_of (at place (atomic t) (deref (expr_view p))))) }
{
    let p = Box::new(alloc, p)?;
    let target = made(alloc, place, CType::Atomic(t), ExprNode::Deref(p))?;
    value_of(alloc, target)
}

// `atomic_load`, at its name (C11 7.17.7.2).
#[tactic(auto, using(type_context::proofs::Judging::fails_part))]
fn loaded(alloc: Global, place: u32, mut args: Vec<Expr>) -> Result<Box<Expr>, CompileFault>
    ensures { Gives boxed_expr_view result (loaded place (exprs_view args)) }
{
    if args.len() != 1 {
        return refused(place, Kind::TypeMismatch);
    }
    let Some(p) = args.pop() else {
        return refused(place, Kind::TypeMismatch);
    };
    match atomic_at(&p.ty) {
        Some(t) => read(alloc, place, t, p),
        None => refused(place, Kind::TypeMismatch),
    }
}

/// A name of the library, called with typed arguments.
pub fn called_library(
    alloc: Global,
    place: u32,
    which: Library,
    args: Vec<Expr>,
) -> Result<Box<Expr>, CompileFault>
    ensures { Gives boxed_expr_view result (called_library place (library_view which) (exprs_view args)) }
{
    let int = CType::Int(IntType::int());
    match which {
        Library::Malloc => malloc(alloc, place, args),
        Library::Calloc => calloc(alloc, place, args),
        Library::Realloc => realloc(alloc, place, args),
        Library::Free => free(alloc, place, args),
        Library::Memcpy => memcpy(alloc, place, args),
        Library::ThrdJoin => thrd_join(alloc, place, args),
        Library::MtxInit => init_by(alloc, place, args),
        Library::MtxLock => on_mutex(alloc, place, Lib::MutexLock, int, args),
        Library::MtxUnlock => on_mutex(alloc, place, Lib::MutexUnlock, int, args),
        Library::MtxDestroy => on_mutex(alloc, place, Lib::MutexDestroy, CType::Void, args),
        Library::Printf => refused(place, Kind::TypeMismatch),
        Library::ThrdCreate => refused(place, Kind::TypeMismatch),
        Library::AtomicStore => called_atomic(alloc, place, Lib::AtomicStore, args),
        Library::AtomicLoad => loaded(alloc, place, args),
        Library::AtomicAdd => called_atomic(alloc, place, Lib::AtomicAdd, args),
        Library::AtomicSub => called_atomic(alloc, place, Lib::AtomicSub, args),
        Library::AtomicSwap => called_atomic(alloc, place, Lib::AtomicSwap, args),
        Library::AtomicCompare => called_atomic(alloc, place, Lib::AtomicCompare, args),
        Library::Constant(_) => refused(place, Kind::TypeMismatch),
        Library::AtomicType(_) => refused(place, Kind::TypeMismatch),
    }
}
