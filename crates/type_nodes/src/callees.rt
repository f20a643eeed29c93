//! What is called, by what its name means (C11 6.5.2.2, 7.21, 7.26).
ghost use Rattle.std.specs.Prelude.{◌≡◌, List, map, Some, Err, IfOk, IfErr};
ghost use Rattle.std.specs.Option.{option_map};
ghost use Rattle.c_lex.specs.declared.refusal.CompileFault.TheVariants.{NoMemory, Refused};
ghost use Rattle.c_tree.specs.Syntax as trees;
ghost use Rattle.c_tree.specs.SyntaxViews as source;
ghost use Rattle.c_tree.specs.Typed.{Expr as TypedExpr};
ghost use Rattle.c_tree.specs.TypedViews.{type_view, boxed_expr_view};
ghost use Rattle.c_typing.specs.Faults.{refuse};
ghost use Rattle.c_typing.specs.Scope as scopes;
ghost use Rattle.c_typing.specs.Judgement as rules;
ghost use Rattle.c_typing.specs.Judgement.{Judging, ruled, none_past, place_past, meaning_in, begins_thread, starting_by, begun_by, no_call, called_as};
ghost use Rattle.type_context.specs.ContextViews.{context_view, binding_view, library_view, types_view};
ghost use Rattle.type_context.specs.declared.context.Context.{Context as CodeContext};
ghost use Rattle.type_rules.specs.ListViews.{exprs_view};
ghost use Rattle.type_nodes.specs.Nodes as walking;
ghost use Rattle.type_context.specs.inner.Outcomes.{joined};
ghost use Rattle.type_nodes.specs.Nodes.{Finishes};
ghost use Rattle.type_context.specs.Telling.{Tells, Says};

use crate::library::called_library;
use ak_words::IntType;
use c_lex::{CompileFault, Kind, Refusal};
use c_tree::syntax as tree;
use c_tree::syntax::Name;
use c_tree::typed::{CType, Expr};
use std::alloc::Global;
use type_context::context::Context;
use type_context::faults::{both, refused};
use type_context::kinds::{same_type, same_types};
use type_context::names::{Binding, Library};
use type_rules::calls::called;
use type_rules::places::node_place;

/// Whether a name is `printf`.
pub fn is_printf(meaning: &Option<Binding>) -> bool
    ensures { result ≡ walking.is_printf (option_map binding_view meaning.now) }
{
    matches!(meaning, Some(Binding::Library(Library::Printf)))
}

/// Whether a name is `thrd_create`.
pub fn is_thrd_create(meaning: &Option<Binding>) -> bool
    ensures { result ≡ walking.is_thrd_create (option_map binding_view meaning.now) }
{
    matches!(meaning, Some(Binding::Library(Library::ThrdCreate)))
}

// The fault of a call, with those of its arguments.
fn call_fault(
    place: u32,
    kind: Kind,
    args: Result<Vec<Expr>, CompileFault>,
) -> Result<Box<Expr>, CompileFault>
    ensures { Finishes boxed_expr_view (joined {A = Unit {0}} (Err (Refused (record { place = place; kind = kind }))) args) (λ _. refuse place kind) result }
{
    let none: Result<(), CompileFault> = refused(place, kind);
    both(none, args)?;
    refused(place, kind)
}

// A call of what can't be called, whatever its arguments are.
fn no_call(
    place: u32,
    kind: Kind,
    args: Result<Vec<Expr>, CompileFault>,
) -> Result<Box<Expr>, CompileFault>
    ensures { (n : CodeContext) (J : Judging (List TypedExpr)) (c : scopes.Context) → Tells exprs_view args n (J c) → Tells boxed_expr_view result n (no_call place kind J c) }
{
    call_fault(place, kind, args)
}

// A call of a name of the library other than `printf` and `thrd_create`.
fn library_called(
    alloc: Global,
    place: u32,
    which: Library,
    args: Result<Vec<Expr>, CompileFault>,
) -> Result<Box<Expr>, CompileFault>
    ensures { (n : CodeContext) (J : Judging (List TypedExpr)) (c : scopes.Context) → Tells exprs_view args n (J c) → Tells boxed_expr_view result n (ruled J (λ d es. rules.called_library place (library_view which) es) c) }
{
    let args = args?;
    called_library(alloc, place, which, args)
}

// A call of a function.
fn function_called(
    alloc: Global,
    place: u32,
    number: u32,
    params: &[CType],
    returned: &CType,
    args: Result<Vec<Expr>, CompileFault>,
) -> Result<Box<Expr>, CompileFault>
    ensures { (n : CodeContext) (J : Judging (List TypedExpr)) (c : scopes.Context) → Tells exprs_view args n (J c) → Tells boxed_expr_view result n (ruled J (λ d es. rules.called place number (types_view params.now) (type_view returned.now) es) c) }
{
    let args = args?;
    called(alloc, place, number, params, returned, args)
}

/// A call of what a name means, other than `printf` and `thrd_create`.
pub fn called_by(
    alloc: Global,
    place: u32,
    meaning: Option<Binding>,
    args: Result<Vec<Expr>, CompileFault>,
) -> Result<Box<Expr>, CompileFault>
    ensures { (n : CodeContext) (J : Judging (List TypedExpr)) (c : scopes.Context) → Tells exprs_view args n (J c) → Tells boxed_expr_view result n (called_as (option_map binding_view meaning) place J c) }
{
    match meaning {
        Some(
            Binding::Function {
                number,
                params,
                result: returned,
            },
        ) => function_called(alloc, place, number, &params, &returned, args),
        Some(Binding::Library(which)) => library_called(alloc, place, which, args),
        Some(Binding::Global(_, _)) => no_call(place, Kind::TypeMismatch, args),
        Some(Binding::Local(_, _)) => no_call(place, Kind::TypeMismatch, args),
        Some(Binding::Enumerator(_)) => no_call(place, Kind::TypeMismatch, args),
        Some(Binding::Type(_)) => no_call(place, Kind::TypeMismatch, args),
        None => no_call(place, Kind::UnknownName, args),
    }
}

/// Whether at most 16 arguments stand behind a format.
pub fn few_enough(rest: &[tree::Expr]) -> Result<(), Refusal>
    ensures { Says (λ _. tt) result (none_past 7 (place_past 16 (trees.exprs_of (map source.expr_view rest.now)))) }
{
    if rest.len() <= 16 {
        return Ok(());
    }
    let place = node_place(&rest[16]);
    Err(Refusal {
        place,
        kind: Kind::TooMany(7),
    })
}

// Whether a function is `int f(void *)`.
fn begins_thread(alloc: Global, params: &[CType], returned: &CType) -> Result<bool, CompileFault>
    ensures begins { IfOk result (λ b. b ≡ begins_thread (types_view params.now) (type_view returned.now)) }
    ensures memory { IfErr result (λ e. e ≡ NoMemory) }
{
    let pointer = CType::Pointer(Box::new(alloc, CType::Void)?);
    Ok(same_type(returned, &CType::Int(IntType::int())) && same_types(params, &[pointer]))
}

// The function, if a thread may begin with it.
fn starting_by(
    alloc: Global,
    number: u32,
    params: &[CType],
    returned: &CType,
) -> Result<Option<Option<u32>>, CompileFault>
    ensures function { IfOk result (λ f. f ≡ Some (starting_by number (begins_thread (types_view params.now) (type_view returned.now)))) }
    ensures memory { IfErr result (λ e. e ≡ NoMemory) }
{
    if begins_thread(alloc, params, returned)? {
        Ok(Some(Some(number)))
    } else {
        Ok(Some(None))
    }
}

// What a thread begins with, by what a name means, or none, where nothing is judged to find it.
fn begun_by(alloc: Global, meaning: Option<Binding>) -> Result<Option<Option<u32>>, CompileFault>
    ensures function { IfOk result (λ f. f ≡ begun_by (option_map binding_view meaning)) }
    ensures memory { IfErr result (λ e. e ≡ NoMemory) }
{
    match meaning {
        Some(
            Binding::Function {
                number,
                params,
                result: returned,
            },
        ) => starting_by(alloc, number, &params, &returned),
        Some(Binding::Library(Library::Constant(_))) => Ok(None),
        Some(Binding::Library(_)) => Ok(Some(None)),
        Some(Binding::Global(_, _)) => Ok(None),
        Some(Binding::Local(_, _)) => Ok(None),
        Some(Binding::Enumerator(_)) => Ok(None),
        Some(Binding::Type(_)) => Ok(None),
        None => Ok(None),
    }
}

/// The function that a thread begins with, by its name, or none, where an expression is judged to
/// find it.
pub fn begun(context: &Context<'_>, name: Option<Name>) -> Result<Option<Option<u32>>, CompileFault>
    ensures function { IfOk result (λ f. f ≡ begun_by (meaning_in (context_view context.now) name)) }
    ensures memory { IfErr result (λ e. e ≡ NoMemory) }
{
    match name {
        Some(name) => {
            let meaning = context.meaning_of(name)?;
            begun_by(context.alloc, meaning)
        }
        None => Ok(None),
    }
}
