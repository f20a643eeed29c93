//! Callers of what types declarations.

ghost use Rattle.std.specs.Prelude.{◌≡◌, [], IfOk, map};
ghost use Rattle.c_tree.specs.SyntaxViews.{external_view};
ghost use Rattle.c_tree.specs.Typed.{no_stmts};
ghost use Rattle.c_tree.specs.TypedViews.{func_view, type_view};
ghost use Rattle.c_typing.specs.Faults.{Gives, Judged};
ghost use Rattle.c_typing.specs.Judgement.{lone, object_declared, ruled, specified};
ghost use Rattle.c_typing.specs.Numbering.{func_of};
ghost use Rattle.c_typing.specs.Programs.{defined_names, has_main};
ghost use Rattle.type_context.specs.ContextViews.{context_view, types_view};
ghost use Rattle.type_context.specs.Telling.{Says, both_fine};
ghost use Rattle.type_rules.specs.SpecifierViews.{declared_view, part_view};

use c_lex::{CompileFault, Refusal};
use c_tree::syntax::External;
use c_tree::typed::{CType, Func};
use std::alloc::{AllocError, Global};
use type_context::context::Context;
use type_context::outcomes::both_fine;
use type_declared::functions::{all_defined, main_of};
use type_locals::locals::func_of;
use type_rules::declarators::{Declared, object_declared};
use type_rules::specifiers::{Part, specified};

/// Three things are fine.
pub fn three_fine(
    a: Result<(), Refusal>,
    b: Result<(), Refusal>,
    c: Result<(), Refusal>,
) -> Result<(), Refusal>
    ensures { (j k l : Judged (Unit {0})) → Says (λ _. tt) a j → Says (λ _. tt) b k → Says (λ _. tt) c l → Says (λ _. tt) result (both_fine (both_fine j k) l) }
{
    both_fine(both_fine(a, b), c)
}

/// The type of an object that is declared behind specifiers.
#[tactic(auto, using(type_context::proofs::Judging::fails_part))]
pub fn declared_object(
    context: &Context<'_>,
    place: u32,
    parts: &[Part],
    d: &Declared<'_>,
) -> Result<CType, CompileFault>
    ensures { Gives type_view result (ruled (lone (specified place (map part_view parts.now))) (λ c t. object_declared c t (declared_view d.now)) (context_view context.now)).0 }
{
    let t = specified(context.alloc, place, parts)?;
    object_declared(context, t, d)
}

/// A function without parameters or statements.
pub fn empty(alloc: Global, types: &[CType], returned: CType) -> Result<Func, AllocError>
    ensures { IfOk result (λ f. func_view f ≡ func_of [] (types_view types.now) [] (type_view returned) no_stmts) }
{
    func_of(alloc, &[], types, &[], returned, Vec::new(alloc))
}

/// The number of a file's `main`.
pub fn main_of_file(context: &Context<'_>, externals: &[External]) -> Result<u32, CompileFault>
    ensures { Gives (λ n. n) result (has_main (context_view context.now) (defined_names (context_view context.now).text (map external_view externals.now))) }
{
    let defined = all_defined(context, externals)?;
    main_of(context, &defined)
}
