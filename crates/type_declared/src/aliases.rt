//! The names of types that a typedef declares (C11 6.7.8).
ghost use Rattle.std.specs.Prelude.{◌≡◌};
ghost use Rattle.c_tree.specs.Typed.{Ty};
ghost use Rattle.c_tree.specs.TypedViews.{type_view};
ghost use Rattle.c_typing.specs.Faults as faults;
ghost use Rattle.c_typing.specs.Faults.{Judged, Gives};
ghost use Rattle.c_typing.specs.Scope as scopes;
ghost use Rattle.c_typing.specs.Programs.{alias_declared, same_alias, alias_fits, alias_fine};
ghost use Rattle.type_context.specs.ContextViews.{context_view, seen};
ghost use Rattle.type_context.specs.Telling.{Says, Tells};
ghost use Rattle.type_rules.specs.SpecifierViews.{declared_view};
ghost use Rattle.type_declared.specs.AliasFits.{fine_of, alias_agrees, named_type};

use crate::functions::{before_name, not_library};
use crate::objects::or_int;
use c_lex::{CompileFault, Kind, Refusal};
use c_tree::syntax::Name;
use c_tree::typed::CType;
use type_context::context::{Context, within};
use type_context::faults::{as_fault, both, both_or_refusal, unless};
use type_context::kinds::same_type;
use type_context::names::Binding;
use type_rules::declarators::{Declared, object_declared, plain_type};
use type_rules::specifiers::behind_pointers;

/// The names of types that there may be.
const MOST_ALIASES: usize = 1024;

/// The type that a typedef's declarator declares: an array has a size; each other type may stand,
/// also one without.
#[tactic(auto, using(type_context::proofs::Judging::fails_part))]
pub fn alias_declared(
    context: &Context<'_>,
    t: CType,
    d: &Declared<'_>,
) -> Result<CType, CompileFault>
    ensures { Gives type_view result (alias_declared (context_view context.now) (type_view t) (declared_view d.now)) }
{
    if !d.sizes.is_empty() {
        return object_declared(context, t, d);
    }
    let t = behind_pointers(context.alloc, t, d.pointers)?;
    as_fault(plain_type(d.name.from, t))
}

// A name that meant nothing before at file scope, or the same type (C11 6.7 p3).
fn same_alias(place: u32, before: Option<&Binding>, t: &CType) -> Result<(), Refusal>
    ensures { Says (λ _. tt) result (same_alias place (seen before.entry) (type_view t.now)) }
{
    match before {
        Some(Binding::Type(s)) => unless(place, Kind::TypeMismatch, same_type(s, t)),
        Some(_) => Err(Refusal {
            place,
            kind: Kind::DoubleName,
        }),
        None => Ok(()),
    }
}

// A name of a type that is new is one of 1,024 at most.
fn alias_fits(context: &Context<'_>, name: Name, is_new: bool) -> Result<(), Refusal>
    ensures { Says (λ _. tt) result (alias_fits (context_view context.now) name is_new) }
{
    if is_new {
        within(name.from, 11, MOST_ALIASES, context.aliases as usize)
    } else {
        Ok(())
    }
}

// What is judged at the name of a type, whatever that is.
fn alias_fine(context: &Context<'_>, name: Name) -> Result<((), ()), Refusal>
    ensures { Says (λ x. x) result (alias_fine (context_view context.now) name) }
{
    let few = alias_fits(context, name, !context.is_double(name));
    both_or_refusal(not_library(context, name), few)
}

// What is judged there by the type.
fn alias_agrees(
    context: &Context<'_>,
    name: Name,
    t: &Result<CType, CompileFault>,
) -> Result<(), CompileFault>
    ensures { (j : Judged Ty) → Gives type_view t.now j → Gives (λ _. tt) result (alias_agrees (context_view context.now) name j) }
{
    match t {
        Ok(t) => as_fault(same_alias(name.from, before_name(context, name), t)),
        Err(fault) => Err(*fault),
    }
}

/// The name of a type, by what its declarator came to: it is in scope directly behind that.
pub fn name_type(
    context: &mut Context<'_>,
    name: Name,
    t: Result<CType, CompileFault>,
) -> Result<(), CompileFault>
    ensures { (p : Judged Ty × scopes.Context) → Tells type_view t context.old p → Tells (λ _. tt) result context.new (named_type name p) }
{
    let fine = as_fault(alias_fine(context, name));
    let agrees = alias_agrees(context, name, &t);
    let ty = or_int(context.alloc, &t)?;
    context.declare_alias(name, ty)?;
    fine_both(fine, agrees)
}

// Both are fine.
fn fine_both(
    fine: Result<((), ()), CompileFault>,
    agrees: Result<(), CompileFault>,
) -> Result<(), CompileFault>
    ensures { (j : Judged (Unit {0} × Unit {0})) (k : Judged (Unit {0})) → Gives (λ x. x) fine j → Gives (λ _. tt) agrees k → Gives (λ _. tt) result (fine_of (faults.both j k)) }
{
    both(fine, agrees)?;
    Ok(())
}
