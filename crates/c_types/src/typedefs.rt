//! The names of types, judged where they stand (C11 6.7.8).
ghost use Rattle.std.specs.Prelude.{map};
ghost use Rattle.c_tree.specs.SyntaxViews as source;
ghost use Rattle.c_tree.specs.Typed.{Ty};
ghost use Rattle.c_tree.specs.TypedViews.{type_view};
ghost use Rattle.c_typing.specs.Faults.{Judged, Gives};
ghost use Rattle.c_typing.specs.Judgement.{lone, in_turn, ruled};
ghost use Rattle.c_typing.specs.Statements.{judged_declarator};
ghost use Rattle.c_typing.specs.Programs.{alias_declared, judged_alias, judged_aliases, behind_specs};
ghost use Rattle.type_context.specs.ContextViews.{context_view};
ghost use Rattle.type_context.specs.Telling.{Tells};

use crate::declarators::{declarator, specifiers};
use crate::outcomes::fine_with;
use c_lex::CompileFault;
use c_tree::syntax::{Declarator, Spec};
use c_tree::typed::CType;
use type_context::context::Context;
use type_context::faults::both;
use type_context::outcomes::again;
use type_declared::aliases::{alias_declared, name_type};

// The type that a typedef's declarator declares, behind specifiers.
fn alias_of(
    context: &mut Context<'_>,
    base: &Result<CType, CompileFault>,
    d: &Declarator,
) -> Result<CType, CompileFault>
    ensures { (j : Judged Ty) → Gives type_view base.now j → Tells type_view result context.new (ruled (in_turn (lone j) (judged_declarator (source.declarator_view d.now))) (λ c p. alias_declared c p.0 p.1) (context_view context.old)) }
{
    let base = again(context.alloc, base);
    let declarator = declarator(context, d);
    let (base, declarator) = both(base, declarator)?;
    alias_declared(context, base, &declarator)
}

// The name of a type, which is in scope directly behind its declarator.
fn alias(
    context: &mut Context<'_>,
    base: &Result<CType, CompileFault>,
    d: &Declarator,
) -> Result<(), CompileFault>
    ensures { (j : Judged Ty) → Gives type_view base.now j → Tells (λ _. tt) result context.new (judged_alias j (source.declarator_view d.now) (context_view context.old)) }
{
    let t = alias_of(context, base, d);
    name_type(context, d.name, t)
}

// Names of types that are declared together.
fn aliases(
    context: &mut Context<'_>,
    base: &Result<CType, CompileFault>,
    ds: &[Declarator],
) -> Result<(), CompileFault>
    ensures { (j : Judged Ty) → Gives type_view base.now j → Tells (λ _. tt) result context.new (judged_aliases j (map source.declarator_view ds.now) (context_view context.old)) }
{
    let mut all = Ok(());
    'declarators: for d in ds {
        let next = alias(context, base, d);
        all = fine_with(all, next);
    }
    all
}

/// A typedef.
pub(crate) fn typedef(
    context: &mut Context<'_>,
    specs: &[Spec],
    ds: &[Declarator],
) -> Result<(), CompileFault>
    ensures { Tells (λ _. tt) result context.new (behind_specs (map source.spec_view specs.now) (λ base. judged_aliases base (map source.declarator_view ds.now)) (context_view context.old)) }
{
    let base = specifiers(context, specs);
    let all = aliases(context, &base, ds);
    both(base, all)?;
    Ok(())
}
