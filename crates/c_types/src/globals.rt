//! Globals, judged where they stand (C11 6.7.9, 6.9.2).
ghost use Rattle.std.specs.Prelude.{map, Some};
ghost use Rattle.std.specs.Option.{option_map};
ghost use Rattle.c_tree.specs.SyntaxViews as source;
ghost use Rattle.c_tree.specs.Typed.{Ty};
ghost use Rattle.c_tree.specs.TypedViews.{type_view, init_view, global_view};
ghost use Rattle.c_typing.specs.Faults.{Judged, Gives};
ghost use Rattle.c_typing.specs.Programs.{init_at, judged_global_init, global_fine, judged_global, judged_globals};
ghost use Rattle.type_context.specs.ContextViews.{context_view};
ghost use Rattle.type_context.specs.Telling.{Tells};
ghost use Rattle.type_declared.specs.Gathering.{each};

use crate::declarations::object_of;
use crate::expressions::value;
use c_lex::CompileFault;
use c_tree::syntax as tree;
use c_tree::typed::{CType, Expr, GlobalVar, Init};
use type_context::context::Context;
use type_context::faults::{as_fault, both};
use type_context::outcomes::{again, pushed};
use type_declared::initials::{init_at, started_with};
use type_declared::objects::{declare_global, global_fine, or_int};

// An initialiser of a global that is there.
fn global_start(
    context: &mut Context<'_>,
    place: u32,
    t: &Result<CType, CompileFault>,
    e: &tree::Expr,
) -> Result<Init, CompileFault>
    ensures { (j : Judged Ty) → Gives type_view t.now j → Tells init_view result context.new (judged_global_init place j (Some (source.expr_view e.now)) (context_view context.old)) }
{
    let t = again(context.alloc, t);
    let value = value(context, e);
    let (t, value) = both(t, value)?;
    as_fault(started_with(place, init_at(context, &t, e, &value)))
}

// An initialiser of a global, or none.
fn global_init(
    context: &mut Context<'_>,
    place: u32,
    t: &Result<CType, CompileFault>,
    e: &Option<tree::Expr>,
) -> Result<Init, CompileFault>
    ensures { (j : Judged Ty) → Gives type_view t.now j → Tells init_view result context.new (judged_global_init place j (option_map source.expr_view e.now) (context_view context.old)) }
{
    match e {
        Some(e) => global_start(context, place, t, e),
        None => Ok(Init::Zero),
    }
}

// A global, at its name; it is in scope directly behind its declarator.
fn global(
    context: &mut Context<'_>,
    base: &Result<CType, CompileFault>,
    x: &tree::InitDeclarator,
) -> Result<GlobalVar, CompileFault>
    ensures { (j : Judged Ty) → Gives type_view base.now j → Tells global_view result context.new (judged_global j (source.init_declarator_view x.now) (context_view context.old)) }
{
    let name = x.declarator.name;
    let t = object_of(context, base, &x.declarator);
    let fine = global_fine(context, name, &t);
    let declared = or_int(context.alloc, &t)?;
    declare_global(context, name, declared)?;
    let init = global_init(context, name.from, &t, &x.value);
    let ((_, ty), init) = both(both(fine, t), init)?;
    Ok(GlobalVar { ty, init })
}

/// Globals that are declared together.
pub(crate) fn globals(
    context: &mut Context<'_>,
    base: &Result<CType, CompileFault>,
    xs: &[tree::InitDeclarator],
) -> Result<Vec<GlobalVar>, CompileFault>
    ensures { (j : Judged Ty) → Gives type_view base.now j → Tells (each global_view) result context.new (judged_globals j (map source.init_declarator_view xs.now) (context_view context.old)) }
{
    let mut all = Ok(Vec::new(context.alloc));
    'declarators: for x in xs {
        let next = global(context, base, x);
        all = pushed(all, next);
    }
    all
}
