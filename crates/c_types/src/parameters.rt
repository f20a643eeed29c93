//! Parameters, judged where they stand (C11 6.7.6.3).
ghost use Rattle.std.specs.Prelude.{◌∷◌, [], Bool, true, false, map, Some};
ghost use Rattle.c_tree.specs.Syntax as trees;
ghost use Rattle.c_tree.specs.SyntaxViews as source;
ghost use Rattle.c_tree.specs.Typed.{Ty, void};
ghost use Rattle.c_tree.specs.TypedViews.{type_view};
ghost use Rattle.c_typing.specs.Faults.{Judged, Gives, typed};
ghost use Rattle.c_typing.specs.Programs.{lacking, judged_size, judged_sizes, adjusted_param, param_place, param_object, param_fine, param_behind, judged_param, judged_params, is_none, judged_param_list};
ghost use Rattle.type_context.specs.ContextViews.{context_view};
ghost use Rattle.type_locals.specs.LocalViews.{param_view};
ghost use Rattle.type_context.specs.Telling.{Tells};
ghost use Rattle.type_declared.specs.Gathering.{each};
ghost use Rattle.c_types.specs.inner.Parts.{sizes_view};

use crate::declarators::{array_size, specifiers};
use crate::outcomes::outcome;
use c_lex::CompileFault;
use c_tree::syntax as tree;
use c_tree::typed::CType;
use std::alloc::Global;
use type_context::context::Context;
use type_context::faults::{as_fault, both};
use type_context::outcomes::pushed;
use type_declared::objects::{declare_param, or_int};
use type_declared::parameters::{adjusted_param, is_none, lacking, param_fine, param_place};
use type_locals::locals::Param;

// ---- sizes between brackets

// A size that is there.
fn some_size(context: &mut Context<'_>, e: &tree::Expr) -> Result<Option<u32>, CompileFault>
    ensures { (outermost : Bool) (d : trees.ParamDim) → Tells (λ n. n) result context.new (judged_size outermost d (Some (source.expr_view e.now)) (context_view context.old)) }
{
    let n = array_size(context, e)?;
    Ok(Some(n))
}

// A size: it may lack in the outermost brackets alone.
fn size(
    context: &mut Context<'_>,
    outermost: bool,
    d: &tree::ParamDim,
) -> Result<Option<u32>, CompileFault>
    ensures { Tells (λ n. n) result context.new (judged_size outermost (source.param_dim_view d.now) (source.param_dim_view d.now).size (context_view context.old)) }
{
    match &d.size {
        Some(e) => some_size(context, e),
        None => as_fault(lacking(outermost, d.place)),
    }
}

// The sizes behind a parameter.
fn sizes(
    context: &mut Context<'_>,
    dims: &[tree::ParamDim],
) -> Result<Vec<Option<u32>>, CompileFault>
    ensures { Tells sizes_view result context.new (judged_sizes true (map source.param_dim_view dims.now) (context_view context.old)) }
{
    let mut all = Ok(Vec::new(context.alloc));
    let mut outermost = true;
    'dims: for d in dims {
        let next = size(context, outermost, d);
        all = pushed(all, next);
        outermost = false;
    }
    all
}

// ---- the type of a parameter

// The type of a parameter, behind its specifiers.
fn param_object(
    context: &mut Context<'_>,
    base: Result<CType, CompileFault>,
    p: &tree::Param,
) -> Result<CType, CompileFault>
    ensures { (j : Judged Ty) → Gives type_view base j → Tells type_view result context.new (param_object j (source.param_view p.now) (context_view context.old)) }
{
    let sizes = sizes(context, &p.dims);
    let (base, sizes) = both(base, sizes)?;
    adjusted_param(context, param_place(p), base, &p.pointers, &sizes)
}

// ---- parameters

// A parameter, behind its specifiers.
fn param_behind(
    context: &mut Context<'_>,
    p: &tree::Param,
    base: Result<CType, CompileFault>,
) -> Result<Param, CompileFault>
    ensures { (j : Judged Ty) → Gives type_view base j → Tells param_view result context.new (param_behind j (source.param_view p.now) (context_view context.old)) }
{
    let place = param_place(p);
    let t = param_object(context, base, p);
    let fine = as_fault(param_fine(context, place, p.name));
    let declared = or_int(context.alloc, &t)?;
    declare_param(context, p.name, declared)?;
    let (_, ty) = both(fine, t)?;
    Ok(Param { place, ty })
}

// A parameter.
fn param(context: &mut Context<'_>, p: &tree::Param) -> Result<Param, CompileFault>
    ensures { Tells param_view result context.new (judged_param (source.param_view p.now) (context_view context.old)) }
{
    let base = outcome(specifiers(context, &p.specs))?;
    param_behind(context, p, base)
}

// Parameters.
fn params(context: &mut Context<'_>, all: &[tree::Param]) -> Result<Vec<Param>, CompileFault>
    ensures { Tells (each param_view) result context.new (judged_params (map source.param_view all.now) (context_view context.old)) }
{
    let mut found = Ok(Vec::new(context.alloc));
    'params: for p in all {
        let next = param(context, p);
        found = pushed(found, next);
    }
    found
}

// One parameter.
fn alone(alloc: Global, p: Param) -> Result<Vec<Param>, CompileFault>
    ensures { Gives (each param_view) result (typed (param_view p ∷ [])) }
{
    let mut all = Vec::new(alloc);
    all.push(p)?;
    Ok(all)
}

// A single parameter: an unnamed one of type void is none (C11 6.7.6.3 p10).
fn only_param(context: &mut Context<'_>, p: &tree::Param) -> Result<Vec<Param>, CompileFault>
    ensures { Tells (each param_view) result context.new (judged_param_list (source.param_view p.now ∷ []) (context_view context.old)) }
{
    let base = outcome(specifiers(context, &p.specs))?;
    if is_none(p, &base) {
        return Ok(Vec::new(context.alloc));
    }
    let p = param_behind(context, p, base)?;
    alone(context.alloc, p)
}

/// The parameters of a function.
pub(crate) fn param_list(
    context: &mut Context<'_>,
    all: &[tree::Param],
) -> Result<Vec<Param>, CompileFault>
    ensures { Tells (each param_view) result context.new (judged_param_list (map source.param_view all.now) (context_view context.old)) }
{
    match all {
        [p] => only_param(context, p),
        _ => params(context, all),
    }
}
