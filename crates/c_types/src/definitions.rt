//! Functions, judged where they stand (C11 6.7.6.3, 6.9.1).
ghost use Rattle.std.specs.Prelude.{◌≡◌, ℕ, List, map, Some, IfOk, IfErr};
ghost use Rattle.std.specs.Option.{option_map};
ghost use Rattle.c_lex.specs.declared.refusal.CompileFault.TheVariants.{NoMemory};
ghost use Rattle.c_tree.specs.SyntaxViews as source;
ghost use Rattle.c_tree.specs.Typed.{Ty};
ghost use Rattle.c_tree.specs.TypedViews.{type_view, stmt_view, func_view};
ghost use Rattle.c_typing.specs.Faults.{Judged, Gives, typed};
ghost use Rattle.c_typing.specs.Numbering as numbers;
ghost use Rattle.c_typing.specs.Programs.{result_of, head_fine, types_or, func_by, judged_body, body_within, judged_function};
ghost use Rattle.type_context.specs.ContextViews.{context_view, frame_view};
ghost use Rattle.type_declared.specs.FunctionNames.{IsDefined};
ghost use Rattle.type_locals.specs.LocalViews.{param_view};
ghost use Rattle.type_context.specs.Telling.{Tells};
ghost use Rattle.type_declared.specs.Gathering.{each};
ghost use Rattle.c_types.specs.inner.Functions.{IsHead};

use crate::outcomes::outcome;
use crate::parameters::param_list;
use crate::statements::stmts;
use crate::switches::Jumps;
use c_lex::CompileFault;
use c_tree::syntax as tree;
use c_tree::syntax::{Block, Name, Pointer};
use c_tree::typed::{CType, Func, Stmt};
use indexmap::IndexMap;
use type_context::context::{Context, Frame};
use type_context::faults::both;
use type_context::outcomes::again;
use type_declared::functions::{Defined, add_body, declare_function};
use type_declared::heads::{head_fine, result_of, types_or};
use type_declared::objects::or_int;
use type_locals::locals::{Param, func_of};

// ---- parameters and bodies

/// The parameters of a function, and what their scope declares.
#[derive(Drop)]
struct Head<'t> {
    params: Result<Vec<Param>, CompileFault>,
    scope: Frame<'t>,
}

// The parameters, in a scope of their own.
fn found_head<'t>(context: &mut Context<'t>, all: &[tree::Param]) -> Result<Head<'t>, CompileFault>
    ensures found { IfOk result (λ h. IsHead h context.new (map source.param_view all.now) (context_view context.old)) }
    ensures memory { IfErr result (λ e. e ≡ NoMemory) }
{
    context.locals = Vec::new(context.alloc);
    context.addressed = Vec::new(context.alloc);
    context.enter(IndexMap::new(context.alloc))?;
    let params = outcome(param_list(context, all))?;
    let scope = context.leave();
    Ok(Head { params, scope })
}

// A function, once its body is known.
fn func_made(
    context: &Context<'_>,
    params: &[Param],
    returned: CType,
    items: Vec<Stmt>,
) -> Result<Vec<Func>, CompileFault>
    ensures { Gives (each func_view) result (func_by (typed (map param_view params.now)) (typed (type_view returned)) (context_view context.now) (typed (each stmt_view items))) }
{
    let func = func_of(
        context.alloc,
        params,
        &context.locals,
        &context.addressed,
        returned,
        items,
    )?;
    let mut all = Vec::new(context.alloc);
    all.push(func)?;
    Ok(all)
}

// A body, where its parameters are known.
fn typed_body(
    context: &mut Context<'_>,
    params: Result<Vec<Param>, CompileFault>,
    returned: Result<CType, CompileFault>,
    body: &Block,
) -> Result<Vec<Func>, CompileFault>
    ensures { (j : Judged (List numbers.Param)) (k : Judged Ty) → Gives (each param_view) params j → Gives type_view returned k → Tells (each func_view) result context.new (judged_body j k (Some (source.body_view body.now)) (context_view context.old)) }
{
    let t = or_int(context.alloc, &returned)?;
    let items = stmts(context, &t, Jumps::in_function(), &body.items);
    let ((params, returned), items) = both(both(params, returned), items)?;
    func_made(context, &params, returned, items)
}

// A body, in the scope of its parameters, and what is left behind it.
fn whole_body<'t>(
    context: &mut Context<'t>,
    head: Head<'t>,
    returned: Result<CType, CompileFault>,
    name: Name,
    body: &Block,
) -> Result<Vec<Func>, CompileFault>
    ensures { (j : Judged (List numbers.Param)) (k : Judged Ty) → Gives (each param_view) head.entry.params j → Gives type_view returned k → Tells (each func_view) result context.new (body_within (frame_view head.entry.scope.entries) j k name (Some (source.body_view body.now)) (context_view context.old)) }
{
    let Head { params, scope } = head;
    context.enter(scope)?;
    let func = typed_body(context, params, returned, body);
    context.leave();
    add_body(context, name)?;
    func
}

// The same, or none.
fn body_within<'t>(
    context: &mut Context<'t>,
    head: Head<'t>,
    returned: Result<CType, CompileFault>,
    name: Name,
    body: &Option<Block>,
) -> Result<Vec<Func>, CompileFault>
    ensures { (j : Judged (List numbers.Param)) (k : Judged Ty) → Gives (each param_view) head.entry.params j → Gives type_view returned k → Tells (each func_view) result context.new (body_within (frame_view head.entry.scope.entries) j k name (option_map source.body_view body.now) (context_view context.old)) }
{
    match body {
        Some(body) => whole_body(context, head, returned, name, body),
        None => Ok(Vec::new(context.alloc)),
    }
}

/// A function's declaration or definition: its name is in scope behind its declarator.
pub(crate) fn function(
    context: &mut Context<'_>,
    defined: &Defined<'_>,
    base: &Result<CType, CompileFault>,
    pointers: &[Pointer],
    name: Name,
    params: &[tree::Param],
    body: &Option<Block>,
) -> Result<Vec<Func>, CompileFault>
    ensures { (names : List (List ℕ)) (j : Judged Ty) → IsDefined names defined.now → Gives type_view base.now j → Tells (each func_view) result context.new (judged_function names j pointers.now name (map source.param_view params.now) (option_map source.body_view body.now) (context_view context.old)) }
{
    let base = again(context.alloc, base);
    let returned = outcome(result_of(context.alloc, name.from, base, pointers))?;
    let head = found_head(context, params)?;
    let fine = head_fine(context, defined, name, body, &head.params, &returned);
    let types = types_or(context.alloc, &head.params)?;
    let declared = or_int(context.alloc, &returned)?;
    declare_function(context, defined, name, types, declared)?;
    let funcs = body_within(context, head, returned, name, body);
    let (_, funcs) = both(fine, funcs)?;
    Ok(funcs)
}
